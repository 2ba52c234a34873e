// gir_file: files the sheet of an attribute area. `gir_file IN OUT` takes IN, a kind octet, a flags octet and an area, and makes its sheet
// stand at OUT; `gir_file -` does so for each line `IN<TAB>OUT` of standard input, `gir_file -z` for each two names there, with an octet 0
// behind each. Each gets one line of answer: `filed N`, `refused N S`, `short` or `trouble STEP`, and standard error says why. With
// `--status` before these, the last act is to write a digit to descriptor 3: 0 each sheet was filed, 1 some were refused or short, 2 there
// was trouble. Here a step is performed; which one comes then, `filing::next` decides.
#![tactic(auto)]

ghost use Rattle.std.specs.Prelude.{◌≡◌, ℕ, ◌≤◌, List, take};

use desk::Refusal;
use filing::{Answer, BadLine, BadPair, Outcome, Step};
use lines::Text;
use std::fs::{File, OpenOptions};
use std::io::{Error, ErrorKind, Print, Read, Write};
use std::marker::Model;
use std::{fs, io};

// Room for kind octet, flags octet and area: the 4,077th octet of an area is enough to know that it is too long.
const PAYLOAD: usize = 3 + desk::LONGEST_AREA;

const SHEET: usize = desk::LONGEST_SHEET;

// Room for the longest sheet as it is read back, and for one octet more than it should have.
const READ_BACK: usize = 1 + SHEET;

// Room for a name: the longest path of the system, and for a line of two names.
const NAME: usize = 4096;

const LINE: usize = 8192;

// Room for what is read ahead of standard input.
const AHEAD: usize = 65536;

// The system's errors where nothing stands at a path, where what stands there is no link, and where no file is open: by their
// numbers, since one of std's kinds stands for several, and what is shown is the text of the number.
const ENOENT: i32 = 2;

const EINVAL: i32 = 22;

const EBADF: i32 = 9;

// ---- Octets in a buffer

// Octets in a buffer with room for N. No `lines::Text`, of which all fifty octets are promised, for the room of each is another here.
#[derive(Drop)]
struct Held<const N: usize> {
    room: [u8; N],
    len: usize,
}

// Clauses see the octets.
impl<const N: usize> Model for Held<N> {
    ghost Value = { List ℕ };

    ghost view = { λ h. take h.len h.room };

    ghost invariant = { λ h. h.len ≤ N };
}

impl<const N: usize> Held<N> {
    fn new() -> Self {
        Held {
            room: [0; N],
            len: 0,
        }
    }

    fn as_slice(&self) -> &[u8]
        ensures { result.now ≡ self.now }
    {
        &self.room[..self.len]
    }

    fn clear(&mut self) {
        self.len = 0;
    }

    // Of the buffer, the first `n` octets, or as many as there are.
    fn keep(&mut self, n: usize) {
        self.len = n.min(N);
    }

    // Puts octets behind those that are held, where they fit.
    fn put(&mut self, s: &[u8]) {
        let len = self.len;
        if s.len() <= N - len {
            let room = &mut self.room[..];
            room[len..len + s.len()].copy_from_slice(s);
            self.len = len + s.len();
        }
    }

    // Puts as many of the octets behind those that are held as there is room for.
    fn put_first(&mut self, s: &[u8]) {
        let room = N - self.len;
        self.put(&s[..s.len().min(room)]);
    }

    // Reads once, over what was held; at the end nothing is held.
    fn read_once<R: Read>(&mut self, from: &mut R) -> io::Result<()> {
        let n = from.read(&mut self.room)?;
        self.keep(n);
        Ok(())
    }

    // Reads until the buffer is full or the input ends.
    fn fill<R: Read>(&mut self, from: &mut R) -> io::Result<()> {
        let n = streams::fill(from, &mut self.room)?;
        self.keep(n);
        Ok(())
    }

    // Takes an argument.
    fn argument(&mut self, rt: HostRuntime, i: usize) -> io::Result<()> {
        let n = streams::argument(rt, i, &mut self.room)?;
        self.keep(n);
        Ok(())
    }
}

// ---- What is said

// An answer line, and what it tells.
#[derive(Drop)]
struct Said {
    line: Text,
    outcome: Outcome,
}

impl Said {
    fn trouble(word: &[u8]) -> Said {
        Said {
            line: Text::new().with(b"trouble ").with(word).with(b"\n"),
            outcome: Outcome::Trouble,
        }
    }

    fn filed(sheet: usize) -> Said {
        Said {
            line: Text::new()
                .with(b"filed ")
                .with_decimal(sheet as u64)
                .with(b"\n"),
            outcome: Outcome::Filed,
        }
    }

    fn short() -> Said {
        Said {
            line: Text::new().with(b"short\n"),
            outcome: Outcome::Refused,
        }
    }

    // The refusal of an IN that has so many octets, of which only a part was kept.
    fn refused(refusal: Refusal, all: u64) -> Said {
        let second = lines::second_told(refusal.number, refusal.second as u64, all);
        Said {
            line: lines::refusal(refusal.number, second),
            outcome: Outcome::Refused,
        }
    }

    // Writes the line.
    fn print(self, rt: HostRuntime) -> Result<Outcome, Over> {
        if let Err(error) = rt.write_all(self.line.as_slice()) {
            fail(rt, b"answer", b"standard output", error);
            return Err(Over::Stop);
        }
        Ok(self.outcome)
    }
}

// Says on standard error which step failed, at which file, and the system's reason.
fn fail(rt: HostRuntime, word: &[u8], name: &[u8], error: Error) {
    streams::say(rt, b"gir_file: ");
    streams::say(rt, word);
    streams::say(rt, b": ");
    streams::fail(rt, name, error);
}

// The same with a reason of our own.
fn complain(rt: HostRuntime, word: &[u8], name: &[u8], reason: &[u8]) {
    streams::say(rt, b"gir_file: ");
    streams::say(rt, word);
    streams::say(rt, b": ");
    streams::say(rt, name);
    streams::say(rt, b": ");
    streams::say(rt, reason);
    streams::say(rt, b"\n");
}

// ---- Paths

// Asks whether a path is a link: the system's error where it is none.
fn link_at(rt: HostRuntime, path: &[u8]) -> io::Result<()> {
    match fs::read_link(&rt, streams::path(path)?) {
        Err(error) if error.raw_os_error().is_some() => Err(error),
        // A link; or the system has told the link's text, which is no path here.
        _ => Ok(()),
    }
}

// What stands at a path.
#[derive(Clone, Copy)]
enum Standing {
    Link,
    Folder,
    Other,
}

// What stands at a path, if anything does. The question is put by `read_link`, which follows no link: EINVAL is its answer for what is no
// link.
fn what_stands(rt: HostRuntime, path: &[u8]) -> io::Result<Option<Standing>> {
    let Err(error) = link_at(rt, path) else {
        return Ok(Some(Standing::Link));
    };
    match error.raw_os_error() {
        Some(ENOENT) => Ok(None),
        Some(EINVAL) if is_folder(rt, path) => Ok(Some(Standing::Folder)),
        Some(EINVAL) => Ok(Some(Standing::Other)),
        _ => Err(error),
    }
}

// Whether a folder stands at a path that is no link. Only the words of a message depend on it. What is behind a slash is a folder's own
// name in a folder, and in anything else there is none.
fn is_folder(rt: HostRuntime, path: &[u8]) -> bool {
    let mut own_name = Held::<NAME>::new();
    own_name.put(path);
    own_name.put(b"/.");
    match link_at(rt, own_name.as_slice()) {
        Ok(()) => false,
        Err(error) => error.raw_os_error() == Some(EINVAL),
    }
}

// Waits until the folder of a path is on the disk.
fn sync_folder(rt: HostRuntime, folder: &[u8]) -> io::Result<()> {
    streams::open(rt, folder)?.sync_all()
}

// Gives a file another name.
fn rename(rt: HostRuntime, from: &[u8], to: &[u8]) -> io::Result<()> {
    fs::rename(&rt, streams::path(from)?, streams::path(to)?)
}

// ---- The steps

// Why a step went badly: the system's reason, a reason of our own, an IN without kind and flags, an area of which there is no sheet.
#[derive(Drop)]
enum Fault {
    System(Error),
    Ours(&'static [u8]),
    Short,
    Refused(Refusal),
}

impl From<Error> for Fault {
    fn from(error: Error) -> Self {
        Fault::System(error)
    }
}

impl From<Refusal> for Fault {
    fn from(refusal: Refusal) -> Self {
        Fault::Refused(refusal)
    }
}

// The error of a file that is not open.
fn not_open() -> Fault {
    Fault::System(Error::from_raw_os_error(EBADF))
}

// A filing: IN, OUT and the temporary file's name; the temporary file while it is open, what was taken of IN, the octets of the whole of
// IN, the sheet, and the answer, once something has failed.
#[derive(Drop)]
struct Filing<'a> {
    rt: HostRuntime,
    input: &'a [u8],
    out: &'a [u8],
    temp: &'a [u8],
    file: Option<File>,
    taken: Held<PAYLOAD>,
    all: u64,
    sheet: Held<SHEET>,
    said: Said,
}

impl Filing<'_> {
    // Take: IN, or as much of it as decides the answer, and its length.
    fn take(&mut self) -> Result<(), Fault> {
        let mut file = streams::open(self.rt, self.input)?;
        self.taken.fill(&mut file)?;
        let kept = self.taken.as_slice().len() as u64;
        self.all = streams::count(&mut file, kept)?;
        Ok(())
    }

    // Read: the sheet of the area.
    fn make_sheet(&mut self) -> Result<(), Fault> {
        let [kind, flags, area @ ..] = self.taken.as_slice() else {
            return Err(Fault::Short);
        };
        let n = desk::read(area, *kind as u32, *flags as u32, &mut self.sheet.room)?;
        self.sheet.keep(n);
        Ok(())
    }

    // Return: the sheet gives back what was taken.
    fn go_back(&self) -> Result<(), Fault> {
        let mut area = [0u8; desk::LONGEST_AREA];
        let Ok(written) = desk::write(self.sheet.as_slice(), &mut area) else {
            return Err(Fault::Ours(b"its sheet gives no area"));
        };
        let made = octets::part(&area, 0, written.length);
        if filing::came_back(self.taken.as_slice(), written.kind, written.flags, made) {
            return Ok(());
        }
        Err(Fault::Ours(b"its sheet gives another area"))
    }

    // Look, LookAgain: nothing stands at OUT.
    fn look(&self) -> Result<(), Fault> {
        match what_stands(self.rt, self.out)? {
            None => Ok(()),
            Some(Standing::Link) => Err(Fault::Ours(b"a link of this name stands already")),
            Some(Standing::Folder) => Err(Fault::Ours(b"a folder of this name stands already")),
            Some(Standing::Other) => Err(Fault::Ours(b"a file of this name stands already")),
        }
    }

    // Create: the temporary file, new; no link is followed.
    fn create(&mut self) -> Result<(), Fault> {
        let name = streams::path(self.temp)?;
        let file = OpenOptions::new()
            .write(true)
            .create_new(true)
            .open(&self.rt, name)?;
        self.file = Some(file);
        Ok(())
    }

    // Write: the sheet, whole.
    fn write(&mut self) -> Result<(), Fault> {
        let Some(file) = &mut self.file else {
            return Err(not_open());
        };
        file.write_all(self.sheet.as_slice())?;
        Ok(())
    }

    // Sync: the temporary file is on the disk.
    fn sync(&self) -> Result<(), Fault> {
        let Some(file) = &self.file else {
            return Err(not_open());
        };
        file.sync_all()?;
        Ok(())
    }

    // Close, Abandon: the temporary file. What std closes tells no error: the file is synced already, and is compared when it is opened
    // again.
    fn close(&mut self) {
        self.file = None;
    }

    // Open: the temporary file again.
    fn open(&mut self) -> Result<(), Fault> {
        self.file = Some(streams::open(self.rt, self.temp)?);
        Ok(())
    }

    // Compare: what is there is the sheet, no octet more and none less; closes the file.
    fn compare(&mut self) -> Result<(), Fault> {
        let Some(mut file) = self.file.take() else {
            return Err(not_open());
        };
        let mut back = Held::<READ_BACK>::new();
        back.fill(&mut file)?;
        if back.as_slice() == self.sheet.as_slice() {
            return Ok(());
        }
        Err(Fault::Ours(b"it holds something else than the sheet"))
    }

    // OUT's folder.
    fn folder(&self) -> &[u8] {
        let n = filing::folder_len(self.out);
        if n == 0 {
            return b".";
        }
        octets::part(self.out, 0, n)
    }

    // SyncName, SyncFolder: OUT's folder is on the disk, with the names in it.
    fn sync_folder(&self) -> Result<(), Fault> {
        sync_folder(self.rt, self.folder())?;
        Ok(())
    }

    // Rename: the temporary file gets the name OUT.
    fn rename(&self) -> Result<(), Fault> {
        rename(self.rt, self.temp, self.out)?;
        Ok(())
    }

    // Remove: the temporary file.
    fn remove(&self) -> Result<(), Fault> {
        fs::remove_file(&self.rt, streams::path(self.temp)?)?;
        Ok(())
    }

    // Withdraw: the sheet at OUT gets the name under which it is kept, the temporary file's with `.kept` for `.tmp`, if that is free.
    fn withdraw(&self) -> Result<(), Fault> {
        let mut kept = Held::<NAME>::new();
        if let Some(stem) = self.temp.strip_suffix(b".tmp") {
            kept.put(stem);
            kept.put(b".kept");
        }
        let Ok(None) = what_stands(self.rt, kept.as_slice()) else {
            return Err(Fault::Ours(b"it stays, since the name to keep it under is not free"));
        };
        rename(self.rt, self.out, kept.as_slice())?;
        complain(
            self.rt,
            b"withdraw",
            kept.as_slice(),
            b"the whole sheet is kept here",
        );
        Ok(())
    }

    // Performs a step.
    fn perform(&mut self, step: Step) -> Result<(), Fault> {
        match step {
            Step::Take => self.take()?,
            Step::Read => self.make_sheet()?,
            Step::Return => self.go_back()?,
            Step::Look | Step::LookAgain => self.look()?,
            Step::Create => self.create()?,
            Step::Write => self.write()?,
            Step::Sync => self.sync()?,
            Step::Close | Step::Abandon => self.close(),
            Step::Open => self.open()?,
            Step::Compare => self.compare()?,
            Step::SyncName | Step::SyncFolder => self.sync_folder()?,
            Step::Rename => self.rename()?,
            Step::Remove => self.remove()?,
            Step::Withdraw => self.withdraw()?,
            Step::Filed | Step::Failed | Step::Kept => {}
        }
        Ok(())
    }

    // The word for a step that went badly, and the file at which it did. Of the steps in the last line none does so with a
    // reason, so no Option: an answer with no word would be one that is never given.
    fn at_fault(&self, step: Step) -> (&'static [u8], &[u8]) {
        match step {
            Step::Take => (b"in", self.input),
            Step::Return => (b"return", self.input),
            Step::Look | Step::LookAgain => (b"out", self.out),
            Step::Create => (b"create", self.temp),
            Step::Write => (b"write", self.temp),
            Step::Sync => (b"sync", self.temp),
            Step::Open => (b"open", self.temp),
            Step::Compare => (b"compare", self.temp),
            Step::SyncName => (b"name", self.folder()),
            Step::Rename => (b"rename", self.out),
            Step::SyncFolder => (b"folder", self.folder()),
            Step::Remove => (b"remove", self.temp),
            Step::Withdraw => (b"withdraw", self.out),
            Step::Read | Step::Close | Step::Abandon | Step::Filed | Step::Failed | Step::Kept => (
                b"", b"",
            ),
        }
    }

    // Says why a step went badly, and answers it. Where it is a step that clears up, the answer stays what it is.
    fn go_wrong(&mut self, step: Step, fault: Fault) {
        let (word, name) = self.at_fault(step);
        match fault {
            Fault::System(error) => fail(self.rt, word, name, error),
            Fault::Ours(reason) => complain(self.rt, word, name, reason),
            Fault::Short => {
                self.said = Said::short();
                return;
            }
            Fault::Refused(refusal) => {
                self.said = Said::refused(refusal, self.all);
                return;
            }
        }
        if step != Step::Remove && step != Step::Withdraw {
            self.said = Said::trouble(word);
        }
    }

    // Files the sheet, step by step, and tells the answer. The steps are data, which `filing` proves what it does of, and `perform` has an
    // arm for each; the loop runs by `filing::steps_left`, which falls (`left_falls`).
    fn run(mut self) -> Said {
        let mut step = Step::Take;
        while filing::steps_left(step) > 0 {
            let mut answer = Answer::Well;
            if let Err(fault) = self.perform(step) {
                self.go_wrong(step, fault);
                answer = Answer::Badly;
            }
            step = filing::next(step, answer);
        }
        if step == Step::Filed {
            return Said::filed(self.sheet.as_slice().len());
        }
        self.said
    }
}

// Files the sheet of IN at OUT and prints the answer.
fn answer(rt: HostRuntime, input: &[u8], out: &[u8]) -> Result<Outcome, Over> {
    let mut name = Held::<NAME>::new();
    let n = filing::temporary(out, &mut name.room).unwrap_or(0);
    name.keep(n);
    let filing = Filing {
        rt,
        input,
        out,
        temp: name.as_slice(),
        file: None,
        taken: Held::new(),
        all: 0,
        sheet: Held::new(),
        // what is answered if no step says anything else
        said: Said {
            line: Text::new(),
            outcome: Outcome::Trouble,
        },
    };
    filing.run().print(rt)
}

// ---- Two names

// Says what is wrong with a line or a name, and answers it.
fn no_names(rt: HostRuntime, name: &[u8], reason: &[u8]) -> Result<Outcome, Over> {
    complain(rt, b"names", name, reason);
    Said::trouble(b"names").print(rt)
}

// A name without its last octet.
fn but_last(name: &[u8]) -> &[u8] {
    match name {
        [front @ .., _] => front,
        [] => name,
    }
}

// Answers two names, which may end in a carriage return where they come exactly. Of one that may not, the message is without it, since it
// would hide what stands before it.
fn answer_pair(rt: HostRuntime, input: &[u8], out: &[u8], exact: bool) -> Result<Outcome, Over> {
    match filing::judge_pair(input, out, exact) {
        Ok(()) => answer(rt, input, out),
        Err(BadPair::NoName) => {
            let other = if input.is_empty() { out } else { input };
            no_names(rt, other, b"an empty name")
        }
        Err(BadPair::ZeroOctet) => no_names(rt, input, b"an octet 0 in a name"),
        Err(BadPair::TooLong) => no_names(rt, b"IN or OUT", b"a name is too long"),
        Err(BadPair::CarriageReturn) => {
            let name = if filing::ends_in_return(out) {
                out
            } else {
                input
            };
            no_names(
                rt,
                but_last(name),
                b"a name ends in a carriage return, as in a list with CR LF line ends",
            )
        }
    }
}

// Answers a line of the list.
fn record(rt: HostRuntime, line: &[u8]) -> Result<Outcome, Over> {
    match filing::split(line) {
        Ok(tab) => answer_pair(rt, &line[..tab], &line[tab + 1..], false),
        Err(BadLine::NoTab) => no_names(rt, line, b"no tab stands between two names"),
        Err(BadLine::TwoTabs) => no_names(rt, line, b"more than one tab"),
    }
}

// ---- Names from standard input

// Why no more names are answered: they have come to their end; of the last one what ends it is missing, and what that is; standard input
// cannot be read; standard output takes no more.
#[derive(Drop)]
enum Over {
    End,
    Cut(&'static [u8], &'static [u8]),
    Unread(Error),
    Stop,
}

impl From<Error> for Over {
    fn from(error: Error) -> Self {
        Over::Unread(error)
    }
}

impl Over {
    // Says why, where that was not said yet, and tells what comes of it.
    fn told(self, rt: HostRuntime) -> Outcome {
        match self {
            Over::End => return Outcome::Filed,
            Over::Cut(name, reason) => {
                let _ = no_names(rt, name, reason);
            }
            Over::Unread(error) => fail(rt, b"names", b"standard input", error),
            Over::Stop => {}
        }
        Outcome::Trouble
    }
}

// Standard input: what was read ahead of it, and how much of that is used.
#[derive(Drop)]
struct Input {
    rt: HostRuntime,
    ahead: Held<AHEAD>,
    used: usize,
}

impl Input {
    // Reads ahead, where all that was read is used.
    fn read_ahead(&mut self) -> io::Result<()> {
        if self.ahead.as_slice().len() <= self.used {
            self.ahead.read_once(&mut self.rt.stdin())?;
            self.used = 0;
        }
        Ok(())
    }

    // The next octets up to the octet that ends them, and without it. Of those that are more than there is room, and so no names, the
    // first are kept. What was read is taken as a whole: octet by octet a list of long lines takes more than twice the time.
    fn next<const N: usize>(&mut self, end: u8, line: &mut Held<N>) -> Result<(), Over> {
        line.clear();
        for _ in 0..u64::MAX {
            self.read_ahead()?;
            let Some(unused @ [_, ..]) = self.ahead.as_slice().get(self.used..) else {
                return Err(if line.as_slice().is_empty() {
                    Over::End
                } else {
                    cut(end)
                });
            };
            if let Some(n) = unused.iter().position(|x| *x == end) {
                line.put_first(&unused[..n]);
                self.used += n + 1;
                return Ok(());
            }
            line.put_first(unused);
            self.used += unused.len();
        }
        Err(Over::Unread(Error::from(ErrorKind::FileTooLarge)))
    }

    // Answers the next line.
    fn answer_line(&mut self, line: &mut Held<LINE>) -> Result<Outcome, Over> {
        self.next(b'\n', line)?;
        record(self.rt, line.as_slice())
    }

    // Answers the next two names, each with an octet 0 behind it.
    fn answer_names(
        &mut self,
        input: &mut Held<LINE>,
        out: &mut Held<NAME>,
    ) -> Result<Outcome, Over> {
        self.next(0, input)?;
        match self.next(0, out) {
            Ok(()) => answer_pair(self.rt, input.as_slice(), out.as_slice(), true),
            Err(Over::End) => Err(Over::Cut(b"the last name", b"it is an IN without OUT")),
            Err(over) => Err(over),
        }
    }
}

// That what ends the last line or name is missing.
fn cut(end: u8) -> Over {
    if end == b'\n' {
        return Over::Cut(b"the last line", b"it has no line feed");
    }
    Over::Cut(b"the last name", b"it has no octet 0 behind it")
}

// Answers the lines of standard input, or the names where they come exactly, until it ends or standard output takes no more.
fn answer_all(rt: HostRuntime, exact: bool) -> Outcome {
    let mut input = Input {
        rt,
        ahead: Held::new(),
        used: 0,
    };
    let mut line = Held::<LINE>::new();
    let mut out = Held::<NAME>::new();
    let mut so_far = Outcome::Filed;
    for _ in 0..u64::MAX {
        let answered = if exact {
            input.answer_names(&mut line, &mut out)
        } else {
            input.answer_line(&mut line)
        };
        match answered {
            Ok(outcome) => so_far = filing::worse(so_far, outcome),
            Err(over) => return filing::worse(so_far, over.told(rt)),
        }
    }
    Outcome::Trouble
}

// ---- The arguments

// Says that an argument cannot be had, and answers it.
fn unnamed(rt: HostRuntime, which: &[u8], error: Error) -> Result<Outcome, Over> {
    fail(rt, b"names", which, error);
    Said::trouble(b"names").print(rt)
}

// Files the sheet of an argument at the next.
fn answer_arguments(rt: HostRuntime, first: usize) -> Result<Outcome, Over>
    requires { first ≤ 2 }
{
    let mut input = Held::<NAME>::new();
    if let Err(error) = input.argument(rt, first) {
        return unnamed(rt, b"IN", error);
    }
    let mut out = Held::<NAME>::new();
    if let Err(error) = out.argument(rt, first + 1) {
        return unnamed(rt, b"OUT", error);
    }
    answer_pair(rt, input.as_slice(), out.as_slice(), false)
}

// Does what the arguments ask, of which so many stand before the names.
fn answer_asked(rt: HostRuntime, before: usize) -> Outcome
    requires { before ≤ 2 }
{
    let args = streams::argument_count(rt);
    if args == before + 2 {
        return answer_arguments(rt, before).unwrap_or(Outcome::Trouble);
    }
    if args == before + 1 && streams::is_word(rt, before, b"-") {
        return answer_all(rt, false);
    }
    if args == before + 1 && streams::is_word(rt, before, b"-z") {
        return answer_all(rt, true);
    }
    streams::say(
        rt,
        b"gir_file: [--status] IN and OUT, or - or -z and names on standard input\n",
    );
    Outcome::Trouble
}

// Not by `answering::told`: that tells a status of its own, and what is told here is an outcome's digit as `filing::digit` promises it. One
// over both would need a trait for these four lines, and be no plainer.
fn main(rt: HostRuntime) {
    if streams::is_word(rt, 1, b"--status") {
        let outcome = answer_asked(rt, 2);
        streams::tell(filing::digit(outcome));
        return;
    }
    answer_asked(rt, 1);
}
