// gir_batch: any number of records in one run, from standard input to standard output, one line a record. A record is a job octet,
// the room and the length n of the payload, 32 bits each with the high octet first, and n octets of payload; its line is what
// `printing::record` makes of it. Another job, or a record that passes the input's end, gives `broken K`, K being the record's number
// from 0, and ends the run. What is ready is written before the program waits for input; a write that fails ends the run, with nothing
// written after it. Of a payload over 1,048,576 octets the first are kept, and its line says what these decide. With `--status` as
// first argument the last act is to write a digit to descriptor 3: 0 where every record has its line, 1 where one was broken, 2 for
// trouble.
#![tactic(auto)]

ghost use Rattle.std.specs.Prelude.{◌+◌, ◌≤◌, length, IfOk};
ghost use Rattle.gir_batch.specs.declared.TheConstants.{INPUT, LINES};

use answering::Status;
use lines::Text;
use std::io::{Error, Print, Read};

// The octets before a payload: job, room and length.
const HEAD: usize = 9;

// The octets of a payload that are kept.
const KEPT: usize = 1048576;

// Room for a record as far as it is kept.
const INPUT: usize = HEAD + KEPT;

// The octets that one read asks for.
const PART: usize = 131072;

// Room for lines: 65,536 octets of those that wait, and the longest behind them.
const LINES: usize = 65536 + printing::LONGEST_LINE;

// ---- How a run ends

// What could not be read or written, and the system's reason.
#[derive(Drop)]
struct Trouble {
    with: &'static [u8],
    error: Error,
}

// Why a run goes no further: each record has its line, the next one is broken, or there is trouble.
#[derive(Drop)]
enum Ending {
    Answered,
    Broken,
    Troubled(Trouble),
}

impl From<Trouble> for Ending {
    fn from(trouble: Trouble) -> Ending {
        Ending::Troubled(trouble)
    }
}

// ---- Standard input and output

// One read.
fn read(rt: HostRuntime, buf: &mut [u8]) -> Result<usize, Trouble>
    ensures { IfOk result (λ n. n ≤ length buf.new) }
{
    rt.stdin().read(buf).map_err(|error| Trouble {
        with: b"gir_batch: standard input",
        error,
    })
}

// Passes over octets of the input. Where not all of them are there, the record is broken. No `io::copy` into a sink: it reads again where
// a read was interrupted, and that is told here.
fn skip(rt: HostRuntime, count: usize) -> Result<(), Ending> {
    let mut chunk = streams::large_buffer();
    let mut left = count;
    while left > 0 {
        let want = left.min(chunk.len());
        let got = read(rt, &mut chunk[..want])?;
        if got == 0 {
            return Err(Ending::Broken);
        }
        left -= got;
    }
    Ok(())
}

// Writes octets out.
fn write(rt: HostRuntime, s: &[u8]) -> Result<(), Trouble> {
    rt.write_all(s).map_err(|error| Trouble {
        with: b"gir_batch: standard output",
        error,
    })
}

// Writes that a record is broken.
fn write_broken(rt: HostRuntime, number: u64) -> Result<(), Trouble> {
    let line = Text::new()
        .with(b"broken ")
        .with_decimal(number)
        .with(b"\n");
    write(rt, line.as_slice())
}

// ---- What is read

// A record, of whose payload of `all` octets some are kept. Its job is an octet, as `printing::record` promises a line for every one.
#[derive(Clone, Copy)]
struct Record<'a> {
    job: u8,
    room: usize,
    all: usize,
    payload: &'a [u8],
}

impl Record<'_> {
    // Lays its line over the start of `out`, and tells the octets; `sheet` and `list` are lent for what its job makes. It stays a call,
    // since there the compiler knows that the buffers do not overlap: within its caller a batch takes 7 percent longer.
    #[inline(never)]
    fn lay_line(self, sheet: &mut [u8], list: &mut [u32], out: &mut [u8]) -> usize
        ensures { result ≤ length out.new }
    {
        printing::record(
            self.job,
            self.payload,
            self.all,
            self.room,
            sheet,
            list,
            out,
        )
    }
}

// Why octets begin with no record: there are too few of it, as far as it is kept, or its job is another than the desk's.
#[derive(Clone, Copy)]
enum NoRecord {
    Part,
    OtherJob,
}

// The octets that were read and are not used yet: those of `held` from `at` to `have`.
#[derive(Drop)]
struct Input {
    held: [u8; INPUT],
    at: usize,
    have: usize,
    ghost begun: { at ≤ have },
    ghost within: { have ≤ INPUT },
}

impl Input {
    fn new() -> Input {
        Input {
            held: streams::zeros(),
            at: 0,
            have: 0,
        }
    }

    // The record that they begin with.
    fn front(&self) -> Result<Record, NoRecord>
        ensures { IfOk result (λ r. self.now.at + (HEAD + length r.payload.now) ≤ self.now.have) }
    {
        let unused = &self.held[self.at..self.have];
        let (head, rest) = unused.split_at_checked(HEAD).ok_or(NoRecord::Part)?;
        if !printing::is_job(head[0]) {
            return Err(NoRecord::OtherJob);
        }
        let all = octets::u32_at(head, 5) as usize;
        let payload = rest.get(..all.min(KEPT)).ok_or(NoRecord::Part)?;
        Ok(Record {
            job: head[0],
            room: octets::u32_at(head, 1) as usize,
            all,
            payload,
        })
    }

    // Goes past so many of them.
    fn pass(&mut self, count: usize)
        requires { self.old.at + count ≤ self.old.have }
    {
        self.at += count;
    }

    // Moves them to the start of the room.
    fn settle(&mut self) {
        let at = self.at;
        if at == 0 {
            return;
        }
        self.held.copy_within(at..self.have, 0);
        self.at = 0;
        self.have -= at;
    }

    // Reads behind them. At the input's end the run ends: what is left is a part of a record.
    fn fill(&mut self, rt: HostRuntime) -> Result<(), Ending> {
        self.settle();
        let have = self.have;
        let end = have + PART.min(INPUT - have);
        match read(rt, &mut self.held[have..end])? {
            0 if self.at < have => Err(Ending::Broken),
            0 => Err(Ending::Answered),
            n => {
                self.have += n;
                Ok(())
            }
        }
    }
}

// ---- What is written

// The lines that wait to be written: the first `used` octets of `held`.
#[derive(Drop)]
struct Lines {
    held: [u8; LINES],
    used: usize,
    ghost within: { used ≤ LINES },
}

impl Lines {
    fn new() -> Lines {
        Lines {
            held: streams::zeros(),
            used: 0,
        }
    }

    // Whether the longest line has room behind them.
    fn have_room(&self) -> bool {
        printing::LONGEST_LINE <= LINES - self.used
    }

    // Writes them out.
    fn write(&mut self, rt: HostRuntime) -> Result<(), Trouble> {
        write(rt, &self.held[..self.used])?;
        self.used = 0;
        Ok(())
    }

    // Puts the line of a record behind them; `sheet` and `list` are lent for what its job makes.
    fn put(&mut self, record: Record, sheet: &mut [u8], list: &mut [u32]) {
        let used = self.used;
        self.used += record.lay_line(sheet, list, &mut self.held[used..]);
    }
}

// ---- The run

// A run: what is read, the lines that wait, what is lent for a record's answer, and the number of the next record.
#[derive(Drop)]
struct Run {
    input: Input,
    lines: Lines,
    sheet: [u8; desk::LONGEST_SHEET],
    list: [u32; desk::LONGEST_LIST],
    number: u64,
}

impl Run {
    fn new() -> Run {
        Run {
            input: Input::new(),
            lines: Lines::new(),
            sheet: [0; desk::LONGEST_SHEET],
            list: [0; desk::LONGEST_LIST],
            number: 0,
        }
    }

    // One turn: a record is answered, or lines are written and more is read. What is not kept of a payload is passed over first, with no
    // line waiting.
    fn turn(&mut self, rt: HostRuntime) -> Result<(), Ending> {
        let record = match self.input.front() {
            Ok(record) => record,
            Err(NoRecord::Part) => {
                self.lines.write(rt)?;
                return self.input.fill(rt);
            }
            Err(NoRecord::OtherJob) => return Err(Ending::Broken),
        };
        let kept = record.payload.len();
        if kept < record.all {
            self.lines.write(rt)?;
            skip(rt, record.all - kept)?;
        } else if !self.lines.have_room() {
            self.lines.write(rt)?;
        }
        self.lines.put(record, &mut self.sheet, &mut self.list);
        self.input.pass(HEAD + kept);
        self.number = self.number.saturating_add(1);
        Ok(())
    }

    // Turns until the run goes no further.
    fn answer(&mut self, rt: HostRuntime) -> Result<(), Ending> {
        for _ in 0..u64::MAX {
            self.turn(rt)?;
        }
        Ok(())
    }

    // Writes what an ending leaves to be written.
    fn end(&mut self, rt: HostRuntime, ending: Ending) -> Result<Status, Trouble> {
        match ending {
            Ending::Answered => Ok(Status::Answered),
            Ending::Broken => {
                self.lines.write(rt)?;
                write_broken(rt, self.number)?;
                Ok(Status::Faulty)
            }
            Ending::Troubled(trouble) => Err(trouble),
        }
    }
}

// Answers the records of standard input.
fn answer_all(rt: HostRuntime) -> Status {
    let mut run = Run::new();
    let Err(ending) = run.answer(rt) else {
        return Status::Trouble;
    };
    match run.end(rt, ending) {
        Ok(status) => status,
        Err(trouble) => {
            streams::fail(rt, trouble.with, trouble.error);
            Status::Trouble
        }
    }
}

// Answers where there is no argument behind the first so many.
fn answer_arguments(rt: HostRuntime, passed: usize) -> Status {
    if streams::argument_count(rt) <= passed {
        return answer_all(rt);
    }
    streams::say(
        rt,
        b"gir_batch: records on standard input, and no argument but --status\n",
    );
    Status::Trouble
}

fn main(rt: HostRuntime) {
    answering::told(rt, answer_arguments(rt, answering::before(rt)));
}
