// Filing: the steps by which a sheet comes to stand under its name in a folder, and what follows a step's answer. Nothing here reads or
// writes a file: the program performs a step, and `next` says which one comes then.
#![tactic(auto)]

ghost use Rattle.std.specs.Prelude.{◌≡◌, ◌==◌, ◌∷◌, ◌<◌, ltb, length, position, IfOk};
ghost use Rattle.meaning.specs.Octets.{same};
ghost use Rattle.filing.specs.Steps.{onward, back, next_of};
ghost use Rattle.filing.specs.Runs.{left};
ghost use Rattle.filing.specs.Names.{up_to, line_of, ends_in_return, pair_by_ends, pair_of, folder_length, Named};
ghost use Rattle.filing.specs.Outcomes.{worse_of, digit_of};

// A step of filing one sheet. IN names what is filed, OUT the name that the sheet gets; the temporary file stands in OUT's folder.
#[derive(Clone, Copy, PartialEq, Eq)]
pub enum Step {
    // reads IN: a kind octet, a flags octet and an area
    Take,
    // reads the area into a sheet
    Read,
    // writes the sheet back in memory, and compares kind, flags and area with what was taken
    Return,
    // sees that nothing stands at OUT
    Look,
    // creates the temporary file, which must be new
    Create,
    // writes the sheet into the temporary file, whole
    Write,
    // waits until the temporary file is on the disk
    Sync,
    // closes it
    Close,
    // opens it again
    Open,
    // compares what is there with the sheet
    Compare,
    // waits until the temporary file's name is on the disk
    SyncName,
    // sees again that nothing stands at OUT
    LookAgain,
    // gives the temporary file the name OUT
    Rename,
    // waits until the folder, with the name OUT, is on the disk
    SyncFolder,
    // after a failure: closes the temporary file
    Abandon,
    // after a failure: removes the temporary file
    Remove,
    // after a failure behind the rename: gives the sheet at OUT another name, under which it is kept
    Withdraw,
    // the end: the sheet stands at OUT, for good
    Filed,
    // the end: nothing was filed, and nothing is left
    Failed,
    // the end: nothing stands at OUT, and the sheet is kept under another name
    Kept,
}

// How a step went. This is no Result: a run is a list of steps and their answers (`specs/Runs.antt`), and why a step went badly is no part
// of it.
#[derive(Clone, Copy, PartialEq, Eq)]
pub enum Answer {
    Well,
    Badly,
}

// The step after one that went well. A line a step, here and below, as in the definition that the theorems speak of (`onward`, `back`,
// `left`).
fn next_well(step: Step) -> Step
    ensures { result ≡ onward step }
{
    match step {
        Step::Take => Step::Read,
        Step::Read => Step::Return,
        Step::Return => Step::Look,
        Step::Look => Step::Create,
        Step::Create => Step::Write,
        Step::Write => Step::Sync,
        Step::Sync => Step::Close,
        Step::Close => Step::Open,
        Step::Open => Step::Compare,
        Step::Compare => Step::SyncName,
        Step::SyncName => Step::LookAgain,
        Step::LookAgain => Step::Rename,
        Step::Rename => Step::SyncFolder,
        Step::SyncFolder => Step::Filed,
        Step::Abandon => Step::Remove,
        Step::Remove => Step::Failed,
        Step::Withdraw => Step::Kept,
        Step::Filed => Step::Filed,
        Step::Failed => Step::Failed,
        Step::Kept => Step::Kept,
    }
}

// The step after one that went badly.
fn next_badly(step: Step) -> Step
    ensures { result ≡ back step }
{
    match step {
        Step::Take => Step::Failed,
        Step::Read => Step::Failed,
        Step::Return => Step::Failed,
        Step::Look => Step::Failed,
        Step::Create => Step::Failed,
        Step::Write => Step::Abandon,
        Step::Sync => Step::Abandon,
        Step::Close => Step::Remove,
        Step::Open => Step::Remove,
        Step::Compare => Step::Remove,
        Step::SyncName => Step::Remove,
        Step::LookAgain => Step::Remove,
        Step::Rename => Step::Remove,
        Step::SyncFolder => Step::Withdraw,
        Step::Abandon => Step::Remove,
        Step::Remove => Step::Failed,
        Step::Withdraw => Step::Kept,
        Step::Filed => Step::Filed,
        Step::Failed => Step::Failed,
        Step::Kept => Step::Kept,
    }
}

// The step that follows a step and its answer. An end is followed by itself.
pub fn next(step: Step, answer: Answer) -> Step
    ensures { result ≡ next_of step answer }
{
    match answer {
        Answer::Well => next_well(step),
        Answer::Badly => next_badly(step),
    }
}

// At most so many steps are left; none at an end.
pub fn steps_left(step: Step) -> usize
    ensures { result ≡ left step }
{
    match step {
        Step::Take => 15,
        Step::Read => 14,
        Step::Return => 13,
        Step::Look => 12,
        Step::Create => 11,
        Step::Write => 10,
        Step::Sync => 9,
        Step::Close => 8,
        Step::Open => 7,
        Step::Compare => 6,
        Step::SyncName => 5,
        Step::LookAgain => 4,
        Step::Rename => 3,
        Step::SyncFolder => 2,
        Step::Abandon => 2,
        Step::Remove => 1,
        Step::Withdraw => 1,
        Step::Filed => 0,
        Step::Failed => 0,
        Step::Kept => 0,
    }
}

// Whether kind, flags and area are what was taken: a kind octet, a flags octet and an area.
pub fn came_back(taken: &[u8], kind: u8, flags: u8, area: &[u8]) -> bool
    ensures { result ≡ same taken.now (kind ∷ flags ∷ area.now) }
{
    match taken {
        [first, second, rest @ ..] => *first == kind && *second == flags && rest == area,
        _ => false,
    }
}

// What is wrong with a line of a list.
#[derive(Clone, Copy, PartialEq, Eq)]
pub enum BadLine {
    NoTab,
    TwoTabs,
}

// The octets before the first `x`, if there is one.
fn before(s: &[u8], x: u8) -> Option<usize>
    ensures { result ≡ position (λ y. y == x) s.now }
{
    s.iter().position(|y| *y == x)
}

// Whether there is an octet `x`.
fn has(s: &[u8], x: u8) -> bool
    ensures { result ≡ ltb (up_to x s.now) (length s.now) }
{
    s.contains(&x)
}

// The place of a line's tab, where one tab stands between two names, IN and OUT; or what is wrong with the line.
pub fn split(line: &[u8]) -> Result<usize, BadLine>
    ensures says { result ≡ line_of line.now }
    ensures within { IfOk result (λ tab. tab < length line.now) }
{
    let Some(tab) = before(line, b'\t') else {
        return Err(BadLine::NoTab);
    };
    if has(&line[tab + 1..], b'\t') {
        return Err(BadLine::TwoTabs);
    }
    Ok(tab)
}

// Whether the last octet of a name is a carriage return.
#[tactic(auto, unfolding(crate::specs::Names::ends_in_return))]
pub fn ends_in_return(name: &[u8]) -> bool
    ensures { result ≡ ends_in_return name.now }
{
    name.last() == Some(&b'\r')
}

// What is wrong with two names, IN and OUT.
#[derive(Clone, Copy, PartialEq, Eq)]
pub enum BadPair {
    NoName,
    ZeroOctet,
    TooLong,
    CarriageReturn,
}

// Whether two names fit by their ends. A carriage return there is taken for a part of the name only where names come exactly, and else for
// the end of a line.
#[tactic(auto, unfolding(crate::specs::Names::pair_by_ends))]
fn judge_ends(input: &[u8], out: &[u8], exact: bool) -> Result<(), BadPair>
    ensures { result ≡ pair_by_ends exact input.now out.now }
{
    if exact {
        return Ok(());
    }
    if ends_in_return(input) || ends_in_return(out) {
        return Err(BadPair::CarriageReturn);
    }
    Ok(())
}

// Whether two names fit. A name has no octet 0; IN has at most 4,095 octets, OUT 4,086, so that the temporary file's name is a path too.
#[tactic(auto, unfolding(crate::specs::Names::pair_of))]
pub fn judge_pair(input: &[u8], out: &[u8], exact: bool) -> Result<(), BadPair>
    ensures { result ≡ pair_of exact input.now out.now }
{
    if input.is_empty() || out.is_empty() {
        return Err(BadPair::NoName);
    }
    if has(input, 0) || has(out, 0) {
        return Err(BadPair::ZeroOctet);
    }
    if 4095 < input.len() || 4086 < out.len() {
        return Err(BadPair::TooLong);
    }
    judge_ends(input, out, exact)
}

// What came of a filing, or of all of them: all filed, some refused or short, trouble with some. What is worse is greater.
#[derive(Clone, Copy, PartialEq, Eq, PartialOrd, Ord)]
pub enum Outcome {
    Filed,
    Refused,
    Trouble,
}

// What came of all, of what came of two parts of them.
pub fn worse(one: Outcome, other: Outcome) -> Outcome
    ensures { result ≡ worse_of one other }
{
    one.max(other)
}

// The digit that tells what came of all: 0, 1 or 2, as text. By name, and not by the order of the cases, so that each case says its own.
pub fn digit(outcome: Outcome) -> u8
    ensures { result ≡ digit_of outcome }
{
    match outcome {
        Outcome::Filed => b'0',
        Outcome::Refused => b'1',
        Outcome::Trouble => b'2',
    }
}

// The octets of a path up to its last slash, the slash included; none if it has no slash.
pub fn folder_len(path: &[u8]) -> usize
    ensures { result ≡ folder_length path.now }
{
    let mut found: usize = 0;
    for (i, x) in path.iter().enumerate() {
        if *x == b'/' {
            found = i + 1;
        }
    }
    found
}

// Writes the temporary file's name over the start of `name` and tells its octets: OUT's folder, `.gir-`, OUT's last name, `.tmp`. Where
// there is no room, `name` stays as it was.
#[tactic(auto, using(crate::proofs::Names::folder_within))]
pub fn temporary(out: &[u8], name: &mut [u8]) -> Option<usize>
    ensures { Named out.now name.old result name.new }
{
    if name.len() < 9 || name.len() - 9 < out.len() {
        return None;
    }
    let (folder, last) = out.split_at(folder_len(out));
    octets::copy_at(name, 0, folder);
    octets::copy_at(name, folder.len(), b".gir-");
    octets::copy_at(name, folder.len() + 5, last);
    octets::copy_at(name, out.len() + 5, b".tmp");
    Some(out.len() + 9)
}
