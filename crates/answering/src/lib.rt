// Answering: what the programs share that answer one input: which input it is, how much of it is kept, how a failure is told, and the
// status. A program's own part is its `Job`, and how many octets it keeps.
#![tactic(auto)]

ghost use Rattle.std.specs.Prelude.{◌≡◌, ◌-◌, ◌^◌, ◌<◌, ◌≤◌, ◌⊎◌, min, ℕ, List, length, take, IfOk, IfSome};
ghost use Rattle.meaning.specs.Octets.{digit_text};
ghost use Rattle.answering.specs.Status.{number_of, IsTold};
ghost use Rattle.answering.specs.declared.Status.{Status};

use std::io::{Error, Read, Result};

// ---- The status

// How a run ends: each input has its answer, or it was at fault (refused, short, broken, or with breaches), or something could not be
// read or written. `filing::Outcome` is another: what came of filings, of which `filing` proves which is worse and how it is told.
#[derive(Clone, Copy, Debug, PartialEq, Eq)]
pub enum Status {
    Answered,
    Faulty,
    Trouble,
}

impl Status {
    // The digit by which it is told.
    pub fn digit(self) -> u8
        ensures { result ≡ digit_text (number_of self) }
    {
        octets::digit_text(match self {
            Status::Answered => 0,
            Status::Faulty => 1,
            Status::Trouble => 2,
        })
    }
}

// How many arguments stand before a program's own: its name, and `--status` if that is the first.
pub fn before(rt: HostRuntime) -> usize
    ensures { (result ≡ 1) ⊎ (result ≡ 2) }
{
    if streams::is_word(rt, 1, b"--status") {
        2
    } else {
        1
    }
}

// The last act: tells the status, if `--status` is the first argument. It takes the status and no closure that gives it: one may be called
// only where its caller says so, and no public function here asks anything of its caller.
pub fn told(rt: HostRuntime, status: Status) -> Status
    ensures { result ≡ status }
{
    if before(rt) == 2 {
        streams::tell(status.digit());
    }
    status
}

// ---- The input

// An input: what is kept of it, the octets of all of it, and its name in messages.
#[derive(Clone, Copy)]
pub struct Input<'a> {
    pub kept: &'a [u8],
    pub all: usize,
    pub name: &'a [u8],
    ghost within: { length kept.now ≤ all },
}

// What is a program's own: how its messages begin, what it says where more than one file is named, and what it prints of an input. The
// error is that of standard output. `tells` is what the status says of what is kept and of all octets.
pub trait Job {
    ghost tells: { List ℕ → ℕ → Status → Type 0 };

    const NAME: &'static [u8];

    const USAGE: &'static [u8];

    fn print(rt: HostRuntime, input: Input) -> Result<Status>
        ensures { IfOk result (tells input.entry.kept.now input.entry.all) };
}

// Keeps the start of an input, as much as there is room for, and tells the octets kept and the octets of all.
fn taken<R: Read>(from: &mut R, buf: &mut [u8]) -> Result<(usize, usize)>
    ensures room { IfOk result (λ t. t.0 ≤ length buf.new) }
    ensures within { IfOk result (λ t. t.0 ≤ t.1) }
    ensures start { IfOk result (λ t. IfSome (R.remaining from.old) (λ xs. take t.0 buf.new ≡ take (length buf.new) xs)) }
    ensures all { IfOk result (λ t. IfSome (R.remaining from.old) (λ xs. t.1 ≡ min (length xs) (2 ^ 64 - 1))) }
{
    let kept = streams::fill(from, buf)?;
    let all = streams::count(from, kept as u64)?;
    Ok((kept, all as usize))
}

// Says on standard error what could not be opened, read or written.
fn fail<J: Job>(rt: HostRuntime, name: &[u8], error: Error) -> Status
    ensures { result ≡ Status.Trouble }
{
    streams::say(rt, J::NAME);
    streams::fail(rt, name, error);
    Status::Trouble
}

// Answers an input by what is kept of it.
fn answer<J: Job, R: Read>(rt: HostRuntime, from: &mut R, name: &[u8], room: &mut [u8]) -> Status
    ensures { IsTold J.tells (length room.old) result }
{
    let (kept, all) = match taken(from, room) {
        Ok(taken) => taken,
        Err(error) => return fail::<J>(rt, name, error),
    };
    let input = Input {
        kept: &room[..kept],
        all,
        name,
    };
    match J::print(rt, input) {
        Ok(status) => status,
        Err(error) => fail::<J>(rt, b"standard output", error),
    }
}

// Answers the file that the argument at a place names.
fn answer_file<J: Job>(rt: HostRuntime, i: usize, room: &mut [u8]) -> Status
    ensures { IsTold J.tells (length room.old) result }
{
    let mut text = [0u8; 4096];
    let n = match streams::argument(rt, i, &mut text) {
        Ok(n) => n,
        Err(error) => return fail::<J>(rt, &text, error),
    };
    let name = &text[..n];
    match streams::open(rt, name) {
        Ok(mut file) => answer::<J, _>(rt, &mut file, name, room),
        Err(error) => fail::<J>(rt, name, error),
    }
}

// Answers the file that the argument behind the first so many names, or standard input where there is none.
fn answer_arguments<J: Job>(rt: HostRuntime, passed: usize, room: &mut [u8]) -> Status
    ensures { IsTold J.tells (length room.old) result }
{
    match streams::argument_count(rt).saturating_sub(passed) {
        0 => answer::<J, _>(rt, &mut rt.stdin(), b"standard input", room),
        1 => answer_file::<J>(rt, passed, room),
        _ => {
            streams::say(rt, J::USAGE);
            Status::Trouble
        }
    }
}

// Runs a program that keeps as much of its input as `room` holds.
pub fn run<J: Job>(rt: HostRuntime, room: &mut [u8]) -> Status
    ensures { IsTold J.tells (length room.old) result }
{
    told(rt, answer_arguments::<J>(rt, before(rt), room))
}
