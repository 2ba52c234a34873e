// Streams: what the programs share of reading to an end, of the arguments, of paths and of messages. Each call stands over std, but for
// the status's digit, which goes to a descriptor by its number.
#![tactic(auto)]

ghost use Rattle.std.specs.Prelude.{◌≡◌, ◌+◌, ◌-◌, ◌^◌, ◌<◌, ◌≤◌, min, IfSome, length, take, replicate, IfOk, MatchResult, IsTrue};
ghost use Rattle.std.specs.Str.{IsUtf8};
ghost use Rattle.std.specs.Io.{ReadsAtMost};
ghost use Rattle.std.specs.Io.KnownBytes.{Consumes, ConsumesCount, IsAtEnd};

use std::env::FillError;
use std::fs::File;
use std::io::{Cursor, Error, ErrorKind, Print, Read, Result, Write};
use std::rt::Env;

// The descriptor that a status is written to.
const STATUS_FILENO: i32 = 3;

// The system's error where a name is longer than there is room: by its number, whose text is what is shown.
const TOO_LONG: i32 = 36;

// ---- Reading

// So many zeros: room for what is read, or laid.
pub fn zeros<const N: usize>() -> [u8; N]
    ensures { result ≡ replicate N 0 }
{
    [0; N]
}

// Room for much of an input: zeros.
pub fn large_buffer() -> [u8; 65536]
    ensures { result ≡ replicate 65536 0 }
{
    zeros()
}

// Reads until the buffer is full or the input ends, and tells the octets. The loop is written out, since of std's methods `read_exact`
// tells no octets of an input that is shorter than the buffer, and `read_to_end` wants a heap.
pub fn fill<R: Read>(from: &mut R, buf: &mut [u8]) -> Result<usize>
    ensures bound { ReadsAtMost result buf.new }
    ensures bytes { IfOk result (λ n. Consumes (R.remaining from.old) (R.remaining from.new) (take n buf.new)) }
    ensures end { IfOk result (λ n. n < length buf.new → IsAtEnd (R.remaining from.new)) }
{
    let mut at: usize = 0;
    while at < buf.len() {
        let n = from.read(&mut buf[at..])?;
        if n == 0 {
            return Ok(at);
        }
        at += n;
    }
    Ok(at)
}

// Reads past what is kept, and tells how much came; 0 is the end.
fn more<R: Read>(from: &mut R) -> Result<usize>
    ensures octets { ConsumesCount (R.remaining from.old) (R.remaining from.new) result }
    ensures end { IfOk result (λ n. n ≡ 0 → IsAtEnd (R.remaining from.new)) }
{
    let mut buf = [0u8; 4096];
    from.read(&mut buf)
}

// Counts the input to its end, with the octets had already; at most the largest 64-bit number. No `io::copy` into a sink: it reads again
// where a read was interrupted, and that is told here.
pub fn count<R: Read>(from: &mut R, had: u64) -> Result<u64>
    ensures least { IfOk result (λ n. had ≤ n) }
    ensures all { IfOk result (λ n. IfSome (R.remaining from.old) (λ xs. n ≡ min (had + length xs) (2 ^ 64 - 1))) }
{
    let mut total = had;
    for _ in 0..u64::MAX {
        let n = more(from)? as u64;
        if n == 0 {
            return Ok(total);
        }
        let Some(sum) = total.checked_add(n) else {
            return Ok(u64::MAX);
        };
        total = sum;
    }
    Ok(total)
}

// ---- Names

// A name as the text that std's paths are.
pub fn path(name: &[u8]) -> Result<&str>
    ensures { MatchResult result (λ text. (text.now ≡ name.now) × IsUtf8 name.now) (λ _. ¬ (IsUtf8 name.now)) }
{
    str::from_utf8(name).map_err(|_| Error::new(
        ErrorKind::InvalidInput,
        "a name that is not UTF-8",
    ))
}

// Opens a file for reading.
pub fn open(rt: HostRuntime, name: &[u8]) -> Result<File> {
    File::open(&rt, path(name)?)
}

// ---- The arguments

// Puts an argument at the start of a buffer and tells its octets.
pub fn argument(rt: HostRuntime, i: usize, buf: &mut [u8]) -> Result<usize>
    ensures { ReadsAtMost result buf.new }
{
    rt.arg(i, buf).map_err(|error| match error {
        FillError::TooLong => Error::from_raw_os_error(TOO_LONG),
        FillError::NotPresent => Error::from(ErrorKind::InvalidInput),
    })
}

// Whether there is an argument of this number.
fn has_argument(rt: HostRuntime, i: usize) -> bool {
    let mut octet = [0u8; 1];
    !matches!(rt.arg(i, &mut octet), Err(FillError::NotPresent))
}

// How many arguments there are, the program's own name among them; eight where there are more.
pub fn argument_count(rt: HostRuntime) -> usize
    ensures { result ≤ 8 }
{
    (0..8usize).find(|i| !has_argument(rt, *i)).unwrap_or(8)
}

// Whether an argument is this word, of at most sixteen octets.
pub fn is_word(rt: HostRuntime, i: usize, word: &[u8]) -> bool
    ensures { IsTrue result → length word.now ≤ 16 }
{
    let mut text = [0u8; 16];
    let Ok(n) = rt.arg(i, &mut text) else {
        return false;
    };
    octets::equal(octets::part(&text, 0, n), word)
}

// ---- Messages

// Writes octets to standard error. Where that fails there is nobody to be told.
pub fn say(rt: HostRuntime, s: &[u8]) {
    let _ = rt.stderr().write_all(s);
}

// The words of an error's text without its number, which stands behind them.
fn words(text: &str) -> &str {
    text.split_once(" (os error ")
        .map_or(text, |(front, _)| front)
}

// Says what could not be opened, read or written, and the system's reason.
pub fn fail(rt: HostRuntime, name: &[u8], error: Error) {
    let mut line = Cursor::new([0u8; 256]);
    let _ = write!(line, "{error}");
    let n = line.position() as usize;
    let text = line.into_inner();
    say(rt, name);
    say(rt, b": ");
    if let Ok(reason) = str::from_utf8(octets::part(&text, 0, n)) {
        say(rt, words(reason).as_bytes());
    }
    say(rt, b"\n");
}

// Tells a status: one digit, as the last act. It takes the octet, since each program has statuses of its own that become one.
pub fn tell(digit: u8) {
    io::write_all(STATUS_FILENO, &[digit]);
}
