// The desk: read, check and write, for callers in Rattle, which need this crate alone, and for callers in C and Rust, by the exports
// whose names begin with gir_. An entry takes whatever it is given, and refuses by number what it cannot take.
#![tactic(auto)]

ghost use Rattle.std.specs.Prelude.{◌≡◌};
ghost use Rattle.meaning.specs.Jobs.{comes};
ghost use Rattle.desk.specs.Answers.{Read, Checked, Wrote, done_of, refused_of, ReadOut, CheckedOut, WroteOut};

// The longest area that is read, checked or written.
pub const LONGEST_AREA: usize = 4076;

// The longest sheet that reading makes: nine octets, and two for each of the area's.
pub const LONGEST_SHEET: usize = 8161;

// No list is longer: at most three entries for each of 2,038 attributes, and twelve at the end.
pub const LONGEST_LIST: usize = 6126;

// A refusal of the book, by its number and its second number; and what is said of a sheet that is written: the octets of its area, its
// kind and its flags.
pub use area::Refusal;
pub use writing::Written;

// An answer for callers in C and Rust, a struct of numbers as C has them: `refused` is 0 where the job was done, with the octets or
// entries written as `length`, and 1 where it was refused, with the book's number and second number; `kind` and `flags` are a written
// sheet's. The rest is 0.
#[repr(C)]
#[derive(Clone, Copy)]
pub struct Answer {
    pub refused: u32,
    pub number: u32,
    pub second: u64,
    pub length: u64,
    pub kind: u32,
    pub flags: u32,
}

impl From<Refusal> for Answer {
    ghost from_gives = { λ r a. a ≡ refused_of r };

    fn from(refusal: Refusal) -> Answer {
        Answer {
            refused: 1,
            number: refusal.number,
            second: refusal.second as u64,
            length: 0,
            kind: 0,
            flags: 0,
        }
    }
}

// The answer of a job that was done: so many octets or entries, and the kind and flags of a written sheet.
fn done(length: usize, kind: u8, flags: u8) -> Answer
    ensures { result ≡ done_of length kind flags }
{
    Answer {
        refused: 0,
        number: 0,
        second: 0,
        length: length as u64,
        kind: kind as u32,
        flags: flags as u32,
    }
}

// Read: how many octets the sheet of an area has, which stands at the buffer's start; a refusal leaves the buffer as it was.
pub fn read(area: &[u8], kind: u32, flags: u32, sheet: &mut [u8]) -> Result<usize, Refusal>
    ensures { Read kind flags area.now sheet.old result sheet.new }
{
    reading::read(area, kind, flags, sheet)
}

// Check: how many entries the list of an area's breaches has, which stands at the buffer's start; a refusal leaves the buffer as it was.
pub fn check(area: &[u8], kind: u32, flags: u32, list: &mut [u32]) -> Result<usize, Refusal>
    ensures { Checked (comes kind flags) area.now list.old result list.new }
{
    checking::check(area, kind, flags, list)
}

// Write: what a sheet was read from, the area at the buffer's start; a refusal leaves the buffer as it was.
pub fn write(sheet: &[u8], area: &mut [u8]) -> Result<Written, Refusal>
    ensures { Wrote sheet.now area.old result area.new }
{
    writing::write(sheet, area)
}

// `read`, for callers in C and Rust.
pub fn gir_read(area: &[u8], kind: u32, flags: u32, sheet: &mut [u8]) -> Answer
    ensures { ReadOut kind flags area.now sheet.old result sheet.new }
{
    match read(area, kind, flags, sheet) {
        Ok(length) => done(length, 0, 0),
        Err(refusal) => Answer::from(refusal),
    }
}

// `check`, for callers in C and Rust.
pub fn gir_check(area: &[u8], kind: u32, flags: u32, list: &mut [u32]) -> Answer
    ensures { CheckedOut (comes kind flags) area.now list.old result list.new }
{
    match check(area, kind, flags, list) {
        Ok(length) => done(length, 0, 0),
        Err(refusal) => Answer::from(refusal),
    }
}

// `write`, for callers in C and Rust.
pub fn gir_write(sheet: &[u8], area: &mut [u8]) -> Answer
    ensures { WroteOut sheet.now area.old result area.new }
{
    match write(sheet, area) {
        Ok(written) => done(written.length, written.kind, written.flags),
        Err(refusal) => Answer::from(refusal),
    }
}
