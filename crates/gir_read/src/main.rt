// gir_read: an attribute area with its kind and flags, from standard input or from the file that the argument names: the kind and
// the flags in an octet each, and the area. Prints the sheet, raw, or one line: `refused N S` or `short`; what it prints
// is `printing::read` of the input. With `--status` as first argument the last act is to write a digit to descriptor 3.
#![tactic(auto)]

ghost use Rattle.std.specs.Prelude.{◌≡◌, get_or};
ghost use Rattle.gir_read.specs.Told.{told, status_of};

use answering::{Input, Job, Status};
use std::io::{Print, Result};

// The status of an answer: a sheet begins with a capital letter, a line with a small one. By the octets, as all that `printing::read`
// promises is which they are.
fn status_of(first: u8) -> Status
    ensures { result ≡ status_of first }
{
    if first == b'G' {
        Status::Answered
    } else {
        Status::Faulty
    }
}

// The read program's own part.
struct Reading;

impl Job for Reading {
    ghost tells = { told };

    const NAME: &'static [u8] = b"gir_read: ";

    const USAGE: &'static [u8] = b"gir_read: one file at most\n";

    // Prints the answer.
    fn print(rt: HostRuntime, input: Input) -> Result<Status> {
        let mut out = [0u8; desk::LONGEST_SHEET];
        let n = printing::read(input.kept, input.all, &mut out);
        rt.write_all(octets::part(&out, 0, n))?;
        Ok(status_of(out[0]))
    }
}

fn main(rt: HostRuntime) {
    let mut room = [0u8; printing::DECISIVE];
    answering::run::<Reading>(rt, &mut room);
}
