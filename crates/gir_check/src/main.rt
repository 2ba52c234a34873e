// gir_check: an attribute area with its kind and flags, from standard input or from the file that the argument names: the kind and
// the flags in an octet each, and the area. Prints the list of breaches, a line of eight hexadecimal digits for each entry, nothing for
// an empty list, or one line: `refused N S` or `short`; what it prints is `printing::check` of the input. With `--status` as first
// argument the last act is to write a digit to descriptor 3.
#![tactic(auto)]

ghost use Rattle.std.specs.Prelude.{◌≡◌};
ghost use Rattle.gir_check.specs.Told.{told, status_of};

use answering::{Input, Job, Status};
use std::io::{Print, Result};

// Room for the lines of the longest list.
const LINES: usize = 9 * desk::LONGEST_LIST;

// The status of an answer: there is no breach where it has no octets. By their number: `printing::check` promises no more than the octets.
fn status_of(n: usize) -> Status
    ensures { result ≡ status_of n }
{
    if n == 0 {
        Status::Answered
    } else {
        Status::Faulty
    }
}

// The check program's own part.
struct Checking;

impl Job for Checking {
    ghost tells = { told };

    const NAME: &'static [u8] = b"gir_check: ";

    const USAGE: &'static [u8] = b"gir_check: one file at most\n";

    // Prints the answer.
    fn print(rt: HostRuntime, input: Input) -> Result<Status> {
        let mut out = streams::zeros::<LINES>();
        let n = printing::check(input.kept, input.all, &mut out);
        rt.write_all(octets::part(&out, 0, n))?;
        Ok(status_of(n))
    }
}

fn main(rt: HostRuntime) {
    let mut room = [0u8; printing::DECISIVE];
    answering::run::<Checking>(rt, &mut room);
}
