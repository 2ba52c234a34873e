// gir_write: a sheet, from standard input or from the file that the argument names. Prints the kind octet, the flags octet and the
// area, raw, or one line: `refused N S`; what it prints is `printing::write` of the sheet. Of a sheet of more than 1,048,576 octets the
// first are kept; where these do not decide the answer, standard output stays empty, and a line on standard error says so. With
// `--status` as first argument the last act is to write a digit to descriptor 3.
#![tactic(auto)]

ghost use Rattle.std.specs.Prelude.{◌≡◌};
ghost use Rattle.gir_write.specs.Told.{told, status_of};

use answering::{Input, Job, Status};
use std::io::{Print, Result};

// The octets of a sheet that are kept.
const KEPT: usize = 1048576;

// Room for kind octet, flags octet and area.
const ANSWER: usize = 2 + desk::LONGEST_AREA;

// The write program's own part.
struct Writing;

// The status of an answer of so many octets: where there are none the sheet is not judged; an area has its kind before it, 1 to 6, and a
// line begins with a letter. By the octets, as all that `printing::write` promises is which they are.
fn status_of(n: usize, first: u8) -> Status
    ensures { result ≡ status_of n first }
{
    if n == 0 {
        Status::Trouble
    } else if first <= 6 {
        Status::Answered
    } else {
        Status::Faulty
    }
}

// Says on standard error that a sheet is too long to be judged.
fn say_too_long(rt: HostRuntime, name: &[u8]) {
    streams::say(rt, b"gir_write: ");
    streams::say(rt, name);
    streams::say(rt, b": over 1048576 octets, not judged\n");
}

impl Job for Writing {
    ghost tells = { told };

    const NAME: &'static [u8] = b"gir_write: ";

    const USAGE: &'static [u8] = b"gir_write: one file at most\n";

    // Prints the answer.
    fn print(rt: HostRuntime, input: Input) -> Result<Status> {
        let mut out = [0u8; ANSWER];
        let n = printing::write(input.kept, input.all, &mut out);
        if n == 0 {
            say_too_long(rt, input.name);
        } else {
            rt.write_all(octets::part(&out, 0, n))?;
        }
        Ok(status_of(n, out[0]))
    }
}

fn main(rt: HostRuntime) {
    let mut room = streams::zeros::<KEPT>();
    answering::run::<Writing>(rt, &mut room);
}
