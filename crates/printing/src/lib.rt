// What the programs print, as a function of what they were given: the answers of the three programs as octets, and the line of a batch's
// record. Nothing here reads or prints. Each public function takes any arguments; what does not fit is not laid, and said to be 0 octets.
// Of an input that is longer than decides the answer a start may be given, with the octets of `all`.
#![tactic(auto)]

ghost use Rattle.std.specs.Prelude.{◌≡◌, ◌+◌, ◌*◌, ◌≤◌, min, length, take};
ghost use Rattle.meaning.specs.Jobs.{comes};
ghost use Rattle.octets.specs.Parts.{part_of, laid_at};
ghost use Rattle.lines.specs.Lines.{StartLaid, text_of};
ghost use Rattle.printing.specs.Printed.{refusal_told, hex_line, list_line, kind_flags, area_line, open_line, start_shown};
ghost use Rattle.printing.specs.Printed.{read_shown, check_shown, write_shown, read_printed, check_printed, write_printed};
ghost use Rattle.printing.specs.Printed.{is_job, area_octets};
ghost use Rattle.printing.specs.Jobs.{job_of};
ghost use Rattle.writing.specs.Starts.{start_refusal};
ghost use Rattle.printing.specs.Lent.{ReadWithin, CheckedWithin, WroteWithin, sheet_after, list_after, area_after, Answered};

use desk::{Refusal, Written};
use lines::Text;

// The job of a record.
#[derive(Clone, Copy, PartialEq, Eq)]
pub enum Job {
    Read,
    Check,
    Write,
}

// An octet with which no record begins.
#[derive(Clone, Copy, PartialEq, Eq)]
pub struct NoJob;

// The job of a record that begins with an octet.
impl TryFrom<u8> for Job {
    type Error = NoJob;

    ghost try_from_gives = { λ octet r. r ≡ job_of octet };

    fn try_from(octet: u8) -> Result<Job, NoJob> {
        match octet {
            b'R' => Ok(Job::Read),
            b'C' => Ok(Job::Check),
            b'W' => Ok(Job::Write),
            _ => Err(NoJob),
        }
    }
}

// The octets of an area's input that decide every answer: kind, flags, and one octet more than the longest area.
pub const DECISIVE: usize = 3 + desk::LONGEST_AREA;

// The longest line of a record: nine octets for each entry of the longest list.
pub const LONGEST_LINE: usize = 9 * desk::LONGEST_LIST;

// ---- Pieces

// Lays octets over the start of `out` and tells how many they are; 0 where they do not fit. No Option here and below: the programs print so
// many octets of `out`, and none where nothing was laid (`StartLaid`).
fn put(s: &[u8], out: &mut [u8]) -> usize
    ensures { StartLaid s.now out.old result out.new }
{
    if octets::copy_at(out, 0, s) {
        return s.len();
    }
    0
}

// The same of a text.
fn put_text(text: &Text, out: &mut [u8]) -> usize
    ensures { StartLaid (part_of text.now.octets 0 text.now.len) out.old result out.new }
{
    put(text.as_slice(), out)
}

// The line of a refusal of an input that has `all` octets.
fn put_refusal(refusal: Refusal, all: usize, out: &mut [u8]) -> usize
    ensures { StartLaid (refusal_told all refusal.number refusal.second) out.old result out.new }
{
    let second = lines::second_told(refusal.number, refusal.second as u64, all as u64);
    put_text(&lines::refusal(refusal.number, second), out)
}

// Lays octets in hexadecimal from a place on, to the line's end.
fn lay_hex(s: &[u8], out: &mut [u8], at: usize)
    requires { at + (2 * length s.now + 1) ≤ length out.old }
    ensures { out.new ≡ laid_at at (hex_line s.now) out.old }
{
    let n = 2 * s.len();
    octets::unpack_at(out, at, s, n);
    octets::copy_at(out, at + n, b"\n");
}

// The line of a sheet.
fn put_hex(s: &[u8], out: &mut [u8]) -> usize
    ensures { StartLaid (hex_line s.now) out.old result out.new }
{
    let n = 2 * s.len() + 1;
    if out.len() < n {
        return 0;
    }
    lay_hex(s, out, 0);
    n
}

// The line of a list's first `count` entries.
fn put_list(list: &[u32], count: usize, out: &mut [u8]) -> usize
    ensures { StartLaid (list_line (take count list.now)) out.old result out.new }
{
    if count.min(list.len()) == 0 {
        return put(b"\n", out);
    }
    let n = lines::entries(list, count, b' ', out);
    if n == 0 {
        return 0;
    }
    octets::copy_at(out, n - 1, b"\n");
    n
}

// Kind and flags in decimal, with a space behind each.
fn kind_flags(kind: u8, flags: u8) -> Text
    ensures { result ≡ text_of (kind_flags kind flags) }
{
    Text::new()
        .with_decimal(kind as u64)
        .with(b" ")
        .with_decimal(flags as u64)
        .with(b" ")
}

// The line of an area, with the kind and flags that stand in its sheet.
fn put_area(kind: u8, flags: u8, area: &[u8], out: &mut [u8]) -> usize
    ensures { StartLaid (area_line (record { kind = kind; flags = flags; area = area.now })) out.old result
        out.new }
{
    if out.len() / 2 < area.len() {
        return 0;
    }
    let front = kind_flags(kind, flags);
    let at = front.as_slice().len();
    let n = at + (2 * area.len() + 1);
    if out.len() < n {
        return 0;
    }
    put_text(&front, out);
    lay_hex(area, out, at);
    n
}

// The line of a sheet that was not judged, since its kept octets do not decide.
fn open_line(kept: usize) -> Text
    ensures { result ≡ text_of (open_line kept) }
{
    Text::new()
        .with(b"over ")
        .with_decimal(kept as u64)
        .with(b" octets, not judged\n")
}

// ---- Jobs with so much room of a lent buffer. One for each, since each calls another job of the desk and promises what that one promises.

fn read_within(
    area: &[u8],
    kind: u32,
    flags: u32,
    room: usize,
    sheet: &mut [u8],
) -> Result<usize, Refusal>
    ensures { ReadWithin kind flags (min room (length sheet.old)) area.now sheet.old result
        sheet.new }
{
    let open = room.min(sheet.len());
    desk::read(area, kind, flags, &mut sheet[..open])
}

fn check_within(
    area: &[u8],
    kind: u32,
    flags: u32,
    room: usize,
    list: &mut [u32],
) -> Result<usize, Refusal>
    ensures { CheckedWithin (comes kind flags) (min room (length list.old)) area.now list.old result
        list.new }
{
    let open = room.min(list.len());
    desk::check(area, kind, flags, &mut list[..open])
}

fn write_within(sheet: &[u8], room: usize, area: &mut [u8]) -> Result<Written, Refusal>
    ensures { WroteWithin (min room (length area.old)) sheet.now area.old result area.new }
{
    let open = room.min(area.len());
    desk::write(sheet, &mut area[..open])
}

// ---- The lines of a batch. Here and under "The programs" each job has its own: the buffer, the promise and how what is made is laid
// differ, and one over them would be told all three.

// Job `R`.
fn read_line(given: &[u8], all: usize, room: usize, sheet: &mut [u8], out: &mut [u8]) -> usize
    ensures start_laid { StartLaid (read_shown hex_line given.now all (min room (length sheet.old))) out.old result
        out.new }
    ensures sheet_after { sheet.new ≡ sheet_after given.now (min room (length sheet.old)) sheet.old }
{
    let [kind, flags, area @ ..] = given else {
        return put(b"short\n", out);
    };
    match read_within(area, u32::from(*kind), u32::from(*flags), room, sheet) {
        Ok(n) => put_hex(octets::part(sheet, 0, n), out),
        Err(refusal) => put_refusal(refusal, all, out),
    }
}

// Job `C`.
fn check_line(given: &[u8], all: usize, room: usize, list: &mut [u32], out: &mut [u8]) -> usize
    ensures start_laid { StartLaid (check_shown list_line given.now all (min room (length list.old))) out.old result
        out.new }
    ensures list_after { list.new ≡ list_after given.now (min room (length list.old)) list.old }
{
    let [kind, flags, area @ ..] = given else {
        return put(b"short\n", out);
    };
    match check_within(area, u32::from(*kind), u32::from(*flags), room, list) {
        Ok(n) => put_list(list, n, out),
        Err(refusal) => put_refusal(refusal, all, out),
    }
}

// What is printed of a longer sheet: the line of the refusal that its kept octets decide, or what is said where they decide none.
fn put_start(kept: &[u8], pending: &Text, out: &mut [u8]) -> usize
    ensures { StartLaid (start_shown (part_of pending.now.octets 0 pending.now.len) (start_refusal kept.now))
        out.old result out.new }
{
    match writing::judge_start(kept) {
        None => put_text(pending, out),
        Some(refusal) => put_text(&lines::refusal(refusal.number, refusal.second as u64), out),
    }
}

// Job `W`.
fn write_line(sheet: &[u8], all: usize, room: usize, area: &mut [u8], out: &mut [u8]) -> usize
    ensures start_laid { StartLaid (write_shown area_line (open_line (length sheet.now)) sheet.now all
        (min room (length area.old))) out.old result out.new }
    ensures area_after { area.new ≡ area_after sheet.now all (min room (length area.old)) area.old }
{
    if sheet.len() < all {
        return put_start(sheet, &open_line(sheet.len()), out);
    }
    match write_within(sheet, room, area) {
        Ok(written) => {
            let made = octets::part(area, 0, written.length);
            put_area(written.kind, written.flags, made, out)
        }
        Err(refusal) => put_refusal(refusal, all, out),
    }
}

// Whether there is such a job.
pub fn is_job(job: u8) -> bool
    ensures { result ≡ is_job job }
{
    Job::try_from(job).is_ok()
}

// The line of a record: its job, its payload or the start of it that is kept, the octets of the whole payload, and its room. `octets` and
// `entries` are lent for what the job makes; of a job that is not there nothing is printed.
pub fn record(
    job: u8,
    payload: &[u8],
    all: usize,
    room: usize,
    octets: &mut [u8],
    entries: &mut [u32],
    out: &mut [u8],
) -> usize
    ensures { Answered job payload.now all room octets.old entries.old out.old result
        out.new octets.new entries.new }
{
    match Job::try_from(job) {
        Ok(Job::Read) => read_line(payload, all, room, octets, out),
        Ok(Job::Check) => check_line(payload, all, room, entries, out),
        Ok(Job::Write) => write_line(payload, all, room, octets, out),
        Err(NoJob) => 0,
    }
}

// ---- The programs

// What the read program prints, of kind octet, flags octet and area.
pub fn read(given: &[u8], all: usize, out: &mut [u8]) -> usize
    ensures { StartLaid (read_printed given.now all (length out.old)) out.old result out.new }
{
    let [kind, flags, area @ ..] = given else {
        return put(b"short\n", out);
    };
    match desk::read(area, u32::from(*kind), u32::from(*flags), out) {
        Ok(n) => n,
        Err(refusal) => put_refusal(refusal, all, out),
    }
}

// What the check program prints, of kind octet, flags octet and area.
pub fn check(given: &[u8], all: usize, out: &mut [u8]) -> usize
    ensures { StartLaid (check_printed given.now all 6126) out.old result out.new }
{
    let [kind, flags, area @ ..] = given else {
        return put(b"short\n", out);
    };
    let mut list = [0u32; desk::LONGEST_LIST];
    match desk::check(area, u32::from(*kind), u32::from(*flags), &mut list) {
        Ok(n) => lines::entries(&list, n, b'\n', out),
        Err(refusal) => put_refusal(refusal, all, out),
    }
}

// Lays kind octet, flags octet and area over the start of `out`.
fn put_octets(kind: u8, flags: u8, area: &[u8], out: &mut [u8]) -> usize
    ensures { StartLaid (area_octets (record { kind = kind; flags = flags; area = area.now })) out.old result
        out.new }
{
    if out.len() < 2 {
        return 0;
    }
    if out.len() - 2 < area.len() {
        return 0;
    }
    octets::copy_at(out, 0, &[kind, flags]);
    octets::copy_at(out, 2, area);
    2 + area.len()
}

// What the write program prints, of a sheet; nothing where it was not kept whole and hangs on the rest.
pub fn write(sheet: &[u8], all: usize, out: &mut [u8]) -> usize
    ensures { StartLaid (write_printed sheet.now all 4076) out.old result out.new }
{
    if sheet.len() < all {
        return put_start(sheet, &Text::new(), out);
    }
    let mut area = [0u8; desk::LONGEST_AREA];
    match desk::write(sheet, &mut area) {
        Ok(written) => {
            let made = octets::part(&area, 0, written.length);
            put_octets(written.kind, written.flags, made, out)
        }
        Err(refusal) => put_refusal(refusal, all, out),
    }
}
