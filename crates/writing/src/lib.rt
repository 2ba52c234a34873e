// Writing: a sheet gives back the area that has it, with kind and flags. One pass over the sheet tests each item and lays its attribute
// in a buffer of its own; the area is copied from there when every refusal is ruled out.
#![tactic(auto)]

ghost use Rattle.std.specs.Prelude.{◌≡◌, cond, ◌&&◌, ◌+◌, ◌*◌, ◌%◌, ◌≤◌, ◌<◌, eqb, length, take, Ok};
ghost use Rattle.meaning.specs.Versions.{current};
ghost use Rattle.meaning.specs.Octets.{digit_text, text, unpack, packed_length};
ghost use Rattle.meaning.specs.Shapes.{shape_of};
ghost use Rattle.meaning.specs.Sheet.{marked, stored_length, judged};
ghost use Rattle.octets.specs.Parts.{laid_at};
ghost use Rattle.meaning.specs.Framing.{head_length};
ghost use Rattle.shape.specs.Codes.{code_of, shape_by};
ghost use Rattle.item.specs.Stands.{raw, shaped, stands_as};
ghost use Rattle.writing.specs.Attributes.{span, profile_text, value_as, attribute_front, lengths_at, Digited, Laying, Attributed};
ghost use Rattle.meaning.specs.Refusals as book;
ghost use Rattle.writing.specs.Starts.{filled, start_by, start_refusal};
ghost use Rattle.writing.specs.Answers.{start_said, front_of, refused_as, Transcribed, Made, judgement_of, HandedOver, Wrote};

use area::Refusal;
use item::Head;

// 24: the longest area that is written.
const LONGEST: usize = 4076;

// Room for one attribute wherever it begins: a head of 8 octets and a value of at most 255, as an item's count can announce.
const SPAN: usize = 263;

// Room for the longest area, and for one attribute more behind it.
const ROOM: usize = 4339;

// Most areas are short, and a short buffer takes less time to clear: sheets up to so many octets have one first, with the same room
// behind areas up to so many.
const SHORT_SHEET: usize = 512;

const SHORT_AREA: usize = 377;

const SHORT_ROOM: usize = 640;

// What is said of a sheet that is written: the octets of its area, with the kind and flags, the octets that stand in the sheet and that C
// is handed.
#[derive(Clone, Copy)]
pub struct Written {
    pub length: usize,
    pub kind: u8,
    pub flags: u8,
}

// Buffer and place go together through the writers here, as through those of `octets` and `reading`: what is promised is what stands at the
// place, and that all before it is kept (`Begun`). Lent from the place on, the buffer would be taken apart at each writer, and what it
// promises carried back.

// Lays what stands before an attribute's value but for its lengths: the type, or type 26, the vendor id and the sub-attribute number.
fn put_front(buf: &mut [u8], at: usize, number: u16)
    requires { (number < 512) × (at + head_length number ≤ length buf.old) }
    ensures { buf.new ≡ laid_at at (attribute_front number) buf.old }
{
    if number < 256 {
        buf[at] = number as u8;
        return;
    }
    let id = octets::u32_octets(area::VENDOR_3GPP);
    let front = [26, 0, id[0], id[1], id[2], id[3], (number - 256) as u8, 0];
    buf[at..at + 8].copy_from_slice(&front);
}

// Lays the lengths in the head of an attribute whose value has so many octets: that of the sub-attribute, and that of the whole. A plain
// attribute has one, in the one place.
fn put_lengths(buf: &mut [u8], at: usize, head: usize, put: usize)
    requires { (2 ≤ head) × ((head + put < 256) × (at + head ≤ length buf.old)) }
    ensures { buf.new ≡ lengths_at at head put buf.old }
{
    buf[at + head - 1] = (put + 2) as u8;
    buf[at + 1] = (put + head) as u8;
}

// Lays the text of a QoS profile: the release's two digits, a dash, then the hexadecimal digits.
fn put_profile(buf: &mut [u8], at: usize, stored: &[u8])
    requires { (1 ≤ length stored.now) × (at + (1 + 2 * length stored.now) ≤ length buf.old) }
    ensures { buf.new ≡ laid_at at (profile_text stored.now) buf.old }
{
    let release = stored[0];
    let front = [
        octets::digit_text(release / 10),
        octets::digit_text(release % 10),
        b'-',
    ];
    octets::copy_at(buf, at, &front);
    octets::unpack_at(buf, at + 3, &stored[1..], 2 * (stored.len() - 1));
}

// The one octet of a value in form 7: any octet as it stands, or the digit's text. Here and below `code` is that of the shape of the
// item's number.
fn octet_text(code: u8, x: u8) -> u8
    ensures { result ≡ cond (eqb code 71) x (digit_text (x % 16)) }
{
    if code == shape::ANY_OCTET {
        x
    } else {
        octets::digit_text(x)
    }
}

// Lays decimal digits that stand two to an octet, as text, and says true; false where some half is no digit, or an odd last low half
// is not 15.
fn put_digits(buf: &mut [u8], at: usize, count: usize, stored: &[u8]) -> bool
    requires { (length stored.now ≡ packed_length count) × (at + count ≤ length buf.old) }
    ensures { Digited at count stored.now buf.old result buf.new }
{
    let pairs = count / 2;
    for i in 0..pairs {
        let x = stored[i];
        if !((x / 16 <= 9) & (x % 16 <= 9)) {
            return false;
        }
        buf[at + 2 * i] = x / 16 + 48;
        buf[at + 2 * i + 1] = x % 16 + 48;
    }
    if 2 * pairs < count {
        let x = stored[pairs];
        if !((x / 16 <= 9) & (x % 16 == 15)) {
            return false;
        }
        buf[at + 2 * pairs] = x / 16 + 48;
    }
    true
}

// Lays four octets of a number or an address, where the item's number is of that form; `None` where it is not.
fn put_fours(buf: &mut [u8], at: usize, own: bool, stored: &[u8]) -> Option<usize>
    requires { at + 4 ≤ length buf.old }
    ensures { Laying at (own && eqb (length stored.now) 4) stored.now buf.old result
        buf.new }
{
    if !own {
        return None;
    }
    if stored.len() != 4 {
        return None;
    }
    let four = [stored[0], stored[1], stored[2], stored[3]];
    buf[at..at + 4].copy_from_slice(&four);
    Some(4)
}

// Lays the digits of an item in form 4 and gives their count; `None` where no readable attribute gives the item.
fn put_packed(buf: &mut [u8], at: usize, code: u8, count: u8, stored: &[u8]) -> Option<usize>
    requires { (length stored.now ≡ packed_length count) × (at + 255 ≤ length buf.old) }
    ensures { Laying at (shaped (shape_by code) 4 count stored.now) (text (unpack count stored.now))
        buf.old result buf.new }
{
    let n = usize::from(count);
    if !item::takes_digits(code, count) {
        return None;
    }
    if !put_digits(buf, at, n, stored) {
        return None;
    }
    Some(n)
}

// Lays the text of an item in form 6 and gives its octets; `None` where no readable attribute gives the item.
fn put_qos(buf: &mut [u8], at: usize, code: u8, stored: &[u8]) -> Option<usize>
    requires { at + 255 ≤ length buf.old }
    ensures { Laying at (shaped (shape_by code) 6 (length stored.now) stored.now)
        (profile_text stored.now) buf.old result buf.new }
{
    if code != shape::QOS {
        return None;
    }
    if !item::holds_qos(stored) {
        return None;
    }
    put_profile(buf, at, stored);
    Some(1 + 2 * stored.len())
}

// Lays a value that stands as it is, the first `size` octets of `rest`, and gives its octets; `None` where no readable attribute gives
// the item. A short one goes with what stands behind it, sixteen octets at once: so `size` stands beside `rest` and does not cut it.
fn put_raw(
    buf: &mut [u8],
    at: usize,
    code: u8,
    head: Head,
    rest: &[u8],
    size: usize,
) -> Option<usize>
    requires { (size ≤ length rest.now) × (at + 255 ≤ length buf.old) }
    ensures { Laying at (raw head.number code head.form (take size rest.now)) (take size rest.now) buf.old result
        buf.new }
{
    if !item::is_raw(head.number, code, head.form, &rest[..size]) {
        return None;
    }
    if size <= 16 {
        octets::copy_sixteen(buf, at, rest);
    } else {
        octets::copy_long(buf, at, &rest[..size]);
    }
    Some(size)
}

// Lays the value that an item stands for, by the first `size` octets of `rest`, and gives its octets; `None` where no readable attribute
// gives the item.
fn put_value(
    buf: &mut [u8],
    at: usize,
    code: u8,
    head: Head,
    rest: &[u8],
    size: usize,
) -> Option<usize>
    requires { (code ≡ code_of (shape_of head.number)) ×
        ((size ≡ stored_length current head.form head.count) × ((size ≤ length rest.now) × (at + 255 ≤ length buf.old))) }
    ensures { Laying at (stands_as head.number head.form head.count (take size rest.now))
        (value_as head.number head.form head.count (take size rest.now)) buf.old result buf.new }
{
    let stored = &rest[..size];
    match head.form {
        2 => put_fours(buf, at, code == shape::NUMBER, stored),
        3 => put_fours(buf, at, code == shape::ADDRESS, stored),
        4 => put_packed(buf, at, code, head.count, stored),
        5 => {
            if (code != shape::HEXADECIMAL) | (size != 8) {
                return None;
            }
            octets::unpack_at(buf, at, stored, 16);
            Some(16)
        }
        6 => put_qos(buf, at, code, stored),
        7 => {
            if !item::is_octet(code, stored) {
                return None;
            }
            buf[at] = octet_text(code, stored[0]);
            Some(1)
        }
        _ => put_raw(buf, at, code, head, rest, size),
    }
}

// Lays the attribute that an item gives and says how many octets it has; `None` where no readable attribute gives the item.
fn put_attribute(buf: &mut [u8], at: usize, head: Head, rest: &[u8], size: usize) -> Option<usize>
    requires { (head.number < 512) × ((size ≡ stored_length current head.form head.count)
        × ((size ≤ length rest.now) × (at + span ≤ length buf.old))) }
    ensures { Attributed at head.number head.form head.count (take size rest.now) buf.old result buf.new }
{
    let code = shape::code_of(head.number);
    let before = area::head_len(head.number);
    put_front(buf, at, head.number);
    let put = put_value(buf, at + before, code, head, rest, size)?;
    put_lengths(buf, at, before, put);
    Some(before + put)
}

// Whether octets begin with the mark and the version of a sheet and have its nine octets.
fn is_marked(sheet: &[u8]) -> bool
    ensures { result ≡ marked sheet.now }
{
    if sheet.len() < 9 {
        return false;
    }
    octets::equal(&sheet[..5], &[b'G', b'I', b'R', 0, 1])
}

// 22 or 23, at a place of a sheet.
fn broken(number: u32, place: usize) -> Refusal
    ensures { result ≡ refused_as number place }
{
    Refusal {
        number,
        second: place,
    }
}

// Tests and lays the items of a sheet from the left, tests what remains behind them and says how many octets their attributes have. An
// item that begins behind the last place where any has room is laid at that place again and again, and counted.
fn transcribe(sheet: &[u8], buf: &mut [u8]) -> Result<usize, Refusal>
    requires { (9 ≤ length sheet.now) × (span ≤ length buf.old) }
    ensures { Transcribed sheet.now result buf.new }
{
    let last = buf.len() - SPAN;
    let count = octets::u16_at(sheet, 7);
    let mut place: usize = 9;
    let mut written: usize = 0;
    for _item in 0..count {
        let head = item::head_at(sheet, place)?;
        let at = written.min(last);
        let behind = place + 4;
        let rest = &sheet[behind..];
        let size = head.next - behind;
        let Some(put) = put_attribute(buf, at, head, rest, size) else {
            return Err(broken(23, place));
        };
        written += put;
        place = head.next;
    }
    if place < sheet.len() {
        return Err(broken(22, place));
    }
    Ok(written)
}

// 20 and 21: whether it is the items' turn.
fn front_of(sheet: &[u8]) -> Result<(), Refusal>
    ensures { result ≡ front_of sheet.now }
{
    if !is_marked(sheet) {
        return Err(Refusal {
            number: 20,
            second: 0,
        });
    }
    if !(area::is_kind(u32::from(sheet[5])) & area::are_flags(u32::from(sheet[6]))) {
        return Err(Refusal {
            number: 21,
            second: 0,
        });
    }
    Ok(())
}

// What a sheet whose front is in order is judged: 22 or 23, 24, or that it is written. Its area is laid at the buffer's start, where that
// has room behind it.
fn make(sheet: &[u8], buf: &mut [u8]) -> Result<Written, Refusal>
    requires { (front_of sheet.now ≡ Ok tt) × (span ≤ length buf.old) }
    ensures { Made sheet.now result buf.new }
{
    let length = transcribe(sheet, buf)?;
    if LONGEST < length {
        return Err(Refusal {
            number: 24,
            second: length,
        });
    }
    Ok(Written {
        length,
        kind: sheet[5],
        flags: sheet[6],
    })
}

// What is said of a sheet that is written, given room, or the first of refusals 20 to 24.
pub fn judge(sheet: &[u8]) -> Result<Written, Refusal>
    ensures { result ≡ judgement_of sheet.now }
{
    front_of(sheet)?;
    let mut buf = [0u8; SPAN];
    make(sheet, &mut buf)
}

// Whether the items of a sheet fill it exactly.
fn is_filled(sheet: &[u8]) -> bool
    ensures { result ≡ filled (judged sheet.now) }
{
    match judge(sheet) {
        Ok(_) => true,
        Err(refusal) => refusal.number == 24,
    }
}

// What kept octets decide that are refused by themselves.
fn start_by(kept: &[u8], refusal: Refusal) -> Option<Refusal>
    ensures { result ≡ start_said (start_by kept.now (book.refusal refusal.number refusal.second)) }
{
    if refusal.number == 24 {
        return Some(broken(22, kept.len()));
    }
    if refusal.number == 22 {
        if is_filled(octets::part(kept, 0, refusal.second)) {
            return Some(broken(22, refusal.second));
        }
        return None;
    }
    if kept.len() < 9 {
        return None;
    }
    Some(refusal)
}

// What the first octets of a longer sheet decide of it: a refusal, or `None` where it hangs on the rest.
pub fn judge_start(kept: &[u8]) -> Option<Refusal>
    ensures { result ≡ start_said (start_refusal kept.now) }
{
    match judge(kept) {
        Ok(_) => Some(broken(22, kept.len())),
        Err(refusal) => start_by(kept, refusal),
    }
}

// What a sheet that is written is answered: its area, which a buffer begins with, laid over the start of the lent one; or refusal 25 where
// that has not the room for it.
fn hand_over(written: Written, made: &[u8], area: &mut [u8]) -> Result<Written, Refusal>
    requires { written.length ≤ length made.now }
    ensures { HandedOver written made.now area.old result area.new }
{
    let length = written.length;
    if area.len() < length {
        return Err(Refusal {
            number: 25,
            second: length,
        });
    }
    area[..length].copy_from_slice(&made[..length]);
    Ok(written)
}

// Write: what a sheet was read from, the area at the buffer's start; a refusal leaves the buffer as it was. An area that the
// short buffer has no room for is made again: so the two buffers have a way each, one of which may give up, and a function of the room, as
// reading has, would tell that to its caller by one more Option.
pub fn write(sheet: &[u8], area: &mut [u8]) -> Result<Written, Refusal>
    ensures { Wrote sheet.now area.old result area.new }
{
    front_of(sheet)?;
    if sheet.len() <= SHORT_SHEET {
        let mut buf = [0u8; SHORT_ROOM];
        let written = make(sheet, &mut buf)?;
        if written.length <= SHORT_AREA {
            return hand_over(written, &buf, area);
        }
    }
    let mut buf = [0u8; ROOM];
    let written = make(sheet, &mut buf)?;
    hand_over(written, &buf, area)
}
