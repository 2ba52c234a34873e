// Reading: an attribute area gives a sheet. One pass over the area tests the framing, counts the items and lays them into a
// buffer, from which they are copied.
#![tactic(auto)]

ghost use Rattle.std.specs.Prelude.{◌≡◌, cond, List, [], ◌∷◌, ◌++◌, ℕ, ◌+◌, ◌-◌, ◌*◌, ◌%◌, ◌≤◌, ◌<◌, eqb, length, take, drop, get_or, Ok};
ghost use Rattle.meaning.specs.Versions.{current};
ghost use Rattle.meaning.specs.Octets.{octets_of, pack, packed_length, digit_value};
ghost use Rattle.meaning.specs.Sheet.{sheet_head};
ghost use Rattle.octets.specs.Parts.{laid_at, Begun};
ghost use Rattle.octets.specs.Handing.{Handed};
ghost use Rattle.octets.specs.DigitStrings.{halves};
ghost use Rattle.shape.specs.Items.{stored_part, stored_in};
ghost use Rattle.reading.specs.Items.{longest_items, names_of, item_in, Within, LaidCounted, PassSays};
ghost use Rattle.area.specs.Answers.{arrival_of};
ghost use Rattle.reading.specs.Answers.{reading_of, Read};

use area::Refusal;
use shape::{Item, Value};

// "never longer than 9 + 2" times the area's length: room for the items of any area, of up to 4,076 octets, and for sixteen octets more.
const ROOM: usize = 8168;

// Most areas are short, and a short buffer takes less time to clear: areas up to so many octets have one, with the same room.
const SHORT_AREA: usize = 384;

const SHORT_ROOM: usize = 784;

// What a pass over an area has laid: how many items, and how many octets these are.
#[derive(Clone, Copy)]
struct Tally {
    count: usize,
    written: usize,
}

// The release octet of a QoS profile: its two digits as a number.
fn release_of(text: &[u8]) -> u8
    ensures { result ≡ (digit_value (get_or text.now 0 0) * 10 + digit_value (get_or text.now 1 0)) % 256 }
{
    let tens = usize::from(octets::digit_value(octets::octet_at(text, 0)));
    let ones = usize::from(octets::digit_value(octets::octet_at(text, 1)));
    ((tens * 10 + ones) % 256) as u8
}

// Lays a number: one octet in form 7, else four. The answer of this writer and of those below is how many octets they lay.
fn put_number(buf: &mut [u8], at: usize, form: u8, n: u32) -> usize
    requires { at + 4 ≤ length buf.old }
    ensures { LaidCounted at (cond (eqb form 7) ((n % 256) ∷ []) (octets_of 4 n)) buf.old result buf.new }
{
    if form == 7 {
        buf[at] = (n % 256) as u8;
        return 1;
    }
    let four = octets::u32_octets(n);
    buf[at..at + 4].copy_from_slice(&four);
    4
}

// Lays a QoS profile: the release octet, then its hexadecimal digits two to an octet.
fn put_qos(buf: &mut [u8], at: usize, text: &[u8]) -> usize
    requires { (3 ≤ length text.now) × (at + (1 + packed_length (length text.now - 3)) ≤ length buf.old) }
    ensures { LaidCounted at
        (((digit_value (get_or text.now 0 0) * 10 + digit_value (get_or text.now 1 0)) % 256) ∷ pack
        (halves (drop 3 text.now))) buf.old result buf.new }
{
    let release = [release_of(text)];
    octets::copy_at(buf, at, &release);
    octets::pack_at(buf, at + 1, octets::part(text, 3, text.len()));
    1 + octets::packed_len(text.len() - 3)
}

// Lays plain octets, the first `len` of `rest`: as they stand, in form 5 as packed text, in form 6 as a QoS profile. With sixteen octets
// of room behind them, which may change: a few go with what stands behind them.
fn put_part(buf: &mut [u8], at: usize, form: u8, rest: &[u8], len: usize) -> usize
    requires { (form ≡ 6 → 3 ≤ len) ×
        ((len ≤ length rest.now) × (at + length (stored_part form (take len rest.now)) + 16 ≤ length buf.old)) }
    ensures { LaidCounted at (stored_part form (take len rest.now)) buf.old result buf.new }
{
    if form == 5 {
        octets::pack_at(buf, at, &rest[..len]);
        return octets::packed_len(len);
    }
    if form == 6 {
        return put_qos(buf, at, &rest[..len]);
    }
    if len <= 16 {
        octets::copy_sixteen(buf, at, rest);
    } else {
        octets::copy_long(buf, at, &rest[..len]);
    }
    len
}

// Lays what an item stores, with sixteen octets of room behind it, which may change.
fn put_stored(buf: &mut [u8], at: usize, area: &[u8], item: Item) -> usize
    requires { Within area.now item × (at + length (stored_in area.now item) + 16 ≤ length buf.old) }
    ensures { LaidCounted at (stored_in area.now item) buf.old result buf.new }
{
    match item.value {
        Value::Number(n) => put_number(buf, at, item.form, n),
        Value::Address(n) => {
            let four = octets::u32_octets(n);
            buf[at..at + 4].copy_from_slice(&four);
            4
        }
        Value::Digits => {
            let digits = item.digits;
            let eight = octets::packed(digits);
            buf[at..at + 8].copy_from_slice(&eight);
            octets::packed_len(digits.len.min(15))
        }
        Value::Plain(part) => put_part(buf, at, item.form, &area[part.start..], part.len),
    }
}

// Lays "type, sub-attribute number" of a carried number.
fn put_names(buf: &mut [u8], at: usize, number: u16)
    requires { (number < 512) × (at + 2 ≤ length buf.old) }
    ensures { buf.new ≡ laid_at at (names_of number) buf.old }
{
    if number < 256 {
        buf[at] = number as u8;
        buf[at + 1] = 0;
        return;
    }
    buf[at] = 26;
    buf[at + 1] = (number - 256) as u8;
}

// Lays an item whose type and sub-attribute number stand there already, over what the buffer d held: what it stores, with the same room
// behind it, and its form and count before that.
fn put_item(buf: &mut [u8], at: usize, area: &[u8], item: Item) -> usize
    requires { (item.count < 256) × Within area.now item × (at + length (item_in area.now item) + 16 ≤ length buf.old) }
    ensures { (d : List ℕ) → Begun at (names_of item.number) d buf.old → LaidCounted at
        (item_in area.now item) d result buf.new }
{
    let size = put_stored(buf, at + 4, area, item);
    buf[at + 2] = item.form;
    buf[at + 3] = item.count as u8;
    4 + size
}

// Lays the items of an area at the buffer's start, one behind the other, and counts them; or gives the first refusal of the framing.
// "never longer than 9 + 2" times the area's length: the buffer has room for the items of any area so long, and for sixteen octets more.
fn put_items(area: &[u8], buf: &mut [u8]) -> Result<Tally, Refusal>
    requires { 2 * length area.now + 16 ≤ length buf.old }
    ensures { PassSays area.now result buf.new }
{
    let mut place: usize = 0;
    let mut count: usize = 0;
    let mut written: usize = 0;
    while let Some(attribute) = area::step_at(area, place)? {
        let number = attribute.number;
        let value = attribute.value;
        let start = value.start;
        let end = start + value.len;
        put_names(buf, written, number);
        let item = shape::item_of(&area[start..end], number, value);
        written += put_item(buf, written, area, item);
        place = attribute.next;
        count += 1;
    }
    Ok(Tally { count, written })
}

// "Nine octets": mark, version, kind, flags and the number of items.
fn sheet_head(kind: u32, flags: u32, count: usize) -> [u8; 9]
    requires { (kind < 256) × (flags < 256) × (count < 65536) }
    ensures { result ≡ sheet_head current kind flags count }
{
    let many = octets::u16_octets(count as u16);
    [
        b'G',
        b'I',
        b'R',
        0,
        1,
        kind as u8,
        flags as u8,
        many[0],
        many[1],
    ]
}

// Lays a sheet, its head and its items, at the buffer's start; or refusal 9 where it has not the room.
fn hand_over(
    kind: u32,
    flags: u32,
    count: usize,
    items: &[u8],
    sheet: &mut [u8],
) -> Result<usize, Refusal>
    requires { (kind < 256) × (flags < 256) × (count < 65536) × (length items.now ≤ longest_items) }
    ensures { Handed reading_of 9 (sheet_head current kind flags count ++ items.now)
        sheet.old result sheet.new }
{
    let needed = 9 + items.len();
    if sheet.len() < needed {
        return Err(Refusal {
            number: 9,
            second: needed,
        });
    }
    let head = sheet_head(kind, flags, count);
    octets::copy_at(sheet, 0, &head);
    sheet[9..needed].copy_from_slice(items);
    Ok(needed)
}

// What an area that comes with a fit kind, flags and length is answered: the first of refusals 4 to 8, or the sheet, whose items are
// laid in a buffer of so many octets and copied from there, so that nothing is written before every refusal is ruled out.
fn read_by<const N: usize>(
    area: &[u8],
    kind: u32,
    flags: u32,
    sheet: &mut [u8],
) -> Result<usize, Refusal>
    requires { (arrival_of kind flags (length area.now) ≡ Ok tt) × (2 * length area.now + 16 ≤ N) × (N ≤ 8168) }
    ensures { Read kind flags area.now sheet.old result sheet.new }
{
    let mut buf = [0u8; N];
    let tally = put_items(area, &mut buf)?;
    hand_over(kind, flags, tally.count, &buf[..tally.written], sheet)
}

// Read: the octets of the sheet of an area, which stands at the buffer's start; a refusal leaves the buffer as it was.
pub fn read(area: &[u8], kind: u32, flags: u32, sheet: &mut [u8]) -> Result<usize, Refusal>
    ensures { Read kind flags area.now sheet.old result sheet.new }
{
    area::arrive(area, kind, flags)?;
    if area.len() <= SHORT_AREA {
        return read_by::<SHORT_ROOM>(area, kind, flags, sheet);
    }
    read_by::<ROOM>(area, kind, flags, sheet)
}
