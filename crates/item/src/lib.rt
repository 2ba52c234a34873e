// Items of a sheet: what the head of an item says, and whether some readable attribute gives the item, one question a form. Each public
// function takes any arguments.
#![tactic(auto)]

ghost use Rattle.std.specs.Prelude.{◌≡◌, ◌&&◌, eqb, leb, length, get_or};
ghost use Rattle.meaning.specs.Shapes.{qos};
ghost use Rattle.meaning.specs.Sheet.{number_in};
ghost use Rattle.meaning.specs.Framing as framing;
ghost use Rattle.shape.specs.Codes.{shape_by};
ghost use Rattle.item.specs.Stands.{other_vendor, takes_digits, held, shaped, raw};
ghost use Rattle.item.specs.Answers.{headed_at, head_refused};

use area::Refusal;

// What the head of an item says: the number that it carries, 0 to 255 for a plain one and 256 more than the sub-attribute's for a 3GPP
// one, its form and count, the octets that stand there, of which any may, and the place behind the octets it stores. The place stands
// between number and form: where number, form and count are neighbours the compiler packs the three into one, and a message is
// written with 14 % more instructions.
#[derive(Clone, Copy)]
pub struct Head {
    pub number: u16,
    pub next: usize,
    pub form: u8,
    pub count: u8,
}

// A refusal at a place.
fn refused(number: u32, place: usize) -> Result<Head, Refusal>
    ensures { result ≡ head_refused number place }
{
    Err(Refusal {
        number,
        second: place,
    })
}

// The number that an item's head names; form 0 of type 26 is another vendor's.
pub fn number_in(t: u8, sub: u8, form: u8) -> u16
    ensures { result ≡ number_in t sub form }
{
    if t != 26 {
        return t as u16;
    }
    if form == 0 {
        return 26;
    }
    256 + (sub as u16)
}

// Whether a value is another vendor's: its id, which is not 3GPP's, and something behind it.
fn other_vendor(value: &[u8]) -> bool
    ensures { result ≡ other_vendor value.now }
{
    if value.len() < 5 {
        return false;
    }
    octets::u32_at(value, 0) != area::VENDOR_3GPP
}

// Whether a readable attribute carries the number with this value.
pub fn carries(number: u16, value: &[u8]) -> bool
    ensures { result ≡ framing.carries number value.now }
{
    if 256 <= number {
        return value.len() <= 246;
    }
    if 253 < value.len() {
        return false;
    }
    if number != 26 {
        return true;
    }
    other_vendor(value)
}

// Whether the shape of a code is digits, and it takes so many: 1 to 15, or 5 or 6.
#[tactic(auto, using(crate::proofs::Shaping::takes_few))]
pub fn takes_digits(code: u8, count: u8) -> bool
    ensures { result ≡ takes_digits (shape_by code) count }
{
    if code == shape::SHORT_DIGITS {
        return (5 <= count) & (count <= 6);
    }
    (code == shape::LONG_DIGITS) & ((1 <= count) & (count <= 15))
}

// Whether a value of a number stands as it is, in form 0 or 1, where the code is that of the number's shape: it takes that form, and an
// attribute carries it.
#[tactic(auto, using(crate::proofs::Judging::raw_missed, crate::proofs::Judging::raw_formless))]
pub fn is_raw(number: u16, code: u8, form: u8, value: &[u8]) -> bool
    ensures { result ≡ raw number code form value.now }
{
    if form != shape::plain_form(number) {
        return false;
    }
    // A shape whose code is below that of a number has no form of its own that the value could take.
    if shape::NUMBER <= code {
        if shape::meets_code(code, value) {
            return false;
        }
    }
    carries(number, value)
}

// Whether octets are those of a QoS text: the release, 98 or 99, and as many octets as it has.
#[tactic(auto, using(crate::proofs::Held::qos_four))]
pub fn holds_qos(stored: &[u8]) -> bool
    ensures { result ≡ held qos 0 stored.now }
{
    if stored.len() == 4 {
        return stored[0] == 98;
    }
    if stored.len() == 12 {
        return stored[0] == 99;
    }
    false
}

// Whether there is one octet, of `most` at most.
fn holds_one(stored: &[u8], most: u8) -> bool
    ensures { result ≡ eqb (length stored.now) 1 && leb (get_or stored.now 0 0) most }
{
    if stored.len() != 1 {
        return false;
    }
    stored[0] <= most
}

// Whether the shape of a code is of form 7, one octet, and octets are one that it takes.
pub fn is_octet(code: u8, stored: &[u8]) -> bool
    ensures { result ≡ shaped (shape_by code) 7 (length stored.now) stored.now }
{
    match code {
        shape::HEX_DIGIT => holds_one(stored, 15),
        shape::ANY_OCTET => stored.len() == 1,
        shape::DECIMAL_DIGIT => holds_one(stored, 9),
        _ => false,
    }
}

// What the head of an item at a place of a sheet says, whatever the place; or a refusal, 22 or 23.
#[tactic(auto, using(crate::proofs::Entering::headed_short))]
pub fn head_at(sheet: &[u8], place: usize) -> Result<Head, Refusal>
    ensures { result ≡ headed_at sheet.now place }
{
    if sheet.len() <= place {
        return refused(22, place);
    }
    let left = sheet.len() - place;
    if left < 4 {
        return refused(22, place);
    }
    let form = sheet[place + 2];
    let count = sheet[place + 3];
    let size = 4 + shape::stored_len(form, count as usize);
    if left < size {
        return refused(22, place);
    }
    let sub = sheet[place + 1];
    let number = number_in(sheet[place], sub, form);
    if (number < 256) & (sub != 0) {
        return refused(23, place);
    }
    Ok(Head {
        number,
        form,
        count,
        next: place + size,
    })
}
