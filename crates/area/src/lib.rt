// The framing of an attribute area: what stands at a place of it, and whether what comes with it is fit.
#![tactic(auto)]

ghost use Rattle.std.specs.Prelude.{◌≡◌, ◌+◌, ◌-◌, ◌^◌, ◌<◌, ◌≤◌, length, drop};
ghost use Rattle.meaning.specs.Jobs.{is_kind, are_flags};
ghost use Rattle.meaning.specs.Framing.{head_length, vendor_found, found_at};
ghost use Rattle.meaning.specs.Framing as meant;
ghost use Rattle.area.specs.Answers.{step_of, number_at, carried_at, arrival_of};

// "vendor 10415"
pub const VENDOR_3GPP: u32 = 10415;

// A refusal of the book: its number and its second number. A number and no enum, since `Refuses` (crates/desk/specs/Calls) speaks of every
// number that there is, and callers in C and the programs' lines get it.
#[derive(Clone, Copy, PartialEq, Eq)]
pub struct Refusal {
    pub number: u32,
    pub second: usize,
}

// A part of an area, as start and length: the form that is asked for of a sheet's item (docs/TRACE.md, "Item struct holds a value enum").
#[derive(Clone, Copy)]
pub struct Part {
    pub start: usize,
    pub len: usize,
}

// An attribute at a place of an area: the number that it carries, 0 to 255 for a plain one and 256 more than the sub-attribute's for a
// 3GPP one, its value and the place behind it.
// The number is no enum: each of the 512 is carried, also where the book has no line for it, and the table is looked up by it.
#[derive(Clone, Copy)]
pub struct Carried {
    pub number: u16,
    pub value: Part,
    pub next: usize,
}

// What stands at a place: an attribute, nothing at the area's end, or a refusal.
pub type Step = Result<Option<Carried>, Refusal>;

// The number that a plain attribute of type t carries.
fn plain(t: u8) -> u16
    ensures { result ≡ t }
{
    t as u16
}

// The number that a 3GPP sub-attribute s carries.
fn gpp(s: u8) -> u16
    ensures { result ≡ meant.gpp s }
{
    256 + (s as u16)
}

// A refusal at a place. `item` has the like for a head: one over both would be public, with a type for what is not there, no plainer.
fn refused(number: u32, place: usize) -> Step
    ensures { result ≡ step_of place (meant.refused number) }
{
    Err(Refusal {
        number,
        second: place,
    })
}

// An attribute at a place, with so many octets before its value and so many in all.
fn attribute(number: u16, place: usize, head: usize, size: usize) -> Step
    requires { (head ≤ size) × (place + size < 2 ^ 64) }
    ensures { result ≡ step_of place (meant.attribute number head size) }
{
    Ok(Some(Carried {
        number,
        value: Part {
            start: place + head,
            len: size - head,
        },
        next: place + size,
    }))
}

// What stands at a place where the type is 26 and the length is `size`.
#[tactic(auto, using(crate::proofs::Found::vendor_short, crate::proofs::Found::vendor_broken))]
fn vendor_step(area: &[u8], place: usize, size: usize) -> Step
    requires { (2 ≤ size) × (place + size ≤ length area.now) }
    ensures { result ≡ step_of place (vendor_found size (drop (place + 2) area.now)) }
{
    if size < 7 {
        return refused(7, place);
    }
    if octets::u32_at(area, place + 2) != VENDOR_3GPP {
        return attribute(26, place, 2, size);
    }
    // A string of one octet has no room for m.
    if size < 8 {
        return refused(8, place);
    }
    let m = usize::from(area[place + 7]);
    if 248 < m {
        return refused(8, place);
    }
    if m == size - 6 {
        attribute(gpp(area[place + 6]), place, 8, size)
    } else {
        refused(8, place)
    }
}

// What stands at a place of an area, whatever the place. Inlined: a walk over an area by calls takes a third more time.
#[inline]
#[tactic(auto, using(crate::proofs::Found::found_one_octet, crate::proofs::Found::found_low))]
pub fn step_at(area: &[u8], place: usize) -> Step
    ensures { result ≡ step_of place (found_at area.now place) }
{
    if area.len() <= place {
        return Ok(None);
    }
    let left = area.len() - place;
    if left < 2 {
        return refused(4, place);
    }
    let size = usize::from(area[place + 1]);
    if size < 2 {
        return refused(5, place);
    }
    if left < size {
        return refused(6, place);
    }
    let t = area[place];
    if t == 26 {
        vendor_step(area, place, size)
    } else {
        attribute(plain(t), place, 2, size)
    }
}

// The number that is carried at a place.
#[tactic(auto, using(crate::proofs::Carrying::number_other))]
fn number_at(area: &[u8], place: usize) -> u16
    requires { place < length area.now }
    ensures { result ≡ number_at area.now place }
{
    let t = area[place];
    if t != 26 {
        return plain(t);
    }
    let vendor = octets::u32_at(area, place + 2);
    if vendor != VENDOR_3GPP {
        return plain(t);
    }
    gpp(octets::octet_at(area, place + 6))
}

// The octets before the value of an attribute that carries a number.
pub fn head_len(number: u16) -> usize
    ensures { result ≡ head_length number }
{
    if number < 256 { 2 } else { 8 }
}

// What is left of `size` behind a head.
fn rest(size: usize, head: usize) -> usize
    ensures { result ≡ size - head }
{
    size.saturating_sub(head)
}

// What an area that is known to be well framed carries at a place, with none of the tests of `step_at`; nothing at its end: a `Carried` of
// no octets and no Option, since it promises one for every place (`carried_at` in specs/Answers), and what cannot fail shall not begin to.
pub fn carried_at(area: &[u8], place: usize) -> Carried
    ensures { result ≡ carried_at area.now place }
{
    if area.len() <= place {
        return Carried {
            number: 0,
            value: Part {
                start: place,
                len: 0,
            },
            next: place,
        };
    }
    let number = number_at(area, place);
    let head = head_len(number);
    let size = usize::from(octets::octet_at(area, place + 1));
    let next = place + size;
    Carried {
        number,
        value: Part {
            start: place + head,
            len: rest(size, head),
        },
        next,
    }
}

// Whether a number is one of the six kinds of message. Kind and flags stay the numbers that a caller hands over: each entry promises an
// answer for every one of them, and refuses by 1 or 2.
pub fn is_kind(kind: u32) -> bool
    ensures { result ≡ is_kind kind }
{
    (1 <= kind) & (kind <= 6)
}

// Whether a number can be flags: PAP and CHAP are not used together.
pub fn are_flags(flags: u32) -> bool
    ensures { result ≡ are_flags flags }
{
    (flags == 0) | ((flags == 1) | ((flags == 2) | ((flags == 4) | ((flags == 5) | (flags == 6)))))
}

// Whether what comes with an area is fit: the first of refusals 1 to 3 that applies, or none.
#[tactic(auto, using(crate::proofs::Arriving::too_long))]
pub fn arrive(area: &[u8], kind: u32, flags: u32) -> Result<(), Refusal>
    ensures { result ≡ arrival_of kind flags (length area.now) }
{
    if !is_kind(kind) {
        return Err(Refusal {
            number: 1,
            second: 0,
        });
    }
    if !are_flags(flags) {
        return Err(Refusal {
            number: 2,
            second: 0,
        });
    }
    if 4076 < area.len() {
        return Err(Refusal {
            number: 3,
            second: area.len(),
        });
    }
    Ok(())
}
