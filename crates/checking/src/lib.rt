// The check: the list of an attribute area's breaches. One pass over the area tests the framing, counts the entries and lays them into a
// buffer of its own, from which they are copied; where they are more than that has room for, another pass lays them into the list.
#![tactic(auto)]

ghost use Rattle.std.specs.Prelude.{◌≡◌, true, false, not, ◌&&◌, ◌||◌, ℕ, ◌+◌, ◌≤◌, ◌<◌, eqb, length, [], map, get_or};
ghost use Rattle.std.specs.Prelude.{slice_index, EachIndex, Ok};
ghost use Rattle.meaning.specs.Versions.{current};
ghost use Rattle.meaning.specs.Jobs.{comes};
ghost use Rattle.meaning.specs.Shapes.{shape_of, meets, status_of};
ghost use Rattle.meaning.specs.Shapes as shapes;
ghost use Rattle.meaning.specs.Codes.{code_bars, code_demands, code_wants};
ghost use Rattle.meaning.specs.Breaches.{entry, once_only};
ghost use Rattle.meaning.specs.Breaches as meant;
ghost use Rattle.meaning.specs.Listing.{Candidate, chosen, broken_by};
ghost use Rattle.area.specs.Answers.{arrival_of};
ghost use Rattle.checking.specs.Table.{Known, Row};
ghost use Rattle.checking.specs.Lists.{most_entries, LaysEntries, LaysOne, search_end, view_at, Notes};
ghost use Rattle.checking.specs.Lists.{wanted_by, end_by, Tested, AlongSays, PassSays};
ghost use Rattle.checking.specs.Answers.{Checked};

use area::Refusal;
use shape::{IMSI, PDP_TYPE, SELECTION_MODE, SGSN_MCC_MNC, STOP_INDICATOR};

// The numbers that rule 6 can ask for, in the order of their entries; the table says where it does.
const DEMANDABLE: [u16; 5] = [1, 8, 30, 40, 44];

// Those that rule 7 can ask for: the entry of 3GPP 3, type 26, stands between those of 25 and 60.
const WANTABLE: [u16; 6] = [2, 3, 4, 25, PDP_TYPE, 60];

// So many entries have room in the first pass.
const FEW: usize = 32;

// What comes with an area: the kind and flags of its message, the numbers that they came as and of which the book's `comes` speaks, and the
// kind's row of the presence table.
#[derive(Drop)]
struct Message {
    kind: u32,
    flags: u32,
    codes: [u8; 256],
    ghost known: { Known kind },
    ghost row: { Row (comes kind flags) codes },
}

// Rule 4 by an entry of the table.
fn code_bars(code: u8, flags: u32) -> bool
    ensures { result ≡ code_bars code flags }
{
    (code == 2) | (((code == 3) | (code == 4)) & !(flags / 4 % 2 == 1))
}

// Rule 7 by an entry of the table and whether 32 is present.
fn code_wants(code: u8, flags: u32, named: bool) -> bool
    ensures { result ≡ code_wants code flags named }
{
    (((code == 5) & (flags % 2 == 1))
        | (((code == 6) & (flags / 2 % 2 == 1)) | ((code == 4) & (flags / 4 % 2 == 1))))
        | ((code == 7) & !named)
}

// "3GPP 1 to 12, 18"
fn is_listed_3gpp(number: u16) -> bool
    ensures { result ≡ meant.is_listed3gpp number }
{
    ((IMSI <= number) & (number <= SELECTION_MODE)) | (number == SGSN_MCC_MNC)
}

// Rule 3: whether a number may stand once only.
fn once_only(number: u16) -> bool
    ensures { result ≡ once_only number }
{
    ((1 <= number) & (number <= 4))
        | (((6 <= number) & (number <= 9))
            | (((30 <= number) & (number <= 32))
                | (((40 <= number) & (number <= 49))
                    | (((number == 60) | (number == 61)) | is_listed_3gpp(number)))))
}

// Where the search for an earlier attribute ends: at the attribute's place, or at once where the number may stand again.
fn search_end(number: u16, place: usize) -> usize
    ensures { result ≡ search_end number place }
{
    if once_only(number) { place } else { 0 }
}

// The Acct-Status-Type that a kind of accounting has.
fn status_of(kind: u32) -> u32
    requires { (2 ≤ kind) × (kind ≤ 6) }
    ensures { result ≡ status_of kind }
{
    let statuses = [1u32, 2, 7, 8, 3];
    statuses[(kind - 2) as usize]
}

// Whether a status is the kind's own; "free in kind 1".
fn status_allowed(kind: u32, status: u32) -> bool
    requires { Known kind }
    ensures { result ≡ eqb kind 1 || eqb status (status_of kind) }
{
    if kind == 1 {
        return true;
    }
    status == status_of(kind)
}

// The entry of a place, a rule and a number: from the high digits down, and type and sub-attribute number for the number.
fn entry_of(place: usize, rule: u32, number: u16) -> u32
    requires { (place ≤ 4076) × (rule < 8) × (number < 512) }
    ensures { result ≡ entry place rule number }
{
    let n = number as u32;
    if n < 256 {
        return (place as u32) * 1048576 + (rule * 65536 + n * 256);
    }
    // Type 26 is 6,656 here.
    (place as u32) * 1048576 + (rule * 65536 + (6656 + (n - 256)))
}

// Lays an entry into the list from `at` on, if it stands, and says where the next goes; one that the list has no room for is counted. The
// rule is the number that stands in the entry. List and place go apart, as the demands on a lent buffer speak of it: what was there, and
// what is there after.
fn put(list: &mut [u32], at: usize, stands: bool, place: usize, rule: u32, number: u16) -> usize
    requires { (at < most_entries) × (place ≤ 4076) × (rule < 8) × (number < 512) }
    ensures { LaysOne stands (entry place rule number) list.old at result list.new }
{
    if !stands {
        return at;
    }
    if at < list.len() {
        list[at] = entry_of(place, rule, number);
        return at + 1;
    }
    at + 1
}

// Rule 7: "Kinds 1, 2, 3, 6", where 3GPP 3 goes with plain attribute 7; whatever the flags.
fn asks_pdp_type(kind: u32) -> bool
    ensures { (flags : ℕ) → result ≡ meant.asks_pdp_type (comes kind flags) }
{
    (kind == 1) | ((kind == 2) | ((kind == 3) | (kind == 6)))
}

// Lays the entries that a rule has at the end for the numbers of a list, in their order: for those of which a test says so.
fn put_each<F: Fn(u16) -> bool>(
    list: &mut [u32],
    at: usize,
    numbers: &[u16],
    place: usize,
    rule: u32,
    stands: F,
) -> usize
    requires room { (at + length numbers.now ≤ most_entries) × (place ≤ 4076) × (rule < 8) }
    requires low { EachIndex numbers.now (λ k. slice_index numbers.now k < 512) }
    requires tested { EachIndex numbers.now (λ k. F.pre stands (slice_index numbers.now k)) }
    ensures { (by : ℕ → Candidate) → Tested (F.post stands) by numbers.now place rule →
        LaysEntries (chosen (map by numbers.now)) list.old at result list.new }
{
    let mut written = at;
    for number in numbers {
        written = put(list, written, stands(*number), place, rule, *number);
    }
    written
}

impl Message {
    // Rule 4: "not permitted here".
    fn barred(&self, number: u16) -> bool
        ensures { result ≡ meant.barred (comes self.now.kind self.now.flags) number }
    {
        if number < 256 {
            let code = self.codes[number as usize];
            // Most codes bar nothing, whatever the flags.
            if code < 2 {
                return false;
            }
            return code_bars(code, self.flags);
        }
        if number == STOP_INDICATOR {
            return self.kind != 3;
        }
        if self.kind < 4 {
            return false;
        }
        (self.kind <= 5) & is_listed_3gpp(number)
    }

    // "Allowed values, where the shape holds".
    fn allowed(&self, number: u16, value: &[u8]) -> bool
        requires { meets current (shape_of number) value.now ≡ true }
        ensures { result ≡ shapes.allowed (comes self.now.kind self.now.flags) number value.now }
    {
        match number {
            6 => octets::u32_at(value, 0) == 2,
            7 => octets::u32_at(value, 0) == 7,
            45 => {
                let link = octets::u32_at(value, 0);
                (link == 1) | (link == 2)
            }
            49 => {
                let cause = octets::u32_at(value, 0);
                (1 <= cause) & (cause <= 18)
            }
            40 => status_allowed(self.kind, octets::u32_at(value, 0)),
            PDP_TYPE => octets::u32_at(value, 0) == 0,
            STOP_INDICATOR => octets::u32_at(value, 0) == 255,
            SELECTION_MODE => octets::digit_value(value[0]) <= 2,
            _ => true,
        }
    }

    // Rule 2: "shape met, value not allowed".
    fn offends(&self, number: u16, value: &[u8], met: bool) -> bool
        requires { met ≡ meets current (shape_of number) value.now }
        ensures { result ≡ met && not (shapes.allowed (comes self.now.kind self.now.flags) number value.now) }
    {
        if !met {
            return false;
        }
        !self.allowed(number, value)
    }

    // Lays what an attribute breaks, rules 1 to 4; `again` says that rule 3 is broken.
    fn at_attribute(
        &self,
        list: &mut [u32],
        at: usize,
        place: usize,
        number: u16,
        value: &[u8],
        again: bool,
    ) -> usize
        requires { (at + 4 ≤ most_entries) × (place ≤ 4076) × (number < 512) }
        ensures { let c = comes self.now.kind self.now.flags in
            LaysEntries (chosen (broken_by c again (view_at c place number value.now)))
            list.old at result list.new }
    {
        let met = shape::meets(number, value);
        let offending = self.offends(number, value, met);
        let bars = self.barred(number);
        // Most attributes break nothing.
        if (met & !offending) & (!again & !bars) {
            return at;
        }
        let first = put(list, at, !met, place, 1, number);
        let second = put(list, first, offending, place, 2, number);
        let third = put(list, second, again, place, 3, number);
        put(list, third, bars, place, 4, number)
    }

    // Lays what the attributes of an area break, from the left, and notes the numbers seen. Rule 3, "an earlier attribute": a walk from
    // the area's start, left at the first equal number; a number that was not seen is not searched for. The
    // search is written out and left by its label: that form is asked for by name (docs/TRACE.md, "left by a label at").
    fn along(&self, area: &[u8], seen: &mut [bool; 512], list: &mut [u32]) -> Result<usize, Refusal>
        requires { length area.now ≤ 4076 × Notes seen.old [] }
        ensures { AlongSays (comes self.now.kind self.now.flags) area.now list.old result list.new seen.new }
    {
        let mut place: usize = 0;
        let mut written: usize = 0;
        while let Some(attribute) = area::step_at(area, place)? {
            let number = attribute.number;
            let n = number as usize;
            let mut again = false;
            if seen[n] {
                let end = search_end(number, place);
                let mut before: usize = 0;
                'search: while before < end {
                    let earlier = area::carried_at(area, before);
                    if earlier.number == number {
                        again = true;
                        break 'search;
                    }
                    before = earlier.next;
                }
            }
            seen[n] = true;
            let start = attribute.value.start;
            let v = &area[start..attribute.next];
            written = self.at_attribute(list, written, place, number, v, again);
            place = attribute.next;
        }
        Ok(written)
    }

    // Rule 6: whether a number is lacking, by its entry of the row and the numbers seen.
    fn lacks(&self, seen: &[bool; 512], number: u16) -> bool
        requires { number < 256 }
        ensures { result ≡ code_demands (get_or self.now.codes number 0) && not (get_or seen.now number false) }
    {
        let n = number as usize;
        (self.codes[n] == 1) & !seen[n]
    }

    // Rule 7: whether a number is asked for: a plain one by the row, 3GPP 3 by plain attribute 7.
    fn wanted(&self, seen: &[bool; 512], number: u16) -> bool
        ensures { result ≡ wanted_by (comes self.now.kind self.now.flags) self.now.codes seen.now number }
    {
        if number < 256 {
            return code_wants(self.codes[number as usize], self.flags, seen[32]);
        }
        asks_pdp_type(self.kind) & seen[7]
    }

    // The same, and whether it was not seen.
    fn wants(&self, seen: &[bool; 512], number: u16) -> bool
        requires { number < 512 }
        ensures { let asked = wanted_by (comes self.now.kind self.now.flags) self.now.codes seen.now number in
            result ≡ asked && not (get_or seen.now number false) }
    {
        self.wanted(seen, number) & !seen[number as usize]
    }

    // Lays what the end breaks, rules 5 to 7.
    fn at_end(&self, list: &mut [u32], at: usize, seen: &[bool; 512], place: usize) -> usize
        requires { (at + 12 ≤ most_entries) × (place ≤ 4076) }
        ensures { LaysEntries (chosen (end_by (comes self.now.kind self.now.flags) self.now.codes seen.now place))
            list.old at result list.new }
    {
        let both = (self.kind == 1) & (seen[2] & seen[3]);
        let first = put(list, at, both, place, 5, 3);
        let lacks = |number: u16| self.lacks(seen, number);
        let second = put_each(list, first, &DEMANDABLE, place, 6, lacks);
        let wants = |number: u16| self.wants(seen, number);
        put_each(list, second, &WANTABLE, place, 7, wants)
    }

    // Passes over an area: lays the entries of its breaches into the list, as many as it has room for, and counts them all; or gives the
    // first refusal of the framing.
    fn pass(&self, area: &[u8], list: &mut [u32]) -> Result<usize, Refusal>
        requires { length area.now ≤ 4076 }
        ensures { PassSays (comes self.now.kind self.now.flags) area.now list.old result list.new }
    {
        let mut seen = [false; 512];
        let at = self.along(area, &mut seen, list)?;
        Ok(self.at_end(list, at, &seen, area.len()))
    }
}

// The list of an area that comes with a fit kind, flags and length, at the buffer's start, or the first of refusals 4 to 8 and 10. Most
// areas break little or nothing, and then one pass is enough.
fn lay(area: &[u8], kind: u32, flags: u32, list: &mut [u32]) -> Result<usize, Refusal>
    requires { arrival_of kind flags (length area.now) ≡ Ok tt }
    ensures { Checked (comes kind flags) area.now list.old result list.new }
{
    let message = Message {
        kind,
        flags,
        codes: presence::row_of(kind),
    };
    let mut few = [0u32; FEW];
    let needed = message.pass(area, &mut few)?;
    if list.len() < needed {
        return Err(Refusal {
            number: 10,
            second: needed,
        });
    }
    if needed <= FEW {
        list[..needed].copy_from_slice(&few[..needed]);
        return Ok(needed);
    }
    message.pass(area, list)
}

// Check: how many entries the list of an area's breaches has, which stands at the buffer's start; a refusal leaves the buffer as it was.
pub fn check(area: &[u8], kind: u32, flags: u32, list: &mut [u32]) -> Result<usize, Refusal>
    ensures { Checked (comes kind flags) area.now list.old result list.new }
{
    area::arrive(area, kind, flags)?;
    lay(area, kind, flags, list)
}
