// The usage ledger: the sheets of a session go in one by one, and the totals of its counters come out. A call takes the state by value and
// gives the next one, or refuses by number.
#![tactic(auto)]

ghost use Rattle.std.specs.Prelude.{◌≡◌};
ghost use Rattle.meaning.specs.Refusals.{none};
ghost use Rattle.meaning.specs.Sheet.{judged};
ghost use Rattle.meaning.specs.Ledger as meant;
ghost use Rattle.ledger.specs.Firsts.{value_at, read_at, firsts_of, firsts_with};
ghost use Rattle.ledger.specs.Answers.{account_of, ledger_of, ledger_as, had_by, told_of, kind_number, kind_by};
ghost use Rattle.ledger.specs.Answers.{refusal_as, counted_as, booking_of, added_by, named_by};

use area::Refusal;

// A kind of message that a ledger takes.
#[derive(Clone, Copy)]
enum Kind {
    Start,
    Stop,
    Interim,
}

// What is kept of a counter: the last reading had, and the total.
#[derive(Clone, Copy, PartialEq, Eq, Default)]
pub struct Account {
    pub last: u32,
    pub total: u64,
}

// The ledger's state: whether a session is open, its id, which stays when it is closed and so is no Option, and an account of each counter.
#[derive(Clone, Copy, PartialEq, Eq, Default)]
pub struct Ledger {
    pub opened: bool,
    pub session: u64,
    pub input_octets: Account,
    pub output_octets: Account,
    pub input_packets: Account,
    pub output_packets: Account,
}

// What a call is answered: the next state, or a refusal.
pub type Booking = Result<Ledger, Refusal>;

// The places in a sheet of the first items that the ledger asks for, where there are such.
#[derive(Clone, Copy, Default)]
struct Firsts {
    input_octets: Option<usize>,
    output_octets: Option<usize>,
    session: Option<usize>,
    input_packets: Option<usize>,
    output_packets: Option<usize>,
}

// What a sheet tells a ledger: its reading of each counter and its session id, where it has them. Beside `Firsts`, since an id is
// wider than a reading: one struct for both would have two types to be told.
#[derive(Clone, Copy)]
struct Told {
    input_octets: Option<u32>,
    output_octets: Option<u32>,
    session: Option<u64>,
    input_packets: Option<u32>,
    output_packets: Option<u32>,
}

// A refusal of this number.
fn refusal(number: u32) -> Refusal
    ensures { result ≡ refusal_as number }
{
    Refusal { number, second: 0 }
}

// ---- What a sheet tells

impl Firsts {
    // With one item more, of a number and at a place: it is the first of its number where none was before.
    #[tactic(auto, unfolding(crate::specs::Firsts::firsts_with))]
    fn with(self, number: u16, place: usize) -> Firsts
        ensures { result ≡ firsts_with self number place }
    {
        let here = Some(place);
        match number {
            42 => Firsts {
                input_octets: self.input_octets.or(here),
                ..self
            },
            43 => Firsts {
                output_octets: self.output_octets.or(here),
                ..self
            },
            44 => Firsts {
                session: self.session.or(here),
                ..self
            },
            47 => Firsts {
                input_packets: self.input_packets.or(here),
                ..self
            },
            48 => Firsts {
                output_packets: self.output_packets.or(here),
                ..self
            },
            _ => self,
        }
    }
}

// The places of the first items of a sheet that is written: one walk over the items.
fn firsts_in(sheet: &[u8]) -> Firsts
    requires { judged sheet.now ≡ none }
    ensures { result ≡ firsts_of sheet.now }
{
    let count = octets::u16_at(sheet, 7);
    let mut place: usize = 9;
    let mut firsts = Firsts::default();
    for _item in 0..count {
        let Ok(head) = item::head_at(sheet, place) else {
            unreachable!()
        };
        firsts = firsts.with(head.number, place);
        place = head.next;
    }
    firsts
}

// The place of the octets that the item at a place stores, if it has this form.
#[tactic(auto, unfolding(crate::specs::Firsts::value_at))]
fn value_at(sheet: &[u8], place: Option<usize>, form: u8) -> Option<usize>
    ensures { result ≡ value_at form sheet.now place }
{
    let place = place?;
    if sheet.len() <= place {
        return None;
    }
    if octets::octet_at(sheet, place + 2) != form {
        return None;
    }
    Some(place + 4)
}

// The two that follow differ in form, width and type: one function over both would have a parameter for each, and be no plainer.

// The reading of the item at a place: its number, in form 2.
#[tactic(auto, unfolding(crate::specs::Firsts::read_at))]
fn reading_at(sheet: &[u8], place: Option<usize>) -> Option<u32>
    ensures { result ≡ read_at 2 4 sheet.now place }
{
    let value = value_at(sheet, place, 2)?;
    Some(octets::u32_at(sheet, value))
}

// The session id of the item at a place: its eight octets, in form 5.
#[tactic(auto, unfolding(crate::specs::Firsts::read_at))]
fn id_at(sheet: &[u8], place: Option<usize>) -> Option<u64>
    ensures { result ≡ read_at 5 8 sheet.now place }
{
    let value = value_at(sheet, place, 5)?;
    Some(octets::u64_at(sheet, value))
}

impl Told {
    // What a sheet that is written tells.
    #[tactic(auto, using(octets::proofs::Parts::slice_octets, crate::proofs::Telling::all_told))]
    fn by(sheet: &[u8]) -> Told
        requires { judged sheet.now ≡ none }
        ensures { result ≡ told_of sheet.now }
    {
        let firsts = firsts_in(sheet);
        Told {
            input_octets: reading_at(sheet, firsts.input_octets),
            output_octets: reading_at(sheet, firsts.output_octets),
            session: id_at(sheet, firsts.session),
            input_packets: reading_at(sheet, firsts.input_packets),
            output_packets: reading_at(sheet, firsts.output_packets),
        }
    }
}

// ---- What comes of it

// A kind by its number in a sheet; 31 where a ledger takes no such kind.
impl TryFrom<u8> for Kind {
    type Error = Refusal;

    ghost try_from_gives = { λ number r. r ≡ kind_by number };

    fn try_from(number: u8) -> Result<Kind, Refusal> {
        match number {
            2 => Ok(Kind::Start),
            3 => Ok(Kind::Stop),
            6 => Ok(Kind::Interim),
            _ => Err(refusal(31)),
        }
    }
}

impl Kind {
    // Whether it is not its turn: a START begins a session, and the others need an open one.
    #[tactic(auto, unfolding(meaning::specs::Ledger::out_of_turn))]
    fn is_out_of_turn(self, opened: bool) -> bool
        ensures { result ≡ meant.out_of_turn opened (kind_number self) }
    {
        match self {
            Kind::Start => opened,
            Kind::Stop | Kind::Interim => !opened,
        }
    }
}

// The later reading minus the earlier, modulo 2^32: subtracted as 32 bits, which roll over, and then widened.
#[tactic(auto, unfolding(meaning::specs::Ledger::gap))]
fn gap(earlier: u32, later: u32) -> u64
    ensures { result ≡ meant.gap earlier later }
{
    let apart = later.wrapping_sub(earlier);
    apart as u64
}

impl Account {
    // With a sheet's reading of its counter; 33 where the total would pass 64 bits.
    #[tactic(auto, unfolding(meaning::specs::Ledger::counted))]
    fn with(self, reading: Option<u32>) -> Result<Account, Refusal>
        ensures { result ≡ counted_as (meant.counted (account_of self) (had_by reading)) }
    {
        let Some(later) = reading else {
            return Ok(self);
        };
        let more = gap(self.last, later);
        let total = self.total.checked_add(more).ok_or(refusal(33))?;
        Ok(Account { last: later, total })
    }
}

impl Ledger {
    // Of a session, with this id, that has begun.
    #[tactic(auto, unfolding(meaning::specs::Ledger::begun))]
    fn begun(session: u64) -> Ledger
        ensures { result ≡ ledger_as (meant.begun (meant.had session)) }
    {
        Ledger {
            opened: true,
            session,
            ..fresh()
        }
    }

    // With the readings of a STOP or an Interim; it stays open or not.
    #[tactic(auto, unfolding(crate::specs::Answers::added_by, meaning::specs::Ledger::too_much))]
    fn added(self, opened: bool, told: Told) -> Booking
        ensures { result ≡ added_by (ledger_of self) opened told }
    {
        let input_octets = self.input_octets.with(told.input_octets)?;
        let output_octets = self.output_octets.with(told.output_octets)?;
        let input_packets = self.input_packets.with(told.input_packets)?;
        let output_packets = self.output_packets.with(told.output_packets)?;
        Ok(Ledger {
            opened,
            session: self.session,
            input_octets,
            output_octets,
            input_packets,
            output_packets,
        })
    }

    // What comes of a sheet whose kind is at its turn.
    #[tactic(auto, unfolding(crate::specs::Answers::named_by))]
    fn named(self, kind: Kind, told: Told) -> Booking
        ensures { result ≡ named_by (ledger_of self) (kind_number kind) told }
    {
        let id = told.session.ok_or(refusal(32))?;
        match kind {
            Kind::Start => Ok(Ledger::begun(id)),
            _ if id != self.session => Err(refusal(32)),
            Kind::Stop => self.added(false, told),
            Kind::Interim => self.added(true, told),
        }
    }
}

// ---- The ledger

// A fresh ledger, with no session.
pub fn fresh() -> Ledger
    ensures { result ≡ ledger_as meant.fresh }
{
    Ledger::default()
}

// Books a sheet: the next state, or the first of refusals 30 to 33.
#[tactic(auto, using(crate::proofs::Turns::answered), unfolding(writing::specs::Answers::judgement_of))]
pub fn book(ledger: Ledger, sheet: &[u8]) -> Booking
    ensures { result ≡ booking_of (meant.book_answer (ledger_of ledger) sheet.now) }
{
    let Ok(written) = writing::judge(sheet) else {
        return Err(refusal(30));
    };
    let kind = Kind::try_from(written.kind)?;
    if kind.is_out_of_turn(ledger.opened) {
        return Err(refusal(31));
    }
    ledger.named(kind, Told::by(sheet))
}
