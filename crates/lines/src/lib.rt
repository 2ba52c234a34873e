// The lines that the programs print, as text: the line of a refusal and of an entry, and the pieces that other lines are made of.
// Nothing here prints. Each public function takes any arguments.
#![tactic(auto)]

ghost use Rattle.std.specs.Prelude.{◌≡◌, ◌*◌, ◌≤◌, [], length, take};
ghost use Rattle.meaning.specs.Answers.{over};
ghost use Rattle.octets.specs.Parts.{part_of};
ghost use Rattle.lines.specs.Lines.{decimal, refusal_line, entry_with, entries_with, StartLaid, second_told, text_of, followed};

// A text of at most fifty octets and their count: no line of a refusal is longer.
// Octets and length are public: its functions take any text, and docs/PROMISES.md names them; no Model, whose invariant would ask more.
#[derive(Clone, Copy)]
pub struct Text {
    pub octets: [u8; 50],
    pub len: usize,
}

impl Text {
    // A text of no octets.
    pub fn new() -> Text
        ensures { result ≡ text_of [] }
    {
        Text {
            octets: [0; 50],
            len: 0,
        }
    }

    // The octets of the text.
    pub fn as_slice(&self) -> &[u8]
        ensures { result.now ≡ part_of self.now.octets 0 self.now.len }
    {
        octets::part(&self.octets, 0, self.len)
    }

    // The text with octets behind it, if they fit; else as it was.
    pub fn with(mut self, s: &[u8]) -> Text
        ensures { result ≡ followed self s.now }
    {
        let len = self.len;
        if octets::copy_at(&mut self.octets, len, s) {
            self.len = len + s.len();
        }
        self
    }

    // The text with a number in decimal behind it, if it fits; else as it was.
    pub fn with_decimal(self, n: u64) -> Text
        ensures { result ≡ followed self (decimal n) }
    {
        self.with(itoa::Buffer::new().format(n).as_bytes())
    }
}

// The line of a refusal, by its number and second number. No Display: each octet of the line is promised, and of what a Display writes the
// library promises nothing.
pub fn refusal(number: u32, second: u64) -> Text
    ensures { result ≡ text_of (refusal_line number second) }
{
    Text::new()
        .with(b"refused ")
        .with_decimal(number as u64)
        .with(b" ")
        .with_decimal(second)
        .with(b"\n")
}

// The second number of a refusal as it is told of an input of so many octets, of which only a part may have been kept.
#[tactic(auto, unfolding(crate::specs::Lines::second_told))]
pub fn second_told(number: u32, second: u64, all: u64) -> u64
    ensures { result ≡ second_told number second all }
{
    if number != 3 {
        return second;
    }
    all.saturating_sub(2)
}

// The eight digits of an entry, and an octet behind them.
pub fn entry(entry: u32, behind: u8) -> [u8; 9]
    ensures { result ≡ entry_with behind entry }
{
    let mut line = [behind; 9];
    octets::unpack_at(&mut line, 0, &octets::u32_octets(entry), 8);
    line
}

// Lays the entries of a list over the start of `text`, one behind the other.
fn lay(list: &[u32], behind: u8, text: &mut [u8])
    requires { 9 * length list.now ≤ length text.old }
    ensures { text.new ≡ over (entries_with behind list.now) text.old }
{
    for (i, e) in list.iter().enumerate() {
        octets::copy_at(text, 9 * i, &entry(*e, behind));
    }
}

// Lays the first `count` entries of a list, or as many as it has, over the start of `text`, each with an octet behind it, and tells their
// octets, nine an entry, if they fit; else changes nothing and says 0. No Option: the programs print so many octets of `text`, and where
// the entries do not fit they print none (`StartLaid`, which `printing` hands on).
pub fn entries(list: &[u32], count: usize, behind: u8, text: &mut [u8]) -> usize
    ensures { StartLaid (entries_with behind (take count list.now)) text.old result text.new }
{
    let first = &list[..count.min(list.len())];
    if text.len() / 9 < first.len() {
        return 0;
    }
    lay(first, behind, text);
    9 * first.len()
}
