// Octets, as everything else takes them for granted: parts of a slice, numbers with the high octet first, octets laid over a
// buffer, digit strings, and digits two to an octet. Each public function takes any arguments.
#![tactic(auto)]

ghost use Rattle.std.specs.Prelude.{◌≡◌, ◌+◌, ◌*◌, ◌/◌, ◌%◌, ◌^◌, ◌<◌, ◌≤◌, min, true, cond, [], eqb, leb, length, get_or};
ghost use Rattle.std.specs.List.{list_all};
ghost use Rattle.meaning.specs.Octets.{all, same, number_of, octets_of, pack, unpack, packed_length};
ghost use Rattle.meaning.specs.Octets.{is_digit, is_hex, digit_value, digit_text, text};
ghost use Rattle.meaning.specs.Answers.{over};
ghost use Rattle.octets.specs.Parts.{part_of, Numbered, Overlaid, laid_at, Laid};
ghost use Rattle.octets.specs.DigitStrings.{halves, digits_of, gathered_of, got_of, eight_of, turned_of, below_ten};

// "fifteen digits together with their count" at most: the digits' values, with 15s behind them. Octets and a length by value, and a count
// of 0 for none: `got_of` says so, and that form is asked for by name (docs/TRACE.md, "fifteen octets and a length").
#[derive(Clone, Copy)]
pub struct Digits {
    pub octets: [u8; 15],
    pub len: usize,
}

// An octet as a number. This and `wide32`, `least` and `equal` are the library's own under a name of ours. docs/PROMISES.md lists them as
// public functions and their wrong edits stand, so they do too.
pub fn wide(x: u8) -> usize
    ensures { result ≡ x }
{
    usize::from(x)
}

// An octet as a number of 32 bits.
pub fn wide32(x: u8) -> u32
    ensures { result ≡ x }
{
    u32::from(x)
}

// The `len` octets of `s` from `at` on, or as many of them as `s` has.
pub fn part(s: &[u8], at: usize, len: usize) -> &[u8]
    ensures { result.now ≡ part_of s.now at len }
{
    if s.len() <= at {
        return &s[..0];
    }
    if s.len() - at <= len {
        return &s[at..];
    }
    let end = at + len;
    &s[at..end]
}

// The octet at a place, or 0 where there is none.
pub fn octet_at(s: &[u8], at: usize) -> u8
    ensures { result ≡ get_or s.now at 0 }
{
    if at < s.len() { s[at] } else { 0 }
}

// Whether two slices hold the same octets.
pub fn equal(a: &[u8], b: &[u8]) -> bool
    ensures { result ≡ same a.now b.now }
{
    a == b
}

// The number that the octets of `s` stand for, at every width to 64 bits.
fn number(s: &[u8]) -> u64
    requires { length s.now ≤ 8 }
    ensures { Numbered s.now result }
{
    let mut n: u64 = 0;
    for x in s {
        n = n * 256 + u64::from(*x);
    }
    n
}

// The 16-bit number at a place.
pub fn u16_at(s: &[u8], at: usize) -> u16
    ensures { result ≡ number_of (part_of s.now at 2) }
{
    number(part(s, at, 2)) as u16
}

// The 32-bit number at a place. It has a way of its own where the four octets are there: by the loop over every width, as `u16_at` and
// `u64_at` have it, a message is read in 299 ns in place of 288, and 2,038 attributes of two octets in 18.4 microseconds in place of 15.2.
// That they are there is tested by the length: as a chunk of a `part` 339 attributes of 3GPP are read with 6 % more instructions.
pub fn u32_at(s: &[u8], at: usize) -> u32
    ensures { result ≡ number_of (part_of s.now at 4) }
{
    if 4 <= s.len() && at <= s.len() - 4 {
        return u32::from_be_bytes(array_at::<4>(s, at));
    }
    number(part(s, at, 4)) as u32
}

// The 64-bit number at a place.
pub fn u64_at(s: &[u8], at: usize) -> u64
    ensures { result ≡ number_of (part_of s.now at 8) }
{
    number(part(s, at, 8))
}

// A 16-bit number in two octets. Three widths and three names, here and above: docs/PROMISES.md lists them, and one name for all would
// need a trait for three lines.
pub fn u16_octets(n: u16) -> [u8; 2]
    ensures { result ≡ octets_of 2 n }
{
    u16::to_be_bytes(n)
}

// A 32-bit number in four octets.
pub fn u32_octets(n: u32) -> [u8; 4]
    ensures { result ≡ octets_of 4 n }
{
    u32::to_be_bytes(n)
}

// A 64-bit number in eight octets.
pub fn u64_octets(n: u64) -> [u8; 8]
    ensures { result ≡ octets_of 8 n }
{
    u64::to_be_bytes(n)
}

// The N octets at a place.
fn array_at<const N: usize>(s: &[u8], at: usize) -> [u8; N]
    requires { at + N ≤ length s.now }
    ensures { result ≡ part_of s.now at N }
{
    *s[at..].first_chunk::<N>().unwrap()
}

// Whether `n` octets fit into `room` octets from the place `at` on.
fn fits(room: usize, at: usize, n: usize) -> bool
    ensures { result ≡ leb (at + n) room }
{
    (at <= room) && (n <= room - at)
}

// Lays octets over `buf` from a place on.
fn lay_at(buf: &mut [u8], at: usize, s: &[u8])
    requires { at + length s.now ≤ length buf.old }
    ensures { buf.new ≡ laid_at at s.now buf.old }
{
    let end = at + s.len();
    buf[at..end].copy_from_slice(s);
}

// Copies `src` over `buf` from the place `at` on and says true, if it fits; else changes nothing and says false.
pub fn copy_at(buf: &mut [u8], at: usize, src: &[u8]) -> bool
    ensures { Laid at src.now buf.old result buf.new }
{
    if !fits(buf.len(), at, src.len()) {
        return false;
    }
    lay_at(buf, at, src);
    true
}

// Copies `src` over the start of `buf`, N octets at once, the last of which may hold some that are copied already.
fn copy_by<const N: usize>(buf: &mut [u8], src: &[u8])
    requires some { (0 < N) × (N ≤ length src.now) }
    requires room { length src.now ≤ length buf.old }
    ensures { buf.new ≡ over src.now buf.old }
{
    for i in 0..(src.len() - 1) / N {
        lay_at(buf, N * i, &array_at::<N>(src, N * i));
    }
    let last = src.len() - N;
    lay_at(buf, last, &array_at::<N>(src, last));
}

// Copies `src` over the start of `buf`, by the largest of these widths that it has. Each goes through an array, so that the compiler knows
// that source and target are apart: of the library's own `copy_from_slice` between two lent slices it makes a call of `memmove`, which no
// caller in C had to have.
fn copy(buf: &mut [u8], src: &[u8])
    requires { length src.now ≤ length buf.old }
    ensures { buf.new ≡ over src.now buf.old }
{
    match src.len() {
        0 => {}
        1..=3 => copy_by::<1>(buf, src),
        4..=7 => copy_by::<4>(buf, src),
        8..=15 => copy_by::<8>(buf, src),
        16..=63 => copy_by::<16>(buf, src),
        _ => copy_by::<64>(buf, src),
    }
}

// The same as `copy_at`, where `src` may be long. Inlined, as the next: by calls 61 values of 64 octets are written with 14 % more
// instructions.
#[inline]
pub fn copy_long(buf: &mut [u8], at: usize, src: &[u8]) -> bool
    ensures { Laid at src.now buf.old result buf.new }
{
    if !fits(buf.len(), at, src.len()) {
        return false;
    }
    copy(&mut buf[at..], src);
    true
}

// Copies the first sixteen octets of `src`, or as many as it has, over `buf` from the place `at` on and says true, if they fit; else
// changes nothing and says false. Sixteen go at once, through an array. By a call, 2,038 attributes of two octets are read with 20 % more
// instructions, and written with 18 % more.
#[inline]
pub fn copy_sixteen(buf: &mut [u8], at: usize, src: &[u8]) -> bool
    ensures { Laid at (part_of src.now 0 16) buf.old result buf.new }
{
    let Some(sixteen) = src.first_chunk::<16>() else {
        return copy_long(buf, at, src);
    };
    let sixteen = *sixteen;
    copy_at(buf, at, &sixteen)
}

// Whether `x` is a decimal digit.
pub fn is_digit(x: u8) -> bool
    ensures { result ≡ is_digit x }
{
    (b'0' <= x) & (x <= b'9')
}

// Whether `x` is a hexadecimal digit; "hexadecimal letters are upper case only".
pub fn is_hex(x: u8) -> bool
    ensures { result ≡ is_hex x }
{
    is_digit(x) | ((b'A' <= x) & (x <= b'F'))
}

// What a decimal or hexadecimal digit stands for, `A` for 10; some number for any other octet.
pub fn digit_value(x: u8) -> u8
    ensures { result ≡ digit_value x }
{
    if b'9' < x {
        return x - 55;
    }
    if x < b'0' {
        return 0;
    }
    x - b'0'
}

// The same, below 16 for every octet.
pub fn half_of(x: u8) -> u8
    ensures { result ≡ digit_value x % 16 }
{
    digit_value(x) % 16
}

// Whether eight octets are decimal digits: tested at once.
fn eight_digits(eight: &[u8; 8]) -> bool
    ensures { result ≡ all is_digit eight.now }
{
    beyond(turned(number_of_eight(eight))) == 0
}

// Whether all of many eights of octets are decimal digits.
fn eights_are_digits(eights: &[[u8; 8]]) -> bool
    ensures { result ≡ list_all (all is_digit) eights.now }
{
    eights.iter().all(|eight| eight_digits(eight))
}

// Whether every octet of `s` is a decimal digit, by eights, the last of which may hold some that are tested already: of 5 to 15 digits
// in 5.4 ns, where a test of each takes 10.5 and one pass without a way out 7.3.
pub fn all_digits(s: &[u8]) -> bool
    ensures { result ≡ all is_digit s.now }
{
    let Some(last) = s.last_chunk::<8>() else {
        return s.iter().fold(true, |ok, x| ok & is_digit(*x));
    };
    let (eights, _) = s.as_chunks::<8>();
    eights_are_digits(eights) && eight_digits(last)
}

// Whether sixteen octets are hexadecimal digits. All are tested, so that they can be tested at once.
fn hex_sixteen(sixteen: &[u8; 16]) -> bool
    ensures { result ≡ all is_hex sixteen.now }
{
    sixteen.iter().fold(true, |ok, x| ok & is_hex(*x))
}

// Whether all of many sixteens of octets are hexadecimal digits.
fn sixteens_are_hex(sixteens: &[[u8; 16]]) -> bool
    ensures { result ≡ list_all (all is_hex) sixteens.now }
{
    sixteens.iter().all(|sixteen| hex_sixteen(sixteen))
}

// Whether every octet of `s` is a hexadecimal digit, by sixteens, the last of which may hold some that are tested already: so that it ends
// behind the first sixteen that are not. The shape of `all_digits`, at another width and by another test: one over both would be handed
// the test as a closure, with what it promises of each part, and be no plainer. The law is one (`chunks_last`).
pub fn all_hex(s: &[u8]) -> bool
    ensures { result ≡ all is_hex s.now }
{
    let Some(last) = s.last_chunk::<16>() else {
        return s.iter().fold(true, |ok, x| ok & is_hex(*x));
    };
    let (sixteens, _) = s.as_chunks::<16>();
    sixteens_are_hex(sixteens) && hex_sixteen(last)
}

// The octets that `n` halves are packed in: "half the count, rounded up".
pub fn packed_len(n: usize) -> usize
    ensures { result ≡ packed_length n }
{
    n / 2 + n % 2
}

// Two halves in one octet, the first in the high half.
fn pair(high: u8, low: u8) -> u8
    requires { (high < 16) × (low < 16) }
    ensures { result ≡ high * 16 + low }
{
    high * 16 + low
}

// The smaller of two numbers.
pub fn least(a: usize, b: usize) -> usize
    ensures { result ≡ min a b }
{
    a.min(b)
}

impl Digits {
    // No digits.
    pub fn none() -> Digits
        ensures { result ≡ digits_of [] }
    {
        Digits {
            octets: [15u8; 15],
            len: 0,
        }
    }
}

// The digits that eight octets hold, the high half of each first, fifteen of them, with the count of those that are meant.
fn spread(e: [u8; 8], len: usize) -> Digits
    ensures { (result.octets ≡ unpack 15 e) × (result.len ≡ len) }
{
    Digits {
        octets: [
            e[0] / 16,
            e[0] % 16,
            e[1] / 16,
            e[1] % 16,
            e[2] / 16,
            e[2] % 16,
            e[3] / 16,
            e[3] % 16,
            e[4] / 16,
            e[4] % 16,
            e[5] / 16,
            e[5] % 16,
            e[6] / 16,
            e[6] % 16,
            e[7] / 16,
        ],
        len,
    }
}

// Eight octets as a number: read at once.
fn number_of_eight(eight: &[u8; 8]) -> u64
    ensures { octets_of 8 result ≡ eight.now }
{
    u64::from_be_bytes(*eight)
}

// The eight octets at a place, as a number.
fn eight_at(s: &[u8], at: usize) -> u64
    requires { at + 8 ≤ length s.now }
    ensures { octets_of 8 result ≡ part_of s.now at 8 }
{
    number_of_eight(&array_at::<8>(s, at))
}

// Eight octets, each with the two bits turned that tell a decimal digit's text from its value.
fn turned(a: u64) -> u64
    ensures { octets_of 8 result ≡ turned_of (octets_of 8 a) }
{
    a ^ 0x3030303030303030
}

// 0 where each of eight octets is at most 9: it has no high half, nor has it one with 6 more.
fn beyond(d: u64) -> u64
    ensures { eqb result 0 ≡ below_ten (octets_of 8 d) }
{
    let more = (d & 0x0F0F0F0F0F0F0F0F) + 0x0606060606060606;
    (d & 0xF0F0F0F0F0F0F0F0) | (more & 0xF0F0F0F0F0F0F0F0)
}

// Eight octets of at most 9 each, two to an octet: a number of four octets.
fn in_four(x: u64) -> u64
    requires { below_ten (octets_of 8 x) ≡ true }
    ensures { result ≡ number_of (pack (octets_of 8 x)) }
{
    let y = (x + (x >> 4)) & 0x00FF00FF00FF00FF;
    let z = (y + (y >> 8)) & 0x0000FFFF0000FFFF;
    (z + (z >> 16)) & 0x00000000FFFFFFFF
}

// 8 to 15 digits: the first eight and the last eight, which may be some of the same.
fn long_digits(text: &[u8]) -> u64
    requires { (8 ≤ length text.now) × (length text.now ≤ 15) }
    ensures { result ≡ gathered_of text.now }
{
    let n = text.len();
    let a = turned(eight_at(text, 0));
    let b = turned(eight_at(text, n - 8));
    if (beyond(a) | beyond(b)) != 0 {
        return 0;
    }
    let s = (4 * (16 - n)) as u64;
    let low = (in_four(b) << s) % 4294967296;
    (in_four(a) << 32) + (low + ((1u64 << s) - 1))
}

// 4 to 7 digits: the first four and the last four, which may be some of the same.
fn short_digits(text: &[u8]) -> u64
    requires { (4 ≤ length text.now) × (length text.now ≤ 7) }
    ensures { result ≡ gathered_of text.now }
{
    let n = text.len();
    let x = turned((u32_at(text, 0) as u64) * 4294967296 + (u32_at(text, n - 4) as u64));
    if beyond(x) != 0 {
        return 0;
    }
    let h = in_four(x);
    let s = (4 * (8 - n)) as u64;
    let low = ((h << s) % 65536) + ((1u64 << s) - 1);
    ((h / 65536) << 48) + ((low << 32) + 4294967295)
}

// At most three digits, each put before those behind it; what no digit fills is 15s.
fn few_digits(text: &[u8]) -> u64
    requires { length text.now ≤ 3 }
    ensures { result ≡ gathered_of text.now }
{
    if !all_digits(text) {
        return 0;
    }
    text.iter().rev().fold(
        u64::MAX,
        |p, x| p / 16 + u64::from(*x % 16) * 1152921504606846976,
    )
}

// The digits of a text of at most 15, two to an octet from the high end of a number on, with 15s behind them; 0 where one is no
// digit or there are more, which no digits give (`gathered_of`). As an Option each of the three below would wrap a number that says it
// already, and be no plainer. None of them goes through memory: 13.8 ns, where a walk over the digits of a text takes 19.
fn gathered(text: &[u8]) -> u64
    ensures { result ≡ gathered_of text.now }
{
    match text.len() {
        0..=3 => few_digits(text),
        4..=7 => short_digits(text),
        8..=15 => long_digits(text),
        _ => 0,
    }
}

// The digits of a text of 1 to 15 decimal digits; none of any other.
pub fn digits_of(text: &[u8]) -> Digits
    ensures { result ≡ got_of text.now }
{
    let p = gathered(text);
    if p == 0 {
        return Digits::none();
    }
    spread(u64_octets(p), text.len())
}

// The digits, each modulo 16, two to an octet: eight octets, the last low half of which is 15.
pub fn packed(d: Digits) -> [u8; 8]
    ensures { result ≡ eight_of d }
{
    [
        pair(d.octets[0] % 16, d.octets[1] % 16),
        pair(d.octets[2] % 16, d.octets[3] % 16),
        pair(d.octets[4] % 16, d.octets[5] % 16),
        pair(d.octets[6] % 16, d.octets[7] % 16),
        pair(d.octets[8] % 16, d.octets[9] % 16),
        pair(d.octets[10] % 16, d.octets[11] % 16),
        pair(d.octets[12] % 16, d.octets[13] % 16),
        pair(d.octets[14] % 16, 15),
    ]
}

// The octet at `i` of the packed halves of a text, where the text has both of them.
fn two_halves(text: &[u8], i: usize) -> u8
    requires { i < length text.now / 2 }
    ensures { result ≡ get_or (pack (halves text.now)) i 0 }
{
    pair(half_of(text[2 * i]), half_of(text[2 * i + 1]))
}

// Writes eight octets of the packed halves of a text at a place, where those before it are written.
fn pack_eight(buf: &mut [u8], text: &[u8], at: usize)
    requires { Overlaid (pack (halves text.now)) buf.old buf.old at × (at + 8 ≤ length text.now / 2) }
    ensures { Overlaid (pack (halves text.now)) buf.old buf.new (at + 8) }
{
    let eight = [
        two_halves(text, at),
        two_halves(text, at + 1),
        two_halves(text, at + 2),
        two_halves(text, at + 3),
        two_halves(text, at + 4),
        two_halves(text, at + 5),
        two_halves(text, at + 6),
        two_halves(text, at + 7),
    ];
    lay_at(buf, at, &eight);
}

// Writes what is left of the packed halves of a text from a place on, where the octets before it are written; beside
// an odd last half stands 15.
fn pack_rest(buf: &mut [u8], text: &[u8], at: usize)
    requires { Overlaid (pack (halves text.now)) buf.old buf.old at × (at ≤ length text.now / 2) }
    ensures { buf.new ≡ over (pack (halves text.now)) buf.old }
{
    let pairs = text.len() / 2;
    for i in at..pairs {
        buf[i] = two_halves(text, i);
    }
    if 2 * pairs < text.len() {
        buf[pairs] = pair(half_of(text[2 * pairs]), 15);
    }
}

// Writes the halves of `text`, two to an octet, over the start of `buf`, by eights, the last of which may hold some that are
// written already: of 8 to 32 halves in 8.4 ns, where a walk over the pairs takes 11.5.
fn pack_text(buf: &mut [u8], text: &[u8])
    requires { packed_length (length text.now) ≤ length buf.old }
    ensures { buf.new ≡ over (pack (halves text.now)) buf.old }
{
    let pairs = text.len() / 2;
    if pairs < 8 {
        pack_rest(buf, text, 0);
        return;
    }
    let last = pairs - 8;
    for i in 0..(pairs - 1) / 8 {
        pack_eight(buf, text, 8 * i);
    }
    pack_eight(buf, text, last);
    pack_rest(buf, text, pairs);
}

// Writes the halves of `text`, two to an octet, over `buf` from the place `at` on and says true, if they fit; else changes
// nothing and says false.
pub fn pack_at(buf: &mut [u8], at: usize, text: &[u8]) -> bool
    ensures { Laid at (pack (halves text.now)) buf.old result buf.new }
{
    if !fits(buf.len(), at, packed_len(text.len())) {
        return false;
    }
    pack_text(&mut buf[at..], text);
    true
}

// How much further than the digits the letters stand.
fn letter_step(half: u8) -> u8
    ensures { result ≡ cond (leb half 9) 0 7 }
{
    if half <= 9 { 0 } else { 7 }
}

// The digit that stands for a number's low half, `A` for 10. One sum for both sorts, so that many can be made at once.
pub fn digit_text(n: u8) -> u8
    ensures { result ≡ digit_text (n % 16) }
{
    let half = n % 16;
    half + 48 + letter_step(half)
}

// The halves of `octets` octets, or `count` of them. No `min`, since twice the octets may pass the largest number.
fn half_count(octets: usize, count: usize) -> usize
    ensures { result ≡ min count (2 * octets) }
{
    if count / 2 < octets {
        count
    } else {
        2 * octets
    }
}

// Writes the text of the first `n` halves of `s` over the start of `buf`.
fn unpack_text(buf: &mut [u8], s: &[u8], n: usize)
    requires { (n ≤ length buf.old) × (n ≤ 2 * length s.now) }
    ensures { buf.new ≡ over (text (unpack n s.now)) buf.old }
{
    let pairs = n / 2;
    for (i, x) in s[..pairs].iter().enumerate() {
        buf[2 * i] = digit_text(*x / 16);
        buf[2 * i + 1] = digit_text(*x);
    }
    if 2 * pairs < n {
        buf[2 * pairs] = digit_text(s[pairs] / 16);
    }
}

// Writes the text of the first `count` halves of `s` over `buf` from the place `at` on and says true, if it fits; else changes
// nothing and says false.
pub fn unpack_at(buf: &mut [u8], at: usize, s: &[u8], count: usize) -> bool
    ensures { Laid at (text (unpack count s.now)) buf.old result buf.new }
{
    let n = half_count(s.len(), count);
    if !fits(buf.len(), at, n) {
        return false;
    }
    unpack_text(&mut buf[at..], s, n);
    true
}
