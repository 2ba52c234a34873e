// Which form the value of an attribute takes: the shape of the number that it carries, whether the value meets it, and the item of
// the sheet that the attribute gives. Each public function takes any arguments.
#![tactic(auto)]

ghost use Rattle.std.specs.Prelude.{◌≡◌, cond, ◌&&◌, ◌/◌, ◌%◌, ◌<◌, eqb, length};
ghost use Rattle.meaning.specs.Versions.{current};
ghost use Rattle.meaning.specs.Octets.{all, is_hex, digit_value};
ghost use Rattle.meaning.specs.Shapes.{digits, qos, plain_shape, gpp_shape, shape_of, release};
ghost use Rattle.meaning.specs.Shapes as meant;
ghost use Rattle.meaning.specs.Framing.{is_plain};
ghost use Rattle.meaning.specs.Sheet.{form_of, stored_length};
ghost use Rattle.shape.specs.Codes.{code_of, shape_by};
ghost use Rattle.shape.specs.Items.{undigited, raw_item, item_for, FourOctets};

// The 3GPP numbers that have a shape, as carried numbers: 256 more than the sub-attribute's.
pub const IMSI: u16 = 257;

const CHARGING_ID: u16 = 258;

pub const PDP_TYPE: u16 = 259;

const CG_ADDRESS: u16 = 260;

const QOS_PROFILE: u16 = 261;

const SGSN_ADDRESS: u16 = 262;

const GGSN_ADDRESS: u16 = 263;

const IMSI_MCC_MNC: u16 = 264;

const GGSN_MCC_MNC: u16 = 265;

const NSAPI: u16 = 266;

pub const STOP_INDICATOR: u16 = 267;

pub const SELECTION_MODE: u16 = 268;

pub const SGSN_MCC_MNC: u16 = 274;

// The codes of the shapes. The tens of a code are the form of the shape, 0 where it has none of its own, and the ones tell the shapes of
// one form apart: a least length, 17 octets or blocks of 16; a number, an address, 1 to 15 digits, 5 or 6 digits, hexadecimal text, a QoS
// profile, one hexadecimal digit, any octet, one decimal digit. 0 is no shape. Numbers and no enum, since `meets_code`, `item::is_raw`,
// `takes_digits` and `is_octet` promise an answer for every octet as a code.
pub const AT_LEAST_ONE: u8 = 1;

pub const AT_LEAST_FIVE: u8 = 2;

pub const SEVENTEEN: u8 = 3;

pub const BLOCKS: u8 = 4;

pub const NUMBER: u8 = 20;

pub const ADDRESS: u8 = 30;

pub const LONG_DIGITS: u8 = 40;

pub const SHORT_DIGITS: u8 = 41;

pub const HEXADECIMAL: u8 = 50;

pub const QOS: u8 = 60;

pub const HEX_DIGIT: u8 = 70;

pub const ANY_OCTET: u8 = 71;

pub const DECIMAL_DIGIT: u8 = 72;

// An item's value, "either a number, an address, digits" or octets as they stand, a part of the area. The digits stand beside it: that form
// is asked for by name (docs/TRACE.md, "digits stand beside it").
#[derive(Clone, Copy)]
pub enum Value {
    Number(u32),
    Address(u32),
    Digits,
    Plain(area::Part),
}

// An item of the sheet: the number that it carries, 0 to 255 for a plain one and 256 more than the sub-attribute's for a 3GPP one,
// its form and count, its value, and the digits in form 4. The form is the octet that stands in the sheet, as `item_for` says it.
#[derive(Clone, Copy)]
pub struct Item {
    pub number: u16,
    pub form: u8,
    pub count: usize,
    pub value: Value,
    pub digits: octets::Digits,
}

// The code of a plain number's shape.
fn plain_code(t: u16) -> u8
    ensures { result ≡ code_of (plain_shape t) }
{
    match t {
        1 => AT_LEAST_ONE,
        2 => BLOCKS,
        3 => SEVENTEEN,
        4 => ADDRESS,
        6 => NUMBER,
        7 => NUMBER,
        8 => ADDRESS,
        9 => ADDRESS,
        18 => AT_LEAST_ONE,
        24 => AT_LEAST_ONE,
        25 => AT_LEAST_ONE,
        30 => AT_LEAST_ONE,
        31 => LONG_DIGITS,
        32 => AT_LEAST_ONE,
        40 => NUMBER,
        41 => NUMBER,
        42 => NUMBER,
        43 => NUMBER,
        44 => HEXADECIMAL,
        45 => NUMBER,
        46 => NUMBER,
        47 => NUMBER,
        48 => NUMBER,
        49 => NUMBER,
        60 => AT_LEAST_FIVE,
        61 => NUMBER,
        _ => 0,
    }
}

// The code of a 3GPP number's shape.
fn gpp_code(s: u16) -> u8
    ensures { result ≡ code_of (gpp_shape s) }
{
    match s {
        1 => LONG_DIGITS,
        2 => NUMBER,
        3 => NUMBER,
        4 => ADDRESS,
        5 => QOS,
        6 => ADDRESS,
        7 => ADDRESS,
        8 => SHORT_DIGITS,
        9 => SHORT_DIGITS,
        10 => HEX_DIGIT,
        11 => ANY_OCTET,
        12 => DECIMAL_DIGIT,
        18 => SHORT_DIGITS,
        _ => 0,
    }
}

// The code of the shape of a carried number, whatever the number.
pub fn code_of(number: u16) -> u8
    ensures { result ≡ code_of (shape_of number) }
{
    if number < 256 {
        return plain_code(number);
    }
    gpp_code(number - 256)
}

// Whether a value is `least` to `most` decimal digits.
fn meets_digits(value: &[u8], least: usize, most: usize) -> bool
    ensures { result ≡ meant.meets current (digits least most) value.now }
{
    if value.len() < least {
        return false;
    }
    if most < value.len() {
        return false;
    }
    octets::all_digits(value)
}

// Whether a value is `count` hexadecimal digits.
fn meets_hex(value: &[u8], count: usize) -> bool
    ensures { result ≡ eqb (length value.now) count && all is_hex value.now }
{
    if value.len() != count {
        return false;
    }
    octets::all_hex(value)
}

// Whether a value is "98-" or "99-", by the second digit, and `count` hexadecimal digits.
#[tactic(auto, using(crate::proofs::Meeting::release_dash))]
fn meets_release(value: &[u8], second: u8, count: usize) -> bool
    requires { count < 256 }
    ensures { result ≡ release current 57 second count value.now }
{
    if value.len() != 3 + count {
        return false;
    }
    if value[0] != b'9' {
        return false;
    }
    if value[1] != second {
        return false;
    }
    if value[2] != b'-' {
        return false;
    }
    octets::all_hex(octets::part(value, 3, count))
}

// Whether a value is a QoS profile.
fn meets_qos(value: &[u8]) -> bool
    ensures { result ≡ meant.meets current qos value.now }
{
    if meets_release(value, b'8', 6) {
        return true;
    }
    meets_release(value, b'9', 22)
}

// Whether a value is one to eight blocks of sixteen octets.
fn meets_blocks(value: &[u8]) -> bool
    ensures { result ≡ meant.meets current meant.blocks value.now }
{
    let len = value.len();
    (16 <= len) & (len <= 128) & (len % 16 == 0)
}

// Whether a value meets the shape of a code; a code that no shape has asks for nothing.
pub fn meets_code(code: u8, value: &[u8]) -> bool
    ensures { result ≡ meant.meets current (shape_by code) value.now }
{
    match code {
        AT_LEAST_ONE => 1 <= value.len(),
        AT_LEAST_FIVE => 5 <= value.len(),
        SEVENTEEN => value.len() == 17,
        BLOCKS => meets_blocks(value),
        NUMBER => value.len() == 4,
        ADDRESS => value.len() == 4,
        LONG_DIGITS => meets_digits(value, 1, 15),
        SHORT_DIGITS => meets_digits(value, 5, 6),
        HEXADECIMAL => meets_hex(value, 16),
        QOS => meets_qos(value),
        HEX_DIGIT => meets_hex(value, 1),
        ANY_OCTET => value.len() == 1,
        DECIMAL_DIGIT => meets_digits(value, 1, 1),
        _ => true,
    }
}

// Whether a value meets the shape of a carried number. It is no `meets_code` of `code_of`: so a message was checked in 373 ns in place
// of 315, and written in 352 in place of 306. Here and in `item_of`, but for digits there, the even and the odd numbers of a shape have an
// arm each: neighbours in one arm would be tested as a range, behind all the others.
pub fn meets(number: u16, value: &[u8]) -> bool
    ensures { result ≡ meant.meets current (shape_of number) value.now }
{
    match number {
        1 | 25 => 1 <= value.len(),
        18 | 24 | 30 | 32 => 1 <= value.len(),
        60 => 5 <= value.len(),
        3 => value.len() == 17,
        2 => meets_blocks(value),
        6 | 40 | 42 | 46 | 48 | CHARGING_ID => value.len() == 4,
        7 | 41 | 43 | 45 | 47 | 49 | 61 | PDP_TYPE => value.len() == 4,
        4 | 8 | CG_ADDRESS | SGSN_ADDRESS => value.len() == 4,
        9 | GGSN_ADDRESS => value.len() == 4,
        31 | IMSI => meets_digits(value, 1, 15),
        IMSI_MCC_MNC | SGSN_MCC_MNC => meets_digits(value, 5, 6),
        GGSN_MCC_MNC => meets_digits(value, 5, 6),
        44 => meets_hex(value, 16),
        QOS_PROFILE => meets_qos(value),
        NSAPI => meets_hex(value, 1),
        STOP_INDICATOR => value.len() == 1,
        SELECTION_MODE => meets_digits(value, 1, 1),
        _ => true,
    }
}

// The form of a value that stands as it is.
pub fn plain_form(number: u16) -> u8
    ensures { result ≡ cond (is_plain number) 0 1 }
{
    if number < 256 { 0 } else { 1 }
}

// The octet that form 7 stores: any octet as it stands, or what a digit stands for.
fn octet_of(code: u8, x: u8) -> u32
    ensures { result ≡ cond (eqb code 71) x (digit_value x % 16) }
{
    if code == ANY_OCTET {
        x as u32
    } else {
        octets::half_of(x) as u32
    }
}

// An item that has no digits.
fn undigited_item(number: u16, form: u8, count: usize, value: Value) -> Item
    ensures { result ≡ undigited number form count value }
{
    Item {
        number,
        form,
        count,
        value,
        digits: octets::Digits::none(),
    }
}

// The item of a value as it stands, of `count` octets.
fn raw_item(number: u16, count: usize, value: area::Part) -> Item
    ensures { result ≡ raw_item number count value }
{
    undigited_item(number, plain_form(number), count, Value::Plain(value))
}

// The item of a number whose shape is four octets: a number, in form 2, or an address, in form 3. Here and below `v` are the octets of the
// part `value`. The number, the octets and the part go apart: as a struct with methods they went through memory, and a message was read in
// 327 ns in place of 291.
fn four_item(number: u16, form: u8, v: &[u8], value: area::Part) -> Item
    requires { FourOctets (shape_of number) form }
    ensures { result ≡ item_for number v.now value }
{
    if v.len() != 4 {
        return raw_item(number, v.len(), value);
    }
    let n = octets::u32_at(v, 0);
    let shown = if form == 2 {
        Value::Number(n)
    } else {
        Value::Address(n)
    };
    undigited_item(number, form, 4, shown)
}

// The item of a number whose shape is `least` to `most` digits. Each digit is tested once, where it is taken.
#[tactic(auto, using(crate::proofs::Items::digits_not_got), unfolding(meaning::specs::Sheet::form_of))]
fn digits_item(number: u16, v: &[u8], value: area::Part, least: usize, most: usize) -> Item
    requires { shape_of number ≡ digits least most }
    ensures { result ≡ item_for number v.now value }
{
    if v.len() < least {
        return raw_item(number, v.len(), value);
    }
    if most < v.len() {
        return raw_item(number, v.len(), value);
    }
    let digits = octets::digits_of(v);
    if digits.len == 0 {
        return raw_item(number, v.len(), value);
    }
    Item {
        number,
        form: 4,
        count: v.len(),
        value: Value::Digits,
        digits,
    }
}

// The item of a number whose shape is digits: 1 to 15 of a subscriber's number, 5 or 6 of a network's. The making of the digits
// stands in the code once.
fn any_digits(number: u16, v: &[u8], value: area::Part) -> Item
    requires { form_of (shape_of number) ≡ 4 }
    ensures { result ≡ item_for number v.now value }
{
    let long = (number == 31) | (number == IMSI);
    digits_item(
        number,
        v,
        value,
        if long { 1 } else { 5 },
        if long { 15 } else { 6 },
    )
}

// The item of a number whose shape is hexadecimal text.
fn hex_item(number: u16, v: &[u8], value: area::Part) -> Item
    requires { shape_of number ≡ meant.hexadecimal }
    ensures { result ≡ item_for number v.now value }
{
    if !meets_hex(v, 16) {
        return raw_item(number, v.len(), value);
    }
    undigited_item(number, 5, 8, Value::Plain(value))
}

// The item of a number whose shape is a QoS profile.
fn qos_item(number: u16, v: &[u8], value: area::Part) -> Item
    requires { shape_of number ≡ qos }
    ensures { result ≡ item_for number v.now value }
{
    if !meets_qos(v) {
        return raw_item(number, v.len(), value);
    }
    undigited_item(
        number,
        6,
        1 + octets::packed_len(v.len() - 3),
        Value::Plain(value),
    )
}

// The item of a number whose shape is one octet: any, or a digit.
fn octet_item(code: u8, number: u16, v: &[u8], value: area::Part) -> Item
    requires { (code ≡ code_of (shape_of number)) × (code / 10 ≡ 7) }
    ensures { result ≡ item_for number v.now value }
{
    if !meets_code(code, v) {
        return raw_item(number, v.len(), value);
    }
    undigited_item(number, 7, 1, Value::Number(octet_of(code, v[0])))
}

// The item of a carried number whose value is a part of an area, with these octets.
pub fn item_of(v: &[u8], number: u16, value: area::Part) -> Item
    ensures { result ≡ item_for number v.now value }
{
    match number {
        6 | 40 | 42 | 46 | 48 | CHARGING_ID => four_item(number, 2, v, value),
        7 | 41 | 43 | 45 | 47 | 49 | 61 | PDP_TYPE => four_item(number, 2, v, value),
        4 | 8 | CG_ADDRESS | SGSN_ADDRESS => four_item(number, 3, v, value),
        9 | GGSN_ADDRESS => four_item(number, 3, v, value),
        31 | IMSI | IMSI_MCC_MNC | GGSN_MCC_MNC | SGSN_MCC_MNC => any_digits(number, v, value),
        44 => hex_item(number, v, value),
        QOS_PROFILE => qos_item(number, v, value),
        NSAPI => octet_item(HEX_DIGIT, number, v, value),
        STOP_INDICATOR => octet_item(ANY_OCTET, number, v, value),
        SELECTION_MODE => octet_item(DECIMAL_DIGIT, number, v, value),
        _ => raw_item(number, v.len(), value),
    }
}

// The octets that an item stores: its count; of digits "half the count, rounded up".
pub fn stored_len(form: u8, count: usize) -> usize
    ensures { result ≡ stored_length current form count }
{
    if form == 4 {
        octets::packed_len(count)
    } else {
        count
    }
}
