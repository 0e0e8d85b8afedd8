// The fields of a line, and what they say.
ghost use Rattle.std.specs.Prelude.{◌≡◌, true, ◌+◌, ◌*◌, ◌/◌, ◌<◌, ◌≤◌, length, get_or, position, ◌==◌};
ghost use Rattle.buffer.specs.Place.{front_of};
ghost use Rattle.digits.specs.Digit.{value_of};
ghost use Rattle.script.specs.Text.{IsFirst, IsRest, IsEndsInBlank};
ghost use Rattle.script.specs.Spelt.{all_digits, with_digit, number_in, within32, said_in, IsHex, IsDecimal};
ghost use Rattle.script.specs.Spelt.{bytes_in, spells_bytes, is_byte, IsByte, IsBytes, IsBank};

use layout::Bank;

// The place of the first blank.
fn blank(text: &[u8]) -> Option<usize>
    ensures { result ≡ position (λ b. b == 0x20) text.now }
{
    text.iter().position(|b| *b == b' ')
}

pub fn first(text: &[u8]) -> &[u8]
    ensures { IsFirst text.now result.now }
{
    match blank(text) {
        Some(end) => &text[..end],
        None => text,
    }
}

// What stands after the first field and its blank; nothing where there is no blank.
pub fn rest(text: &[u8]) -> &[u8]
    ensures { IsRest text.now result.now }
{
    match blank(text) {
        Some(end) => &text[end + 1..],
        None => &[],
    }
}

// Whether the last field is an empty one, behind a blank.
pub fn ends_in_blank(text: &[u8]) -> bool
    ensures { IsEndsInBlank text.now result }
{
    matches!(text, [.., b' '])
}

// Whether each byte is a digit of the base.
fn all_digits(text: &[u8], base: u8) -> bool
    ensures { result ≡ all_digits base text.now }
{
    text.iter().all(|digit| digits::value(*digit) < base)
}

const LARGEST_VALUE: usize = 0xFFFF_FFFF;

// One digit more behind a number.
fn more(number: usize, base: u8, digit: u8) -> usize
    requires { (number ≤ 0xFFFFFFFF) × (base ≤ 16) }
    ensures { result ≡ with_digit base number digit }
{
    let unit = usize::from(base);
    let worth = usize::from(digits::value(digit));
    number * unit + worth
}

// The number that the digits spell, if it is no larger than 32 bits hold.
fn value(text: &[u8], base: u8) -> Option<usize>
    requires { (0 < base) × (base ≤ 16) }
    ensures { result ≡ within32 (number_in base text.now) }
{
    let mut number: usize = 0;
    for digit in text {
        if number > LARGEST_VALUE {
            return None;
        }
        number = more(number, base, *digit);
    }
    if number > LARGEST_VALUE {
        return None;
    }
    Some(number)
}

// The same where each byte is a digit.
fn said(text: &[u8], base: u8) -> Option<usize>
    requires { (0 < base) × (base ≤ 16) }
    ensures { result ≡ said_in base text.now }
{
    if all_digits(text, base) {
        return value(text, base);
    }
    None
}

// A number of exactly so many hex digits.
pub fn number(text: &[u8], digits: usize) -> Option<usize>
    ensures { IsHex text.now digits result }
{
    if text.len() != digits {
        return None;
    }
    said(text, 16)
}

// Of six digits.
pub const LARGEST_NUMBER: usize = 999_999;

// A decimal number of one to so many digits.
pub fn decimal(text: &[u8], most: usize) -> Option<usize>
    ensures { IsDecimal text.now most result }
{
    if text.len() == 0 {
        return None;
    }
    if text.len() > most {
        return None;
    }
    said(text, 10)
}

// A bank by its number.
pub fn bank(text: &[u8]) -> Option<Bank>
    ensures { IsBank text.now result }
{
    match text {
        b"0" => Some(Bank::Zero),
        b"1" => Some(Bank::One),
        _ => None,
    }
}

fn is_none(text: &[u8]) -> bool
    ensures { result ≡ is_byte text.now 0x2D }
{
    matches!(text, [b'-'])
}

// Whether `text` spells bytes, and no more than there is room for.
fn spells(text: &[u8], room: usize) -> bool
    ensures { result ≡ spells_bytes text.now room }
{
    if text.len() == 0 {
        return false;
    }
    if text.len() % 2 != 0 {
        return false;
    }
    if text.len() / 2 > room {
        return false;
    }
    all_digits(text, 16)
}

// The byte that the digits at `at` and behind it spell.
fn byte_at(text: &[u8], at: usize) -> u8
    requires { (at + 1 < length text.now) × (all_digits 16 text.now ≡ true) }
    ensures { result ≡ value_of (get_or text.now at 0) * 16 + value_of (get_or text.now (at + 1) 0) }
{
    let high = digits::value(text[at]);
    let low = digits::value(text[at + 1]);
    high * 16 + low
}

// A byte of two hex digits.
pub fn byte(text: &[u8]) -> Option<u8>
    ensures { IsByte text.now result }
{
    if text.len() == 2 && all_digits(text, 16) {
        return Some(byte_at(text, 0));
    }
    None
}

// What they all spell, to the front of `into`.
fn put(text: &[u8], into: &mut [u8])
    requires { (length text.now / 2 ≤ length into.old) × (all_digits 16 text.now ≡ true) }
    ensures { into.new ≡ front_of into.old (bytes_in text.now) }
{
    for i in 0..text.len() / 2 {
        into[i] = byte_at(text, 2 * i);
    }
}

// Puts the bytes that `text` spells to the front of `into` and says how many they are; `None` where it spells none.
#[tactic(auto, using(crate::proofs::Spelt::length_bytes))]
pub fn bytes(text: &[u8], into: &mut [u8]) -> Option<usize>
    ensures { IsBytes text.now into.old into.new result }
{
    if spells(text, into.len()) {
        put(text, into);
        return Some(text.len() / 2);
    }
    if is_none(text) {
        return Some(0);
    }
    None
}
