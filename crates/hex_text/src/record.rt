// The record of a line, and what it says.
ghost use Rattle.std.specs.Prelude.{◌≡◌, ◌+◌, ◌*◌, ◌<◌, ◌≤◌, length};
ghost use Rattle.hex_text.specs.Record.{record_count, data_at, typed};
ghost use Rattle.hex_text.specs.Places.{bytes_at, SpelledAt, Summed, LookFits, Looked};

use crate::fault::{Fault, Kind};
use crate::pair::{pair_at, value_at};
use buffer::number::number;

// As many bytes as a record has at most: a count of 255, and 5 beside the data.
pub(crate) const LONGEST: usize = 260;

// The byte of a line that its colon is: there H3 to H5 are told, which are of the whole record.
const COLON: usize = 1;

// Where the reading stands: the upper half of addresses, the end of earlier data, whether the end record was seen.
#[derive(Clone, Copy)]
pub struct State {
    pub upper: u16,
    pub last: usize,
    pub over: bool,
}

// What a line says that has no fault.
#[derive(Clone, Copy, PartialEq, Eq)]
pub enum Found {
    Data { start: usize, n: usize },
    Upper(u16),
    End,
    Other,
}

// What `k` pairs of digits behind the line's first byte spell, to the front of `bytes`, and their sum modulo 256; `None` where one pair is no byte.
// The loop has no way out, so that the compiler takes many at once.
fn spell(line: &[u8], k: usize, bytes: &mut [u8]) -> Option<u8>
    requires { (1 + 2 * k ≤ length line.now) × (k ≤ length bytes.old) }
    ensures { SpelledAt (bytes_at line.now 1 k) bytes.old bytes.new result }
{
    let mut sum: u8 = 0;
    let mut good = true;
    for j in 0..k {
        let g = pair_at(line, 2 * j + 1);
        let b = value_at(line, 2 * j + 1);
        bytes[j] = b;
        good = good & g;
        sum = sum.wrapping_add(b);
    }
    if good { Some(sum) } else { None }
}

// The bytes of the line's record, to the front of `bytes`, and their sum modulo 256; `None` where the line is no record.
fn record_sum(line: &[u8], bytes: &mut [u8]) -> Option<u8>
    requires { 260 ≤ length bytes.old }
    ensures { Summed line.now bytes.old bytes.new result }
{
    let len = line.len();
    if len < 11 {
        return None;
    }
    if 2 * LONGEST + 1 < len {
        return None;
    }
    if len % 2 == 0 {
        return None;
    }
    if line[0] != b':' {
        return None;
    }
    let k = len / 2;
    let sum = spell(line, k, bytes)?;
    if k != usize::from(bytes[0]) + 5 {
        return None;
    }
    Some(sum)
}

// `count` data bytes from `start` on: inside the bank, and not below the end of earlier data.
fn data_at(
    base: usize,
    size: usize,
    last: usize,
    start: usize,
    count: usize,
) -> Result<Found, Fault>
    requires { (base + size < 8589934592) × (start + count < 8589934592) }
    ensures { result ≡ data_at base size last start count }
{
    if count == 0 {
        return Ok(Found::Other);
    }
    if start < base {
        return Err(Fault(Kind::H4, COLON));
    }
    if base + size < start + count {
        return Err(Fault(Kind::H4, COLON));
    }
    if start < last {
        return Err(Fault(Kind::H5, COLON));
    }
    Ok(Found::Data { start, n: count })
}

// What a record of these bytes says.
fn typed_at(bytes: &[u8], base: usize, size: usize, state: State) -> Result<Found, Fault>
    requires { (record_count bytes.now + 5 ≤ length bytes.now) × LookFits base size }
    ensures { result ≡ typed base size state.upper state.last bytes.now }
{
    let n = bytes[0];
    let address = usize::from(number::<u16, _>(bytes, 1));
    let kind = bytes[3];
    if kind == 0 {
        return data_at(
            base,
            size,
            state.last,
            usize::from(state.upper) * 65536 + address,
            usize::from(n),
        );
    }
    if address != 0 {
        return Err(Fault(Kind::H3, COLON));
    }
    match (kind, n) {
        (1, 0) => Ok(Found::End),
        (4, 2) => Ok(Found::Upper(number(bytes, 4))),
        (5, 4) => Ok(Found::Other),
        _ => Err(Fault(Kind::H3, COLON)),
    }
}

// What a line says; its record's bytes go to the front of `bytes`. Where a line that is no record goes wrong is looked for only then, so that good
// text is not read twice. A checksum is a record's last two digits.
pub(crate) fn look(
    line: &[u8],
    base: usize,
    size: usize,
    state: State,
    bytes: &mut [u8],
) -> Result<Found, Fault>
    requires { LookFits base size × (260 ≤ length bytes.old) }
    ensures { Looked line.now base size state bytes.new result }
{
    if state.over {
        return Err(Fault(Kind::H6, 1));
    }
    let Some(sum) = record_sum(line, bytes) else {
        return Err(Fault(Kind::H1, crate::place::place_of(line)));
    };
    if sum != 0 {
        return Err(Fault(Kind::H2, line.len() - 1));
    }
    let k = line.len() / 2;
    typed_at(&bytes[..k], base, size, state)
}
