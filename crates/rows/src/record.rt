// A record as a line of text: a colon, its bytes as digits, CR LF.
ghost use Rattle.std.specs.Prelude.{◌≡◌, ◌+◌, ◌*◌, ◌<◌, ◌≤◌, length};
ghost use Rattle.std.proofs.lemmas.List.Edits.{sets};
ghost use Rattle.rows.specs.Record.{record_line, beside_data};
ghost use Rattle.rows.specs.Places.{Spelt};

// The bytes of a line beside the digits of its data: the colon, two digits for each of five bytes, CR LF.
pub(crate) const BESIDE: usize = 13;

// The types of the records that a text has.
pub(crate) const DATA: u8 = 0x00;

pub(crate) const END: u8 = 0x01;

pub(crate) const UPPER: u8 = 0x04;

// Bytes as digits from a place on. What comes back is the sum so far and theirs, modulo 256.
fn spell(bytes: &[u8], sum: u8, text: &mut [u8], at: usize) -> u8
    requires { at + 2 * length bytes.now ≤ length text.old }
    ensures { Spelt bytes.now sum text.old at result text.new }
{
    let mut added = sum;
    for (j, byte) in bytes.iter().enumerate() {
        text[at + 2 * j] = digits::digit(*byte / 16);
        text[at + 2 * j + 1] = digits::digit(*byte);
        added = added.wrapping_add(*byte);
    }
    added
}

// The line from a place on. Of the address the lower half is told.
pub(crate) fn put_line(text: &mut [u8], at: usize, address: usize, kind: u8, bytes: &[u8])
    requires { (length bytes.now < 256) × (at + (beside_data + 2 * length bytes.now) ≤ length text.old) }
    ensures { text.new ≡ sets text.old at (record_line address kind bytes.now) }
{
    let n = bytes.len();
    let head = [
        n as u8,
        (address / 256 % 256) as u8,
        (address % 256) as u8,
        kind,
    ];
    text[at] = b':';
    let begun = spell(&head, 0, text, at + 1);
    let sum = spell(bytes, begun, text, at + 9);
    let end = at + 9 + 2 * n;
    let checksum = [0u8.wrapping_sub(sum)];
    spell(&checksum, 0, text, end);
    text[end + 2] = b'\r';
    text[end + 3] = b'\n';
}
