// Where a line that is no record goes wrong.
ghost use Rattle.std.specs.Prelude.{◌≡◌, slice_index};
ghost use Rattle.digits.specs.Digit.{is_digit};
ghost use Rattle.hex_text.specs.Record.{digits_due, digits_in};
ghost use Rattle.hex_text.specs.Places.{Placed};

use crate::pair::{pair_at, value_at};

// The digits due behind a colon where no count is spelled: more than stand before what spells none.
const NO_COUNT: usize = 2 * (256 + 5);

// How many digits are due behind the colon.
fn digits_due(behind: &[u8]) -> usize
    ensures { result ≡ digits_due behind.now }
{
    if behind.len() < 2 {
        return NO_COUNT;
    }
    if !pair_at(behind, 0) {
        return NO_COUNT;
    }
    2 * (usize::from(value_at(behind, 0)) + 5)
}

// How many there are of those that are due.
fn digits_in(behind: &[u8], due: usize) -> usize
    ensures { result ≡ digits_in due behind.now }
{
    behind
        .iter()
        .take(due)
        .take_while(|byte| digits::value(**byte) < digits::NONE)
        .count()
}

// The first byte of the line that can't belong, or one past its end, counted from 1.
pub(crate) fn place_of(line: &[u8]) -> usize
    ensures { Placed line.now result }
{
    if line.len() == 0 {
        return 1;
    }
    if line[0] != b':' {
        return 1;
    }
    let due = digits_due(&line[1..]);
    digits_in(&line[1..], due) + 2
}
