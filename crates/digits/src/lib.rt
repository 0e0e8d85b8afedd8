// Hex digits: the value of one, and the digit of a value.
#![tactic(auto)]

ghost use Rattle.digits.specs.Digit.{IsValue, IsDigit};

// The value of what is no digit. A number and no `Option`: digits that are read by `?` take three times as long, by `is_some` and `unwrap_or` up to a tenth longer.
pub const NONE: u8 = 16;

// The value of a digit of either case, and `NONE` for any other byte. Both cases of a letter share one count: 1 is taken from the byte and the bit
// in which the cases differ is cleared, so that A to F and a to f come to 0x40 to 0x45, counted 10 to 15. What would count 0 to 9, 0x36 to 0x3F,
// has that bit set, so no byte comes to it; all others count 16 or more, and one comparison is enough. Without the 1 taken away `@` would be 9.
// Both counts are made before the tests, so that the compiler chooses without a branch, which a processor guesses wrong on random digits.
pub fn value(byte: u8) -> u8
    ensures { IsValue byte result }
{
    let number = std::num::wrapping_sub_u8(byte, b'0');
    let one_less = std::num::wrapping_sub_u8(byte, 1);
    let letter = std::num::wrapping_sub_u8(one_less & 0xDF, 0x40 - 10);
    let mut least = NONE;
    if number < 10 {
        least = number;
    }
    if letter < least {
        least = letter;
    }
    least
}

// The digit of a value, in upper case; of a value that no digit has, that of its last place.
pub fn digit(value: u8) -> u8
    ensures { IsDigit value result }
{
    let last = value % 16;
    if last < 10 {
        return b'0' + last;
    }
    b'A' + (last - 10)
}
