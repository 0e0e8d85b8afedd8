// The hex reader, for bank 0: what it says as numbers.
ghost use Rattle.std.specs.Prelude.{◌≡◌};
ghost use Rattle.layout.specs.Said.{place_said};
ghost use Rattle.hex_text.specs.Read.{answer_said};
ghost use Rattle.exports.specs.Text.{IsReadNumbers};

use hex_text::read::ReadError;
use layout::Bank;

// Where a text is at fault, both counted from 1; 0 where it is not.
#[derive(Clone, Copy)]
struct Place {
    line: usize,
    byte: usize,
}

fn place_of(answer: Result<(), ReadError>) -> Place
    ensures { (result.line ≡ (place_said (answer_said answer)).line) × (result.byte ≡ (place_said (answer_said answer)).byte) }
{
    match answer {
        Err(ReadError::Line(refusal)) => Place {
            line: refusal.line,
            byte: refusal.byte,
        },
        _ => Place { line: 0, byte: 0 },
    }
}

// The number comes back; it, the line and the byte go to the front of `told`, without room for which nothing is done.
pub fn hex_read(text: &[u8], n: usize, image: &mut [u8], told: &mut [usize]) -> usize
    ensures { IsReadNumbers text.now n image.old told.old result image.new told.new }
{
    if told.len() < 3 {
        return 2;
    }
    let answer = hex_text::read::read(text, Bank::Zero, n, image);
    let number = hex_text::read::answer_number(answer);
    let place = place_of(answer);
    told[0] = number;
    told[1] = place.line;
    told[2] = place.byte;
    number
}
