// A text, line after line, into the image of a bank.
ghost use Rattle.std.specs.Prelude.{◌≡◌, ◌<◌, length};
ghost use Rattle.lines.specs.Line.{lines};
ghost use Rattle.hex_text.specs.Read.{read_lines, at_start, after_last, IsAnswerNumber, IsRead};
ghost use Rattle.hex_text.specs.Places.{LookFits, Took, Came};

use crate::fault::{Fault, Kind, Refusal};
use crate::record::{Found, State};
use layout::Bank;
use lines::line::LineReader;

// Why a text is not read into an image.
#[derive(Clone, Copy, PartialEq, Eq)]
pub enum ReadError {
    // The number of sectors is no bank's.
    BadN,
    // The image has another length than the bank.
    BadLength,
    // A line has a fault, or the end record is missing.
    Line(Refusal),
}

// What it says as one number: 3 or 2, 11 to 16 for H1 to H6, and 0 for a text that is accepted. No `From`: neither type
// is of this crate.
pub fn answer_number(answer: Result<(), ReadError>) -> usize
    ensures { IsAnswerNumber answer result }
{
    match answer {
        Err(ReadError::BadN) => 3,
        Err(ReadError::BadLength) => 2,
        Err(ReadError::Line(refusal)) => 10 + usize::from(u8::from(refusal.kind)),
        Ok(()) => 0,
    }
}

// One line: looked at, and what it says done.
fn take_line(line: &[u8], base: usize, state: State, image: &mut [u8]) -> Result<State, Fault>
    requires { LookFits base (length image.old) }
    ensures { Took base state line.now image.old image.new result }
{
    let mut bytes = [0u8; crate::record::LONGEST];
    let found = crate::record::look(line, base, image.len(), state, &mut bytes)?;
    match found {
        Found::Data { start, n } => {
            buffer::place::put_at(image, start - base, &bytes[4..4 + n]);
            Ok(State {
                last: start + n,
                ..state
            })
        }
        Found::Upper(upper) => Ok(State { upper, ..state }),
        Found::End => Ok(State {
            over: true,
            ..state
        }),
        Found::Other => Ok(state),
    }
}

// After the last line: whether the end record was seen.
fn finish(state: State, line: usize) -> Result<(), Refusal>
    ensures { result ≡ after_last state line }
{
    if state.over {
        return Ok(());
    }
    Err(Refusal {
        kind: Kind::H6,
        line,
        byte: 1,
    })
}

// Line after line, up to the first fault.
fn read_lines(text: &[u8], base: usize, image: &mut [u8]) -> Result<(), Refusal>
    requires { LookFits base (length image.old) }
    ensures { Came (read_lines base (length image.old) at_start 1 image.old (lines text.now)) result image.new }
{
    let mut state = State {
        upper: 0,
        last: 0,
        over: false,
    };
    let mut line: usize = 1;
    for bytes in LineReader::new(text, 0) {
        match take_line(bytes, base, state, image) {
            Err(Fault(kind, byte)) => return Err(Refusal { kind, line, byte }),
            Ok(s) => state = s,
        }
        line += 1;
    }
    finish(state, line)
}

// The text's bytes in the image of a bank of `n` sectors.
pub fn read(text: &[u8], bank: Bank, n: usize, image: &mut [u8]) -> Result<(), ReadError>
    ensures { IsRead text.now bank n image.old image.new result }
{
    if !layout::good_n(n) {
        return Err(ReadError::BadN);
    }
    if image.len() != layout::SECTOR * n {
        return Err(ReadError::BadLength);
    }
    buffer::fill::fill(image, 0xFF);
    let base = layout::start_address(bank) as usize;
    match read_lines(text, base, image) {
        Ok(()) => Ok(()),
        Err(refusal) => {
            // A text that is refused leaves none of its data.
            buffer::fill::fill(image, 0xFF);
            Err(ReadError::Line(refusal))
        }
    }
}
