// The text of an image: how long it is, and the text itself.
ghost use Rattle.std.specs.Prelude.{◌≡◌, ◌+◌, ◌≤◌, length};
ghost use Rattle.std.proofs.lemmas.List.Edits.{sets};
ghost use Rattle.buffer.specs.Compare.{IsBlank};
ghost use Rattle.buffer.specs.Place.{front_of};
ghost use Rattle.rows.specs.Text.{upper_text, row_text, rows_text, all_rows, text_of, IsWrittenNumber, IsLength, IsWrite};
ghost use Rattle.rows.specs.Places.{RowFits, ImageFits, Room, reached_at};

use crate::record::{BESIDE, DATA, END, UPPER, put_line};
use layout::Bank;

// The longest text: room for it is enough for every image.
pub const LONGEST: usize = 707_121;

// The bytes of a row.
const ROW: usize = 16;

// The bytes of its line, and of one that tells an upper half.
const DATA_LINE: usize = BESIDE + 2 * ROW;

const UPPER_LINE: usize = BESIDE + 2 * 2;

// What was written of an image, as one number: 2, or how long the text is, which is never that short.
pub fn written_number(written: Option<usize>) -> usize
    ensures { IsWrittenNumber written result }
{
    written.unwrap_or(2)
}

// How far the text goes, and the upper half that it told last, 0 before the first.
#[derive(Clone, Copy)]
pub(crate) struct Reached {
    pub(crate) told: usize,
    pub(crate) at: usize,
}

// Whether a row has nothing but 0xFF. It is shorter than what `buffer` looks at in one go, and of a blank image it is all the work.
fn blank(row: &[u8]) -> bool
    ensures { IsBlank row.now result }
{
    row.iter().fold(true, |all, byte| all & (*byte == 0xFF))
}

// Row k measured, behind the first k. It has a line if it has a byte other than 0xFF, and one before that if its upper half was not told last.
fn pass(image: &[u8], base: usize, k: usize, reached: Reached) -> Reached
    requires { RowFits image.now base k reached }
    ensures { result ≡ reached_at image.now base (k + 1) }
{
    let from = k * ROW;
    if blank(&image[from..from + ROW]) {
        return reached;
    }
    let told = (base + from) / 65536;
    let mut at = reached.at + DATA_LINE;
    if told != reached.told {
        at += UPPER_LINE;
    }
    Reached { told, at }
}

// All rows measured, lowest first: how long their text is.
fn measure(image: &[u8], base: usize) -> usize
    requires { ImageFits image.now base }
    ensures { result ≡ length (all_rows image.now base) }
{
    let mut reached = Reached { told: 0, at: 0 };
    for k in 0..image.len() / ROW {
        reached = pass(image, base, k, reached);
    }
    reached.at
}

// The line of an upper half, unless it was told last.
fn put_upper(text: &mut [u8], at: usize, told: usize, upper: usize)
    requires { at + length (upper_text told upper) ≤ length text.old }
    ensures { text.new ≡ sets text.old at (upper_text told upper) }
{
    if upper == told {
        return;
    }
    let high = (upper / 256 % 256) as u8;
    let low = (upper % 256) as u8;
    let bytes = [high, low];
    put_line(text, at, 0, UPPER, &bytes);
}

// The text of the row behind the first k, right behind theirs.
fn put_row(image: &[u8], base: usize, k: usize, reached: Reached, text: &mut [u8]) -> Reached
    requires row_fits { RowFits image.now base k reached }
    requires k_in_bounds { length (rows_text image.now base (k + 1)) ≤ length text.old }
    ensures { (result ≡ reached_at image.now base (k + 1)) × (text.new ≡ sets text.old reached.at (row_text image.now base k)) }
{
    let next = pass(image, base, k, reached);
    // A blank row has added nothing.
    if next.at == reached.at {
        return next;
    }
    put_upper(text, reached.at, reached.told, next.told);
    let from = k * ROW;
    // A copy, so that the compiler knows that no store into the text changes it, and takes many bytes at once.
    let mut row = [0u8; ROW];
    buffer::place::put_front(&mut row, &image[from..from + ROW]);
    put_line(text, next.at - DATA_LINE, base + from, DATA, &row);
    next
}

// The text of all rows at the front, and how long it is.
fn put_rows(image: &[u8], base: usize, text: &mut [u8]) -> usize
    requires image_fits { ImageFits image.now base }
    requires base_in_bounds { length (all_rows image.now base) ≤ length text.old }
    ensures { (result ≡ length (all_rows image.now base)) × (text.new ≡ sets text.old 0 (all_rows image.now base)) }
{
    let mut reached = Reached { told: 0, at: 0 };
    for k in 0..image.len() / ROW {
        reached = put_row(image, base, k, reached, text);
    }
    reached.at
}

// How long the text of an image is; `None` where the image is no bank's.
pub fn length(image: &[u8], bank: Bank) -> Option<usize>
    ensures { IsLength image.now bank result }
{
    match layout::sectors(image.len()) {
        None => None,
        Some(_) => {
            let base = layout::start_address(bank) as usize;
            Some(measure(image, base) + BESIDE)
        }
    }
}

// The text, all of whose rows and whose end record have room.
fn put(image: &[u8], bank: Bank, text: &mut [u8])
    requires { Room image.now bank text.old }
    ensures { text.new ≡ front_of text.old (text_of image.now bank) }
{
    let base = layout::start_address(bank) as usize;
    let at = put_rows(image, base, text);
    put_line(text, at, 0, END, b"");
}

// The text of an image, at the front of `text`, and how long it is. The rest keeps its bytes. `None`, and nothing is written, where the image is no
// bank's or the text has no room.
pub fn write(image: &[u8], bank: Bank, text: &mut [u8]) -> Option<usize>
    ensures { IsWrite image.now bank text.old result text.new }
{
    let size = length(image, bank)?;
    if text.len() < size {
        return None;
    }
    put(image, bank, text);
    Some(size)
}
