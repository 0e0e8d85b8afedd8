// The requests on the hex text.
use crate::held::Held;
use hex_text::fault::Refusal;
use hex_text::read::ReadError;
use script::{room, say, text};
use std::env::Env;

// The bytes behind the first `size` of the text. A text that is spelt wrong must leave the one before as it was, so the bytes are read beside it
// first.
fn put(rt: &impl Env, held: &mut Held, size: usize, fields: &[u8]) -> Option<()> {
    let mut room = [0u8; 2048];
    let count = text::bytes(fields, &mut room)?;
    let bytes = room.get(..count)?;
    held.hex_text
        .bytes
        .get_mut(size..)?
        .get_mut(..bytes.len())?
        .copy_from_slice(bytes);
    held.hex_text.lent = size + bytes.len();
    say::text(rt, b"text ");
    say::decimal(rt, held.hex_text.lent);
    say::end(rt);
    Some(())
}

pub(crate) fn text(rt: &impl Env, held: &mut Held, fields: &[u8]) -> Option<()> {
    put(rt, held, 0, fields)
}

pub(crate) fn more(rt: &impl Env, held: &mut Held, fields: &[u8]) -> Option<()> {
    put(rt, held, held.hex_text.lent, fields)
}

fn say_refusal(rt: &impl Env, refusal: Refusal) {
    let number = usize::from(u8::from(refusal.kind));
    say::refused_place(rt, number, refusal.line, refusal.byte);
}

fn say_read(rt: &impl Env, answer: Result<(), ReadError>, image: &[u8]) {
    match answer {
        Err(ReadError::Line(refusal)) => say_refusal(rt, refusal),
        Ok(()) => say::text(rt, b"accepted"),
        _ => say::refused(rt, hex_text::read::answer_number(answer)),
    }
    say::text(rt, b" ");
    say::quad(rt, crc::crc32(image));
    say::end(rt);
}

pub(crate) fn read(rt: &impl Env, held: &mut Held, fields: &[u8]) -> Option<()> {
    let bank = text::bank(text::first(fields))?;
    let later = text::rest(fields);
    let n = text::decimal(text::first(later), 6)?;
    let size = text::decimal(text::rest(later), 6)?;
    room::lend(&mut held.image, size)?;
    let image = held.image.bytes.get_mut(..size)?;
    image.fill(0xA5);
    let answer = hex_text::read::read(room::part(&held.hex_text), bank, n, image);
    say_read(rt, answer, image);
    Some(())
}
