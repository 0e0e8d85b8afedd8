// The requests on the hex text that is written of the image.
use crate::held::Held;
use script::{room, say, text};
use std::env::Env;

fn say_told(rt: &impl Env, word: &[u8], written: Option<usize>) {
    match written {
        Some(size) => {
            say::text(rt, word);
            say::decimal(rt, size);
        }
        None => say::refused(rt, rows::text::written_number(written)),
    }
}

pub(crate) fn length(rt: &impl Env, image: &[u8], fields: &[u8]) -> Option<()> {
    let bank = text::bank(fields)?;
    say_told(rt, b"length ", rows::text::length(image, bank));
    say::end(rt);
    Some(())
}

// What was written of the room is the text then, or all of it.
pub(crate) fn write(rt: &impl Env, held: &mut Held, fields: &[u8]) -> Option<()> {
    let bank = text::bank(text::first(fields))?;
    let size = text::decimal(text::rest(fields), 6)?;
    room::lend(&mut held.hex_text, size)?;
    let room = held.hex_text.bytes.get_mut(..size)?;
    room.fill(0xA5);
    let written = rows::text::write(room::part(&held.image), bank, room);
    say_told(rt, b"written ", written);
    say::text(rt, b" ");
    say::quad(rt, crc::crc32(room));
    say::end(rt);
    held.hex_text.lent = written.unwrap_or(size);
    Some(())
}
