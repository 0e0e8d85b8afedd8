// The requests on the image and on the packets that are made of it.
use crate::held::{Held, LONGEST_IMAGE};
use crate::made;
use crate::made::LARGEST_BUFFER;
use script::{room, say, text};
use std::env::Env;

pub(crate) fn image(rt: &impl Env, held: &mut Held, fields: &[u8]) -> Option<()> {
    let size = text::decimal(fields, 6)?;
    room::lend(&mut held.image, size)?;
    held.image.bytes.get_mut(..size)?.fill(0xFF);
    say::text(rt, b"image ");
    say::decimal(rt, size);
    say::end(rt);
    Some(())
}

pub(crate) fn put(rt: &impl Env, held: &mut Held, fields: &[u8]) -> Option<()> {
    let mut room = [0u8; 2048];
    let count = text::bytes(text::rest(fields), &mut room)?;
    let bytes = room.get(..count)?;
    let offset = text::decimal(text::first(fields), 6)?;
    let image = &mut held.image.bytes[..held.image.lent.min(LONGEST_IMAGE)];
    image
        .get_mut(offset..)?
        .get_mut(..bytes.len())?
        .copy_from_slice(bytes);
    say::text(rt, b"put ");
    say::decimal(rt, offset);
    say::text(rt, b" ");
    say::decimal(rt, bytes.len());
    say::end(rt);
    Some(())
}

fn say_count(rt: &impl Env, count: usize) {
    say::text(rt, b"count ");
    say::decimal(rt, count);
}

pub(crate) fn count(rt: &impl Env, image: &[u8], fields: &[u8]) -> Option<()> {
    match sender::packet::count(image, text::decimal(fields, 6)?) {
        Ok(count) => say_count(rt, count),
        Err(why) => say::refused(rt, usize::from(why)),
    }
    say::end(rt);
    Some(())
}

pub(crate) fn packet(rt: &impl Env, image: &[u8], fields: &[u8]) -> Option<()> {
    let later = text::rest(fields);
    let n = text::decimal(text::first(fields), 6)?;
    let p = text::decimal(text::first(later), 6)?;
    let mut buffer = [0xA5u8; LARGEST_BUFFER];
    let lent = buffer.get_mut(..text::decimal(text::rest(later), 6)?)?;
    let made = sender::packet::packet(image, n, p, lent);
    made::say_made(rt, made, lent);
    Some(())
}
