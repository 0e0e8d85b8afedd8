// The requests that read a frame or write one.
ghost use Rattle.std.specs.Prelude.{◌≡◌, ◌++◌, IfSome};

use frame::read::{Footer, Frame};
use script::{say, text};
use std::env::Env;

fn say_control(rt: &impl Env, code: u8, parameters: &[u8]) {
    say::text(rt, b"control ");
    say::byte(rt, code);
    say::text(rt, b" ");
    say::bytes(rt, parameters);
    say::end(rt);
}

fn say_write(rt: &impl Env, sector: u16, length: usize, footer: Footer, data: &[u8]) {
    say::text(rt, b"write ");
    say::pair(rt, sector);
    say::text(rt, b" ");
    if let Ok(length) = u16::try_from(length) {
        say::pair(rt, length);
    }
    say::text(rt, b" ");
    say::byte(rt, u8::from(footer));
    say::text(rt, b" ");
    say::bytes(rt, data);
    say::end(rt);
}

fn say_read(rt: &impl Env, datagram: &[u8]) {
    match frame::read::read_frame(datagram) {
        None => say::text(rt, b"fault\n"),
        Some(Frame::Control { code, .. }) => {
            say_control(rt, code, frame::read::parameters(datagram))
        }
        Some(
            Frame::Write {
                sector,
                length,
                footer,
            },
        ) => say_write(rt, sector, length, footer, frame::read::data(datagram)),
    }
}

pub(crate) fn read(rt: &impl Env, fields: &[u8]) -> Option<()> {
    let mut room = [0u8; 2048];
    let count = text::bytes(fields, &mut room)?;
    say_read(rt, room.get(..count)?);
    Some(())
}

// The frame at the front of a buffer, and what stands behind it: of all that begins there it alone is read as one.
fn front_frame(buffer: &[u8]) -> Option<(&[u8], &[u8])>
    ensures { IfSome result (λ parts. parts.0.now ++ parts.1.now ≡ buffer.now) }
{
    for end in 1..=buffer.len() {
        let (front, behind) = buffer.split_at(end);
        if frame::read::read_frame(front).is_some() {
            return Some((front, behind));
        }
    }
    None
}

// The frame alone and what stands behind it; or, where it was not written, all of the buffer.
fn say_buffer(rt: &impl Env, buffer: &[u8]) {
    if let Some((frame, behind)) = front_frame(buffer) {
        say::text(rt, b"frame ");
        say::bytes(rt, frame);
        say::text(rt, b" ");
        say::bytes(rt, behind);
    } else {
        say::text(rt, b"nothing ");
        say::bytes(rt, buffer);
    }
    say::end(rt);
}

const LARGEST_BUFFER: usize = 600;

// What is put of the bytes that `digits` spells, in so much room. The buffer that a frame is written to holds A5 before.
fn written<F: FnOnce(&mut [u8], &[u8])>(
    rt: &impl Env,
    digits: &[u8],
    room: &[u8],
    put: F,
) -> Option<()>
    requires { F.IsAlwaysCallable put }
{
    let mut spelt = [0u8; 2048];
    let mut buffer = [0xA5u8; LARGEST_BUFFER];
    let count = text::bytes(digits, &mut spelt)?;
    let bytes = spelt.get(..count)?;
    let lent = buffer.get_mut(..text::decimal(room, 6)?)?;
    put(lent, bytes);
    say_buffer(rt, lent);
    Some(())
}

pub(crate) fn control(rt: &impl Env, fields: &[u8]) -> Option<()> {
    let code = text::byte(text::first(fields))?;
    let later = text::rest(fields);
    written(rt, text::first(later), text::rest(later), |buffer, bytes| {
        frame::write::put_control(buffer, code, bytes)
    })
}

fn footer_of(byte: u8) -> Option<Footer> {
    match byte {
        0x03 => Some(Footer::End),
        0x17 => Some(Footer::Continued),
        _ => None,
    }
}

// The last two fields are the footer and the room.
pub(crate) fn write(rt: &impl Env, fields: &[u8]) -> Option<()> {
    let sector = u16::try_from(text::number(text::first(fields), 4)?).ok()?;
    let later = text::rest(fields);
    let last = text::rest(later);
    let footer = footer_of(text::byte(text::first(last))?)?;
    written(rt, text::first(later), text::rest(last), |buffer, bytes| {
        frame::write::put_write(buffer, sector, bytes, footer)
    })
}

pub(crate) fn error(rt: &impl Env, fields: &[u8]) -> Option<()> {
    written(
        rt,
        b"-",
        fields,
        |buffer, _| frame::write::put_error(buffer),
    )
}
