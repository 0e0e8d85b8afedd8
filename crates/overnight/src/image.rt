// The hex file, read into the image that is sent.
use crate::talk;
use hex_text::fault::Refusal;
use hex_text::read::ReadError;
use layout::{Bank, MOST, SECTOR};
use script::{call, input, say};
use std::env::Env;
use std::fs::Files;

const LONGEST_TEXT: usize = 1_048_576;

fn say_refusal(rt: &impl Env, refusal: Refusal) {
    let number = u8::from(refusal.kind);
    say::refused_place_all(rt, usize::from(number), refusal.line, refusal.byte);
}

// The image has as much of its room as N says; where no bank has so many sectors that is not looked at.
fn read_text(
    rt: &(impl Env + std::io::Input),
    hex_text: &[u8],
    bank: Bank,
    n: usize,
    tries: usize,
) {
    let mut room = [0u8; MOST * SECTOR];
    let Some(image) = room.get_mut(..n.min(MOST) * SECTOR) else {
        return;
    };
    let answer = hex_text::read::read(hex_text, bank, n, image);
    match answer {
        Err(ReadError::Line(refusal)) => say_refusal(rt, refusal),
        Ok(()) => talk::run(rt, image, bank, n, tries),
        _ => say::refused_all(rt, hex_text::read::answer_number(answer)),
    }
}

// A file that cannot be read was named when that was told: it may be a word out of its place.
fn send_from(
    rt: &(impl Env + Files + std::io::Input),
    name: &[u8],
    room: &mut [u8],
    bank: Bank,
    n: usize,
    tries: usize,
) {
    match input::file(rt, name, room) {
        Some(size) if size > LONGEST_TEXT => say::words_refused(rt, b"too long"),
        Some(size) => read_text(rt, &room[..size], bank, n, tries),
        None => call::say_usage(crate::USAGE),
    }
}

// The room is a byte larger than the longest text, so that a longer one is seen to be so.
// Not compiled into its caller, which would then take the room before it looks at the words.
#[inline(never)]
pub(crate) fn send(
    rt: &(impl Env + Files + std::io::Input),
    name: &[u8],
    bank: Bank,
    n: usize,
    tries: usize,
) {
    let mut room = [0u8; LONGEST_TEXT + 1];
    send_from(rt, name, &mut room, bank, n, tries);
}
