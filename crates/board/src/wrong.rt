// What is wrong with a line of the script, and what its field may be.
use crate::{command, state};
use script::{say, text};
use std::env::Env;

#[derive(Clone, Copy)]
pub enum Wrong {
    // There is no such command.
    Command,
    // A command without fields has some.
    Fields,
    // It ends in a blank.
    Blank,
    N,
    Bank,
    Major,
    Minor,
    Revision,
    // At most so many.
    Length(usize),
    Offset,
    // More than the room has from the offset on.
    Within,
    Sector,
    Index,
    Byte,
    Bytes,
}

fn say_range(rt: &impl Env, name: &[u8], least: usize, most: usize) {
    say::text(rt, b"; ");
    say::text(rt, name);
    say::text(rt, b" is");
    say::field(rt, least);
    say::text(rt, b" to");
    say::field(rt, most);
}

// Whether each byte is one of ASCII's that show, a blank too.
fn printable(line: &[u8]) -> bool {
    line.iter().all(|b| matches!(*b, b' '..=b'~'))
}

const LONGEST_QUOTE: usize = 80;

// What is no command may be the refusal of a program that wrote into the pipe, which is seen nowhere else.
fn say_quoted(rt: &impl Env, line: &[u8]) {
    if printable(line) {
        say::text(rt, b": ");
        say::text(rt, &line[..line.len().min(LONGEST_QUOTE)]);
    }
}

fn say_field(rt: &impl Env, wrong: Wrong, line: &[u8]) {
    match wrong {
        Wrong::Command => say_quoted(rt, line),
        Wrong::Fields | Wrong::Blank => (),
        Wrong::N => say_range(rt, b"N", 0, text::LARGEST_NUMBER),
        Wrong::Bank => say_range(rt, b"BANK", 0, 1),
        Wrong::Major => say_range(rt, b"MAJOR", 0, 255),
        Wrong::Minor => say_range(rt, b"MINOR", 0, 255),
        Wrong::Revision => say_range(rt, b"REVISION", 0, 0xFFFF_FFFF),
        Wrong::Length(most) => say_range(rt, b"LENGTH", 0, most),
        Wrong::Offset => say_range(rt, b"OFFSET", 0, state::BANK_ROOM),
        Wrong::Within => say::text(rt, b"; OFFSET and LENGTH stay within 252416 bytes"),
        Wrong::Sector => say_range(rt, b"SECTOR", 1, state::MARKS_ROOM),
        Wrong::Index => say_range(rt, b"I", 0, text::LARGEST_NUMBER),
        Wrong::Byte => say::text(rt, b"; BYTE is two hex digits"),
        Wrong::Bytes => say::text(
            rt,
            b"; BYTES is two hex digits for each byte, - for none, and has to fit",
        ),
    }
}

fn say_line(rt: &impl Env, number: usize) {
    say::text(rt, b"line ");
    say::decimal(rt, number);
    say::text(rt, b": ");
}

// The script ends there, so what is wrong is told as a refusal.
pub(crate) fn too_long(rt: &impl Env, number: usize) -> bool {
    say_line(rt, number);
    say::words_refused(rt, b"too long");
    false
}

pub(crate) fn say(rt: &impl Env, wrong: Wrong, number: usize, line: &[u8]) {
    say_line(rt, number);
    match wrong {
        Wrong::Blank => say::text(rt, b"a blank at its end"),
        other => {
            say::text(rt, command::takes(text::first(line)));
            say_field(rt, other, line);
        }
    }
    say::end_refused(rt);
}
