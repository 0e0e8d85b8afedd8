// The requests for a checksum or a CRC-32.
ghost use Rattle.std.specs.Prelude.{◌≤◌};

use script::{say, text};
use std::env::Env;

const LONGEST_RUN: usize = 300_000;

fn say_crc(rt: &impl Env, value: u32) {
    say::text(rt, b"crc ");
    say::quad(rt, value);
    say::end(rt);
}

pub(crate) fn crc(rt: &impl Env, fields: &[u8]) -> Option<()> {
    let mut room = [0u8; 2048];
    let count = text::bytes(fields, &mut room)?;
    say_crc(rt, crc::crc32(room.get(..count)?));
    Some(())
}

pub(crate) fn more(rt: &impl Env, fields: &[u8]) -> Option<()> {
    let register = u32::try_from(text::number(text::first(fields), 8)?).ok()?;
    let mut room = [0u8; 2048];
    let count = text::bytes(text::rest(fields), &mut room)?;
    let bytes = room.get(..count)?;
    say::text(rt, b"more ");
    say::quad(rt, crc::crc_more(register, bytes));
    say::end(rt);
    Some(())
}

pub(crate) fn sum(rt: &impl Env, fields: &[u8]) -> Option<()> {
    let mut room = [0u8; 2048];
    let count = text::bytes(fields, &mut room)?;
    let bytes = room.get(..count)?;
    say::text(rt, b"sum ");
    say::byte(rt, frame::checksum::checksum(bytes));
    say::end(rt);
    Some(())
}

// The bytes of a long message: all the same, or 0, 1, .. 250 over and over.
#[derive(Clone, Copy)]
pub enum Pattern {
    Same(u8),
    Ramp,
}

fn byte_at(pattern: Pattern, at: usize) -> u8 {
    match pattern {
        Pattern::Same(byte) => byte,
        Pattern::Ramp => (at % 251) as u8,
    }
}

// The piece of the message that starts at `from`.
pub(crate) fn fill(piece: &mut [u8], pattern: Pattern, from: usize)
    requires { from ≤ 300000 }
{
    for (i, byte) in piece.iter_mut().enumerate() {
        *byte = byte_at(pattern, from + i);
    }
}

const PIECE: usize = 65_536;

// The CRC-32 of `count` bytes: of a message that fits one piece by one call, of a longer one piece by piece.
fn crc_of(pattern: Pattern, count: usize) -> u32
    requires { count ≤ 300000 }
{
    let mut piece = [0u8; PIECE];
    fill(&mut piece, pattern, 0);
    match piece.get(..count) {
        Some(message) => crc::crc32(message),
        None => !register_of(pattern, count),
    }
}

fn next_register(register: u32, pattern: Pattern, from: usize, count: usize) -> u32
    requires from_bound { from ≤ 300000 }
    requires count_bound { count ≤ 65536 }
{
    let mut piece = [0u8; PIECE];
    fill(&mut piece, pattern, from);
    crc::crc_more(register, &piece[..count])
}

fn register_of(pattern: Pattern, count: usize) -> u32
    requires { count ≤ 300000 }
{
    let mut register: u32 = 0xFFFF_FFFF;
    for from in (0..count).step_by(PIECE) {
        register = next_register(register, pattern, from, PIECE.min(count - from));
    }
    register
}

fn long_crc(rt: &impl Env, pattern: Pattern, count: &[u8]) -> Option<()> {
    let count = text::decimal(count, 6)?;
    if count > LONGEST_RUN {
        return None;
    }
    say_crc(rt, crc_of(pattern, count));
    Some(())
}

pub(crate) fn run(rt: &impl Env, fields: &[u8]) -> Option<()> {
    let byte = text::byte(text::first(fields))?;
    long_crc(rt, Pattern::Same(byte), text::rest(fields))
}

pub(crate) fn ramp(rt: &impl Env, fields: &[u8]) -> Option<()> {
    long_crc(rt, Pattern::Ramp, fields)
}
