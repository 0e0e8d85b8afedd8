// The commands that set what the board holds, and how much of it is lent.
use crate::field;
use crate::state::{BANK_ROOM, BUFFER_ROOM, Board, MARKS_ROOM};
use crate::wrong::Wrong;
use layout::Bank;
use script::{room, say, text};
use std::env::Env;

pub(crate) fn say_bank(rt: &impl Env, bank: Bank) {
    say::field(rt, usize::from(u8::from(bank)));
}

pub(crate) fn bank(rt: &impl Env, board: &mut Board, fields: &[u8]) -> Result<(), Wrong> {
    let bank = field::bank(text::first(fields))?;
    let count = field::length(text::rest(fields), BANK_ROOM)?;
    say::text(rt, b"bank");
    say_bank(rt, bank);
    say::field(rt, count);
    say::end(rt);
    board.bank_mut(bank).lent = count;
    Ok(())
}

pub(crate) fn fill(rt: &impl Env, board: &mut Board, fields: &[u8]) -> Result<(), Wrong> {
    let bank = field::bank(text::first(fields))?;
    let byte = field::byte(text::rest(fields))?;
    say::text(rt, b"fill");
    say_bank(rt, bank);
    say::text(rt, b" ");
    say::byte(rt, byte);
    say::end(rt);
    board.bank_mut(bank).bytes.fill(byte);
    Ok(())
}

pub(crate) fn put(rt: &impl Env, board: &mut Board, fields: &[u8]) -> Result<(), Wrong> {
    let later = text::rest(fields);
    let bank = field::bank(text::first(fields))?;
    let offset = field::number(text::first(later), Wrong::Offset)?;
    let room = board.bank_mut(bank);
    let behind = room.bytes.get_mut(offset..).ok_or(Wrong::Offset)?;
    let count = text::bytes(text::rest(later), behind).ok_or(Wrong::Bytes)?;
    say::text(rt, b"put");
    say_bank(rt, bank);
    say::field(rt, offset);
    say::field(rt, count);
    say::end(rt);
    Ok(())
}

pub(crate) fn marks(rt: &impl Env, board: &mut Board, fields: &[u8]) -> Result<(), Wrong> {
    let count = field::length(fields, MARKS_ROOM)?;
    say::text(rt, b"marks");
    say::field(rt, count);
    say::end(rt);
    board.marks = room::filled(0, count);
    Ok(())
}

// Sectors are counted from 1.
pub(crate) fn mark(rt: &impl Env, board: &mut Board, fields: &[u8]) -> Result<(), Wrong> {
    let sector = field::number(text::first(fields), Wrong::Sector)?;
    let at = sector.checked_sub(1).ok_or(Wrong::Sector)?;
    let mark = board.marks.bytes.get_mut(at).ok_or(Wrong::Sector)?;
    let byte = field::byte(text::rest(fields))?;
    say::text(rt, b"mark");
    say::field(rt, sector);
    say::text(rt, b" ");
    say::byte(rt, byte);
    say::end(rt);
    *mark = byte;
    Ok(())
}

pub(crate) fn address(rt: &impl Env, board: &mut Board, fields: &[u8]) -> Result<(), Wrong> {
    let count = text::bytes(fields, &mut board.address.bytes).ok_or(Wrong::Bytes)?;
    say::text(rt, b"address");
    say::field(rt, count);
    say::end(rt);
    board.address.lent = count;
    Ok(())
}

pub(crate) fn buffer(rt: &impl Env, board: &mut Board, fields: &[u8]) -> Result<(), Wrong> {
    let count = field::length(text::first(fields), BUFFER_ROOM)?;
    let byte = field::byte(text::rest(fields))?;
    say::text(rt, b"buffer");
    say::field(rt, count);
    say::end(rt);
    board.buffer = room::filled(byte, count);
    board.answered = 0;
    Ok(())
}
