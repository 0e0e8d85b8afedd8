// The commands that show what the board holds.
use crate::field;
use crate::settings::say_bank;
use crate::state::Board;
use crate::wrong::Wrong;
use client::record::{Client, Latest};
use decision::plan::ADDRESS;
use exchange::state::State;
use layout::MOST;
use script::{room, say, text};
use std::env::Env;

// How many bytes these are, and their CRC-32.
fn say_sum(rt: &impl Env, bytes: &[u8]) {
    say::field(rt, bytes.len());
    say::text(rt, b" ");
    say::quad(rt, crc::crc32(bytes));
    say::end(rt);
}

pub(crate) fn body(rt: &impl Env, board: &Board, fields: &[u8]) -> Result<(), Wrong> {
    let i = field::number(fields, Wrong::Index)?;
    say::text(rt, b"body");
    say_sum(
        rt,
        board
            .client
            .body(room::part(&board.bank0), room::part(&board.bank1), i),
    );
    Ok(())
}

fn say_state(rt: &impl Env, state: State) {
    match state {
        State::Closed => say::text(rt, b" closed"),
        State::Idle => say::text(rt, b" idle"),
        State::Control => say::text(rt, b" control"),
        State::Write => say::text(rt, b" write"),
    }
}

fn say_latest(rt: &impl Env, latest: Latest) {
    match latest {
        Latest::Nothing => say::text(rt, b" nothing"),
        Latest::Good => say::text(rt, b" good"),
        Latest::Otherwise => say::text(rt, b" otherwise"),
    }
}

// The address that opened the mode, while one is open.
fn say_opener(rt: &impl Env, state: State, opener: [u8; ADDRESS]) {
    say::text(rt, b" ");
    if exchange::state::is_open(state) {
        say::bytes(rt, &opener);
    } else {
        say::text(rt, b"-");
    }
}

fn say_version(rt: &impl Env, major: u8, minor: u8, revision: u32) {
    say::field(rt, major as usize);
    say::field(rt, minor as usize);
    say::field(rt, revision as usize);
}

// The sectors that were received, or that none was.
fn say_received(rt: &impl Env, received: [bool; MOST]) {
    let mut begun = false;
    for (i, one) in received.iter().enumerate() {
        if *one {
            if begun {
                say::text(rt, b",");
            }
            say::decimal(rt, i + 1);
            begun = true;
        }
    }
    if !begun {
        say::text(rt, b"-");
    }
    say::end(rt);
}

fn say_record(rt: &impl Env, client: Client) {
    let fixed = client.fixed;
    let running = fixed.running;
    let next = client.next;
    let state = client.state;
    let latest = client.latest;
    let opener = client.opener;
    let received = client.received;
    say::text(rt, b"record");
    say::field(rt, fixed.n);
    say_bank(rt, running);
    say_bank(rt, next);
    say_state(rt, state);
    say_latest(rt, latest);
    say_opener(rt, state, opener);
    say_version(rt, fixed.major, fixed.minor, fixed.revision);
    say::text(rt, b" ");
    say_received(rt, received);
}

pub(crate) fn record(rt: &impl Env, board: &Board, fields: &[u8]) -> Result<(), Wrong> {
    field::none(fields)?;
    say_record(rt, board.client);
    Ok(())
}

pub(crate) fn crc(rt: &impl Env, board: &Board, fields: &[u8]) -> Result<(), Wrong> {
    let bank = field::bank(fields)?;
    say::text(rt, b"crc");
    say_bank(rt, bank);
    say_sum(rt, room::part(board.bank(bank)));
    Ok(())
}

pub(crate) fn show(rt: &impl Env, board: &Board, fields: &[u8]) -> Result<(), Wrong> {
    let later = text::rest(fields);
    let bank = field::bank(text::first(fields))?;
    let offset = field::number(text::first(later), Wrong::Offset)?;
    let behind = board.bank(bank).bytes.get(offset..).ok_or(Wrong::Offset)?;
    let count = field::number(text::rest(later), Wrong::Within)?;
    let shown = behind.get(..count).ok_or(Wrong::Within)?;
    say::text(rt, b"show ");
    say::bytes(rt, shown);
    say::end(rt);
    Ok(())
}

// What is lent of the buffer, behind the latest answer.
pub(crate) fn rest(rt: &impl Env, board: &Board, fields: &[u8]) -> Result<(), Wrong> {
    field::none(fields)?;
    let behind = room::part(&board.buffer)
        .get(board.answered..)
        .unwrap_or(&[]);
    say::text(rt, b"rest ");
    say::bytes(rt, behind);
    say::end(rt);
    Ok(())
}
