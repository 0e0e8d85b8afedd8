// The commands that call the client.
use crate::state::Board;
use crate::wrong::Wrong;
use crate::{field, send};
use client::host::{Hosted, NotDone};
use client::record::Client;
use script::{say, text};
use std::env::Env;

fn say_told(rt: &impl Env, told: Result<(), NotDone>) {
    match told {
        Ok(()) => say::text(rt, b"done\n"),
        Err(why) => send::say_refused(rt, u8::from(why) as usize),
    }
}

fn revision_of(field: &[u8]) -> Option<u32> {
    u32::try_from(text::decimal(field, 10)?).ok()
}

// The version's three fields stand behind those on the banks.
pub(crate) fn client(rt: &impl Env, board: &mut Board, fields: &[u8]) -> Result<(), Wrong> {
    let later = text::rest(fields);
    let n = field::number(text::first(fields), Wrong::N)?;
    let running = field::bank(text::first(later))?;
    let version = text::rest(later);
    let last = text::rest(version);
    let major = field::small(text::first(version), Wrong::Major)?;
    let minor = field::small(text::first(last), Wrong::Minor)?;
    let revision = revision_of(text::rest(last)).ok_or(Wrong::Revision)?;
    let hosted = Client::new(n, running, major, minor, revision);
    let told = hosted.told;
    let client = hosted.client;
    say_told(rt, told);
    *board = Board::fresh(client);
    Ok(())
}

fn hosted(rt: &impl Env, board: &mut Board, hosted: Hosted) {
    let client = hosted.client;
    let told = hosted.told;
    say_told(rt, told);
    board.client = client;
}

pub(crate) fn initiate(rt: &impl Env, board: &mut Board, fields: &[u8]) -> Result<(), Wrong> {
    field::none(fields)?;
    hosted(rt, board, board.client.initiate());
    Ok(())
}

pub(crate) fn terminate(rt: &impl Env, board: &mut Board, fields: &[u8]) -> Result<(), Wrong> {
    field::none(fields)?;
    hosted(rt, board, board.client.terminate());
    Ok(())
}
