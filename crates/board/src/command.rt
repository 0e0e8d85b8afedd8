// A line of the script, and the command that it is.
use crate::state::Board;
use crate::wrong::Wrong;
use crate::{calls, send, settings, shows, wrong};
use script::text;
use std::env::Env;

// A field that is missing is empty, and no command has an empty field; one too many stands in the last field, with a blank that no
// field has. The empty field behind a blank at the line's end would pass for no field.
fn run(rt: &impl Env, board: &mut Board, line: &[u8]) -> Result<(), Wrong> {
    if text::ends_in_blank(line) {
        return Err(Wrong::Blank);
    }
    let fields = text::rest(line);
    match text::first(line) {
        b"bank" => settings::bank(rt, board, fields),
        b"fill" => settings::fill(rt, board, fields),
        b"put" => settings::put(rt, board, fields),
        b"marks" => settings::marks(rt, board, fields),
        b"mark" => settings::mark(rt, board, fields),
        b"address" => settings::address(rt, board, fields),
        b"buffer" => settings::buffer(rt, board, fields),
        b"client" => calls::client(rt, board, fields),
        b"initiate" => calls::initiate(rt, board, fields),
        b"terminate" => calls::terminate(rt, board, fields),
        b"send" => send::send(rt, board, fields),
        b"body" => shows::body(rt, board, fields),
        b"record" => shows::record(rt, board, fields),
        b"crc" => shows::crc(rt, board, fields),
        b"show" => shows::show(rt, board, fields),
        b"rest" => shows::rest(rt, board, fields),
        _ => Err(Wrong::Command),
    }
}

// What a command takes, by the word that it begins with.
pub(crate) fn takes(word: &[u8]) -> &'static [u8] {
    match word {
        b"bank" => b"bank takes BANK LENGTH",
        b"fill" => b"fill takes BANK BYTE",
        b"put" => b"put takes BANK OFFSET BYTES",
        b"marks" => b"marks takes LENGTH",
        b"mark" => b"mark takes SECTOR BYTE",
        b"address" => b"address takes BYTES",
        b"buffer" => b"buffer takes LENGTH BYTE",
        b"client" => b"client takes N BANK MAJOR MINOR REVISION",
        b"initiate" => b"initiate takes nothing",
        b"terminate" => b"terminate takes nothing",
        b"send" => b"send takes BYTES",
        b"body" => b"body takes I",
        b"record" => b"record takes nothing",
        b"crc" => b"crc takes BANK",
        b"show" => b"show takes BANK OFFSET LENGTH",
        b"rest" => b"rest takes nothing",
        _ => b"no such command",
    }
}

fn does_nothing(line: &[u8]) -> bool {
    matches!(line, [] | [b'#', ..])
}

// Whether the script goes on.
pub(crate) fn follow(rt: &impl Env, board: &mut Board, number: usize, line: &[u8]) -> bool {
    if does_nothing(line) {
        return true;
    }
    match run(rt, board, line) {
        Ok(()) => true,
        Err(why) => {
            wrong::say(rt, why, number, line);
            false
        }
    }
}
