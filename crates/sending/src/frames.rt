// The requests that make a request of the exchange or read a response.
use crate::made;
use crate::made::LARGEST_BUFFER;
use layout::Bank;
use response::read::Response;
use script::{say, text};
use sender::request::Request;
use std::env::Env;

// The request in the buffer's room, which the last field says.
fn make(rt: &impl Env, request: Request, room: &[u8]) -> Option<()> {
    let mut buffer = [0xA5u8; LARGEST_BUFFER];
    let lent = buffer.get_mut(..text::decimal(room, 6)?)?;
    let made = sender::request::make(request, lent);
    made::say_made(rt, made, lent);
    Some(())
}

fn write_start(rt: &impl Env, fields: &[u8]) -> Option<()> {
    let bank = text::bank(text::first(fields))?;
    let later = text::rest(fields);
    let n = text::decimal(text::first(later), 6)?;
    make(rt, Request::WriteStart { bank, n }, text::rest(later))
}

pub(crate) fn request(rt: &impl Env, fields: &[u8]) -> Option<()> {
    let later = text::rest(fields);
    match text::first(fields) {
        b"start" => make(rt, Request::ModeStart, later),
        b"bank" => make(rt, Request::BankInfo, later),
        b"version" => make(rt, Request::VersionInfo, later),
        b"write" => write_start(rt, later),
        b"end" => make(rt, Request::WriteEnd, later),
        b"finish" => make(rt, Request::ModeEnd, later),
        _ => None,
    }
}

fn say_plain(rt: &impl Env, code: u8, res: u8) {
    say::text(rt, b"result ");
    say::byte(rt, code);
    say::text(rt, b" ");
    say::byte(rt, res);
}

fn say_bank(rt: &impl Env, bank: Bank) {
    say::text(rt, b"bank ");
    say::decimal(rt, usize::from(u8::from(bank)));
}

// The word of an answer, and its four fields.
fn say_fields(rt: &impl Env, word: &[u8], pair: u16, first: u8, second: u8, quad: u32) {
    say::text(rt, word);
    say::text(rt, b" ");
    say::pair(rt, pair);
    say::text(rt, b" ");
    say::byte(rt, first);
    say::text(rt, b" ");
    say::byte(rt, second);
    say::text(rt, b" ");
    say::quad(rt, quad);
}

fn say_response(rt: &impl Env, datagram: &[u8]) {
    let response = response::read::read_response(datagram);
    match response {
        None => say::refused(rt, response::read::response_number(response) as usize),
        Some(Response::Plain { command, result }) => {
            say_plain(rt, commands::response_code(command), result)
        }
        Some(Response::Error { result }) => say_plain(rt, commands::ERROR, result),
        Some(Response::Target { bank }) => say_bank(rt, bank),
        Some(
            Response::Firmware {
                id,
                major,
                minor,
                revision,
            },
        ) => say_fields(rt, b"version", id, major, minor, revision),
        Some(
            Response::Written {
                sector,
                response,
                write,
                crc,
            },
        ) => say_fields(rt, b"written", sector, response, write, crc),
    }
    say::end(rt);
}

pub(crate) fn response(rt: &impl Env, fields: &[u8]) -> Option<()> {
    let mut room = [0u8; 2048];
    let count = text::bytes(fields, &mut room)?;
    say_response(rt, room.get(..count)?);
    Some(())
}
