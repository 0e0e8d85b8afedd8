// The lines of standard input, one after another. What is read stands in a chunk; the line that was found is copied out of it.
ghost use Rattle.std.specs.Prelude.{◌≡◌, ◌≤◌, length};
ghost use Rattle.std.specs.Io.{ReadsAtMost};
ghost use Rattle.script.specs.Line.{own_length, IsBefore, IsHeld};

use crate::call;
use std::env::Env;
use std::io::{Error, Input, Read, Result};

// One of three, each of which is told in its own way.
#[derive(Clone, Copy)]
pub enum Found {
    // A line of so many bytes, a CR before its LF among them.
    Line(usize),
    // It has more bytes than there is room for, and was passed over.
    TooLong,
    // The text has no further line, or could not be read further.
    End,
}

// What a turn found, and the bytes of the chunk that it left unread, from `from` up to `to`.
#[derive(Clone, Copy)]
pub struct Turn {
    pub found: Found,
    pub from: usize,
    pub to: usize,
}

// What a turn found, as it is handed on.
#[derive(Clone, Copy)]
pub enum Heard<'a> {
    // A line, without its end.
    Line(&'a [u8]),
    TooLong,
    End,
}

// What takes the lines of standard input, one after another.
pub trait Listener {
    // The line is the `number`th, counted from 1. Whether another one is listened to.
    fn hear<R: Env>(&mut self, rt: &R, number: usize, heard: Heard<'_>) -> bool;
}

// Before the first turn: nothing was read.
pub fn before() -> Turn
    ensures { IsBefore result }
{
    Turn {
        found: Found::End,
        from: 0,
        to: 0,
    }
}

// Where a read failed that is told, and what was begun of a line is no line.
fn failed(rt: &impl Env, why: Error) -> Turn
    ensures { IsBefore result }
{
    call::unread(rt, b"standard input", why);
    before()
}

// One read: what has come is handed on, though there is room for more.
fn read(rt: &impl Input, chunk: &mut [u8]) -> Result<usize>
    ensures { ReadsAtMost result chunk.new }
{
    let mut from = rt.reader();
    from.read(chunk)
}

fn within(chunk: &[u8], to: usize) -> usize
    ensures { result ≤ length chunk.now }
{
    to.min(chunk.len())
}

fn put(line: &mut [u8], at: usize, byte: u8) {
    if let Some(place) = line.get_mut(at) {
        *place = byte;
    }
}

fn whole(line: &[u8], held: usize) -> Found {
    if held > line.len() {
        Found::TooLong
    } else {
        Found::Line(held)
    }
}

// The last line may end with the text.
fn whole_last(line: &[u8], held: usize) -> Found {
    if held == 0 {
        return Found::End;
    }
    whole(line, held)
}

// Nothing says that a line ends, so the loop counts its turns, up to a number that no run uses up.
pub fn next(rt: &(impl Env + Input), chunk: &mut [u8], line: &mut [u8], last: Turn) -> Turn
    ensures { result.to ≤ length chunk.new }
{
    let mut from = last.from;
    let mut to = within(chunk, last.to);
    let mut held = 0;
    for _turn in 0..u64::MAX {
        if from >= to {
            from = 0;
            match read(rt, chunk) {
                Err(why) => return failed(rt, why),
                Ok(more) => to = more,
            }
            if to == 0 {
                return Turn {
                    found: whole_last(line, held),
                    from,
                    to,
                };
            }
            continue;
        }
        let byte = chunk[from];
        from += 1;
        if byte == b'\n' {
            return Turn {
                found: whole(line, held),
                from,
                to,
            };
        }
        put(line, held, byte);
        held += 1;
    }
    before()
}

// How many of the first `size` bytes are the line's own: a CR before its LF is not.
fn own(line: &[u8], size: usize) -> usize
    requires { size ≤ length line.now }
    ensures { (result ≤ length line.now) × (result ≡ own_length line.now size) }
{
    if size == 0 {
        return 0;
    }
    let last = size - 1;
    if line[last] == b'\r' { last } else { size }
}

// The line that a turn found, without its end; nothing, should it have found none.
pub fn held(line: &[u8], turn: Turn) -> &[u8]
    ensures { IsHeld line.now turn result.now }
{
    match turn.found {
        Found::Line(size) if size <= line.len() => &line[..own(line, size)],
        _ => &[],
    }
}

fn handed(line: &[u8], turn: Turn) -> Heard<'_> {
    match turn.found {
        Found::Line(_) => Heard::Line(held(line, turn)),
        Found::TooLong => Heard::TooLong,
        Found::End => Heard::End,
    }
}

// Nothing says that the text ends, so the loop counts the lines up to a number that no text has.
pub fn listen(rt: &(impl Env + Input), listener: &mut impl Listener) {
    let mut chunk = [0u8; 4096];
    let mut line = [0u8; 4096];
    let mut turn = before();
    for number in 0..usize::MAX {
        turn = next(rt, &mut chunk, &mut line, turn);
        if !listener.hear(rt, number + 1, handed(&line, turn)) {
            return;
        }
    }
}
