// All of an input at once: standard input, or a file.
ghost use Rattle.std.specs.Prelude.{◌≤◌, length, IfSome};

use crate::call;
use std::env::Env;
use std::fs::Files;
use std::io::{Error, ErrorKind, Input, Read};
use std::{fs, str};

// So many bytes, at the front of the room; where they fill it there may be more. `None` where the input could not be read to its end, and that
// was told. The index is kept: what a read takes says how far the next turn goes.
fn read(rt: &impl Env, from: &mut impl Read, name: &[u8], room: &mut [u8]) -> Option<usize>
    ensures { IfSome result (λ n. n ≤ length room.old) }
{
    let mut done = 0;
    while done < room.len() {
        match from.read(&mut room[done..]) {
            Err(why) => {
                call::unread(rt, name, why);
                return None;
            }
            Ok(0) => break,
            Ok(more) => done += more,
        }
    }
    Some(done)
}

// As `read` has it.
pub fn all(rt: &(impl Env + Input), room: &mut [u8]) -> Option<usize>
    ensures { IfSome result (λ n. n ≤ length room.old) }
{
    let mut from = rt.reader();
    read(rt, &mut from, b"standard input", room)
}

// A name is text in UTF-8: the library opens no other.
fn open<R: Files>(rt: &R, name: &[u8]) -> std::io::Result<R::File> {
    match str::from_utf8(name) {
        Ok(path) => fs::open(rt, path),
        Err(_) => Err(Error::new(ErrorKind::InvalidInput, "the name is not UTF-8 text")),
    }
}

fn read_opened(
    rt: &impl Env,
    mut from: impl Read + Drop,
    name: &[u8],
    room: &mut [u8],
) -> Option<usize>
    ensures { IfSome result (λ n. n ≤ length room.old) }
{
    read(rt, &mut from, name, room)
}

// The file of that name.
pub fn file(rt: &(impl Env + Files), name: &[u8], room: &mut [u8]) -> Option<usize>
    ensures { IfSome result (λ n. n ≤ length room.old) }
{
    match open(rt, name) {
        Ok(from) => read_opened(rt, from, name, room),
        Err(why) => {
            call::unread(rt, name, why);
            None
        }
    }
}
