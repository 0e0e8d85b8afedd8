// How a program was called, and how it tells `./run` what became of the call. docs/RUNNING.md has the convention.
ghost use Rattle.std.specs.Prelude.{◌≡◌, true, ◌<◌, ◌≤◌, length, IfSome};

use std::env::{Env, FillError};
use std::fmt;
use std::fmt::Write;
use std::io::Error;

pub const STDERR_FILENO: i32 = 2;

// Where `./run` listens, if its own first argument says so.
const LISTENER: i32 = 3;

// An argument, counted from 0, which is the program's name, at the front of `into`; `None` where it is missing or longer.
fn arg<'a>(rt: &impl Env, number: usize, into: &'a mut [u8]) -> Option<&'a [u8]>
    ensures { IfSome result (λ word. length word.now ≤ length into.old) }
{
    let size = rt.arg(number, into).ok()?;
    into.get(..size)
}

fn is_given(rt: &impl Env, number: usize) -> bool {
    let mut none = [0u8; 1];
    !matches!(rt.arg(number, &mut none), Err(FillError::NotPresent))
}

// How many arguments there are, the program's name among them.
fn arg_count(rt: &impl Env) -> usize {
    (0..usize::MAX)
        .find(|i| !is_given(rt, *i))
        .unwrap_or(usize::MAX)
}

fn heard(rt: &impl Env) -> bool {
    let mut first = [0u8; 16];
    matches!(arg(rt, 1, &mut first), Some(b"status=3"))
}

fn tell(rt: &impl Env, mark: &[u8]) {
    if heard(rt) {
        io::write_all(LISTENER, mark);
    }
}

// What was asked is refused; the output says why.
pub fn refused(rt: &impl Env) {
    tell(rt, b"r");
}

// A part of the output could not be written.
pub fn unwritten(rt: &impl Env) {
    tell(rt, b"o");
}

// Takes the text of an error to standard error, but for the number that the system has for it, which stands behind the words: ` (os error 2)`.
#[derive(Drop)]
struct Words {
    ended: bool,
}

impl fmt::Write for Words {
    fn write_str(&mut self, text: &str) -> fmt::Result {
        if self.ended {
            return Ok(());
        }
        match text.split_once(" (os error ") {
            Some((words, _)) => {
                self.ended = true;
                io::write_all(STDERR_FILENO, words.as_bytes());
            }
            None => {
                io::write_all(STDERR_FILENO, text.as_bytes());
            }
        }
        Ok(())
    }
}

// A line on standard error: what failed, and the system's words for it. What that does not take is lost.
fn fail(name: &[u8], why: Error) {
    io::write_all(STDERR_FILENO, name);
    io::write_all(STDERR_FILENO, b": ");
    let mut words = Words { ended: false };
    let _ = write!(words, "{why}");
    io::write_all(STDERR_FILENO, b"\n");
}

// The input that is named could not be read, or not to its end.
pub fn unread(rt: &impl Env, name: &[u8], why: Error) {
    fail(name, why);
    tell(rt, b"i");
}

// The input ended where more of it was needed.
pub fn cut_short(rt: &impl Env, why: &[u8]) {
    io::write_all(STDERR_FILENO, why);
    tell(rt, b"i");
}

pub fn say_usage(usage: &[u8]) {
    io::write_all(STDERR_FILENO, usage);
}

// It was called as it cannot be.
pub fn called_wrongly(rt: &impl Env, usage: &[u8]) {
    say_usage(usage);
    tell(rt, b"c");
}

// The program's own name stands before its words, and what `./run` says to it.
fn before_words(rt: &impl Env) -> usize
    ensures { (0 < result) × (result ≤ 2) }
{
    if heard(rt) { 2 } else { 1 }
}

// Whether it was called with so many words. They are fewer than can be counted, since its name is counted with them.
pub fn takes(rt: &impl Env, words: usize, usage: &[u8]) -> bool
    ensures { result ≡ true → words < 18446744073709551615 }
{
    let all = arg_count(rt);
    let before = before_words(rt);
    if all >= before && all - before == words {
        return true;
    }
    called_wrongly(rt, usage);
    false
}

// A word of the call, counted from 0, at the front of `into`; `None` where it is missing or longer.
pub fn word<'a>(rt: &impl Env, number: u8, into: &'a mut [u8]) -> Option<&'a [u8]>
    ensures { IfSome result (λ word. length word.now ≤ length into.old) }
{
    arg(rt, before_words(rt) + number as usize, into)
}
