// What comes next in a night: a request, or the end.
use crate::name;
use night::name::Name;
use night::record::{Next, Night, Refusal, Stand, Why};
use script::call::STDERR_FILENO;
use script::say::STDOUT_FILENO;
use script::{call, say};
use std::env::Env;

fn say_try(rt: &impl Env, name: Name, gone: usize, tries: usize, buffer: &[u8]) {
    name::text(rt, STDERR_FILENO, b"night: ");
    name::say(rt, STDERR_FILENO, name, buffer);
    name::text(rt, STDERR_FILENO, b", try ");
    name::decimal(rt, STDERR_FILENO, gone);
    name::text(rt, STDERR_FILENO, b" of ");
    name::decimal(rt, STDERR_FILENO, tries);
    name::text(rt, STDERR_FILENO, b"\n");
}

fn progress(rt: &impl Env, night: Night, buffer: &[u8]) {
    let stand = night.stand;
    if let Stand::At { name, gone } = stand {
        say_try(rt, name, gone, night.tries, buffer);
    }
}

// The request is out before anything is said of it.
fn send(rt: &impl Env, night: Night, buffer: &[u8], size: usize) {
    if let Some(frame) = buffer.get(..size) {
        say::text(rt, b"send ");
        say::hex(rt, frame);
        say::end(rt);
        progress(rt, night, buffer);
    }
}

fn say_why(rt: &impl Env, why: Why) {
    match why {
        Why::Tries => say::text(rt, b": tries\n"),
        Why::WrongBank => say::text(rt, b": wrong bank\n"),
        Why::Unknown => say::text(rt, b": unknown\n"),
    }
}

fn gave_up(rt: &impl Env, name: Name, why: Why, buffer: &[u8]) {
    say::text(rt, b"gave up at ");
    name::say(rt, STDOUT_FILENO, name, buffer);
    say_why(rt, why);
    call::refused(rt);
}

pub(crate) fn say(rt: &impl Env, night: Night, next: Result<Next, Refusal>, buffer: &[u8]) {
    match next {
        Ok(Next::NotBegun) => say::refused_all(rt, 0),
        Ok(Next::Send { name: _, size }) => send(rt, night, buffer, size),
        Ok(Next::Finished) => say::text(rt, b"finished\n"),
        Ok(Next::GaveUp { name, why }) => gave_up(rt, name, why, buffer),
        Err(why) => say::refused_all(rt, usize::from(why)),
    }
}

// Whether an event is awaited.
pub(crate) fn goes_on(next: Result<Next, Refusal>) -> bool {
    matches!(next, Ok(Next::Send { .. }))
}
