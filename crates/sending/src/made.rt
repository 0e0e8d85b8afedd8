// What the maker of a frame answered, and the buffer that it was lent, which holds A5 before: the frame, and what stands behind it.
use script::say;
use sender::made::Refusal;
use std::env::Env;

pub const LARGEST_BUFFER: usize = 600;

fn say_frame(rt: &impl Env, size: usize, buffer: &[u8]) {
    let (frame, behind) = buffer.split_at(size.min(buffer.len()));
    say::text(rt, b"frame ");
    say::bytes(rt, frame);
    say::text(rt, b" ");
    say::bytes(rt, behind);
}

fn say_refused(rt: &impl Env, number: usize, buffer: &[u8]) {
    say::refused(rt, number);
    say::text(rt, b" ");
    say::bytes(rt, buffer);
}

pub(crate) fn say_made(rt: &impl Env, made: Result<usize, Refusal>, buffer: &[u8]) {
    match made {
        Ok(size) => say_frame(rt, size, buffer),
        Err(why) => say_refused(rt, usize::from(why), buffer),
    }
    say::end(rt);
}
