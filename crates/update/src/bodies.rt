// The bodies of a sound bank. Each has a byte or more, so the first empty one is past the last.
use script::say;
use std::env::Env;

fn say_body(rt: &impl Env, i: usize, body: &[u8]) {
    say::text(rt, b"# body");
    say::field(rt, i);
    say::text(rt, b":");
    say::field(rt, body.len());
    say::text(rt, b" bytes, CRC-32 ");
    say::quad(rt, crc::crc32(body));
    say::end(rt);
}

// A line for each, and how many they are.
pub(crate) fn report(rt: &impl Env, image: &[u8]) -> usize {
    for i in 0..image.len() {
        let body = bank::body::body(image, i);
        if body.is_empty() {
            return i;
        }
        say_body(rt, i, body);
    }
    image.len()
}

fn ask_one(rt: &impl Env, i: usize) {
    say::text(rt, b"body");
    say::field(rt, i);
    say::end(rt);
}

// The board's own view of each, afterwards.
pub(crate) fn ask(rt: &impl Env, count: usize) {
    for i in 0..count {
        ask_one(rt, i);
    }
}
