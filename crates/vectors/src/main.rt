// Answers request lines from standard input, one line each, by what the crates below compute. The peer in tests/ answers the
// same lines; docs/REQUESTS.md has their form.
#![tactic(auto)]

mod answer;
mod banks;
mod frames;
mod lists;
mod sums;

use script::line::{Heard, Listener};
use script::{call, line, say};
use std::env::Env;

// Nothing stays from one request to the next.
#[derive(Drop)]
struct Requests {}

impl Listener for Requests {
    fn hear<R: Env>(&mut self, rt: &R, _number: usize, heard: Heard<'_>) -> bool {
        match heard {
            Heard::Line(line) => answer::answer(rt, line),
            Heard::TooLong => say::no_request(rt),
            Heard::End => return false,
        }
        true
    }
}

fn main(rt: HostRuntime) {
    if call::takes(&rt, 0, b"usage: ./run vectors [FILE]\n") {
        line::listen(&rt, &mut Requests {});
    }
}
