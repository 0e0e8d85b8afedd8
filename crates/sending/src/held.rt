// What stays from one request to the next: a hex text and an image, each at the front of its room.
use crate::answer;
use script::line::{Heard, Listener};
use script::room::Room;
use script::say;
use std::env::Env;

pub const LONGEST_TEXT: usize = 720_896;

// Two sectors more than the largest bank has: a wrong length is told from what is no request.
pub const LONGEST_IMAGE: usize = 252_416;

#[derive(Clone, Copy)]
pub struct Held {
    pub hex_text: Room<LONGEST_TEXT>,
    pub image: Room<LONGEST_IMAGE>,
}

impl Listener for Held {
    fn hear<R: Env>(&mut self, rt: &R, _number: usize, heard: Heard<'_>) -> bool {
        match heard {
            Heard::Line(line) => answer::answer(rt, self, line),
            Heard::TooLong => say::no_request(rt),
            Heard::End => return false,
        }
        true
    }
}
