// One request line and its answer: docs/REQUESTS.md has the form of both.
use crate::held::Held;
use crate::{frames, images, texts, written};
use script::{room, say, text};
use std::env::Env;

// A request is answered; `None` for a line that is none.
fn known(rt: &impl Env, held: &mut Held, line: &[u8]) -> Option<()> {
    let fields = text::rest(line);
    match text::first(line) {
        b"text" => texts::text(rt, held, fields),
        b"more" => texts::more(rt, held, fields),
        b"read" => texts::read(rt, held, fields),
        b"image" => images::image(rt, held, fields),
        b"put" => images::put(rt, held, fields),
        b"length" => written::length(rt, room::part(&held.image), fields),
        b"write" => written::write(rt, held, fields),
        b"count" => images::count(rt, room::part(&held.image), fields),
        b"packet" => images::packet(rt, room::part(&held.image), fields),
        b"request" => frames::request(rt, fields),
        b"response" => frames::response(rt, fields),
        _ => None,
    }
}

pub(crate) fn answer(rt: &impl Env, held: &mut Held, line: &[u8]) {
    if known(rt, held, line).is_none() {
        say::no_request(rt);
    }
}
