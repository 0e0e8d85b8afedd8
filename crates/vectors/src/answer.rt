// One request line and its answer: docs/REQUESTS.md has the form of both.
use crate::{banks, frames, sums};
use script::{say, text};
use std::env::Env;

// A request is answered; `None` for a line that is none. A field that is missing is empty, and no request has an empty field; one too many stands
// in the last field, with a blank that no field has.
fn known(rt: &impl Env, line: &[u8]) -> Option<()> {
    let fields = text::rest(line);
    match text::first(line) {
        b"crc" => sums::crc(rt, fields),
        b"more" => sums::more(rt, fields),
        b"crcrun" => sums::run(rt, fields),
        b"crcramp" => sums::ramp(rt, fields),
        b"sum" => sums::sum(rt, fields),
        b"read" => frames::read(rt, fields),
        b"control" => frames::control(rt, fields),
        b"write" => frames::write(rt, fields),
        b"error" => frames::error(rt, fields),
        b"layout" => banks::layout(rt, fields),
        b"sectors" => banks::sectors(rt, fields),
        b"check" => banks::verdict(rt, fields),
        b"body" => banks::body(rt, fields),
        b"clean" => banks::clean(rt, fields),
        _ => None,
    }
}

pub(crate) fn answer(rt: &impl Env, line: &[u8]) {
    if known(rt, line).is_none() {
        say::no_request(rt);
    }
}
