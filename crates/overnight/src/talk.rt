// The night itself: a request goes out, an event comes in, until it is over.
use crate::next;
use layout::Bank;
use night::record::{Called, Night};
use script::line::{Heard, Listener};
use script::{call, line, say, text};
use sender::made::ROOM;
use std::env::Env;

#[derive(Drop)]
struct Talk<'a> {
    night: Night,
    image: &'a [u8],
    buffer: [u8; ROOM],
}

impl<'a> Talk<'a> {
    // Whether an event is awaited.
    fn told(&mut self, rt: &impl Env, called: Called) -> bool {
        self.night = called.night;
        next::say(rt, called.night, called.next, &self.buffer);
        next::goes_on(called.next)
    }

    // A line that is no event leaves the night as it is.
    fn heard(&mut self, rt: &impl Env, digits: &[u8]) -> bool {
        let mut room = [0u8; 2048];
        let Some(count) = text::bytes(digits, &mut room) else {
            return no_event(rt);
        };
        let Some(datagram) = room.get(..count) else {
            return no_event(rt);
        };
        let called = night::call::heard(self.night, datagram, self.image, &mut self.buffer);
        self.told(rt, called)
    }

    fn silent(&mut self, rt: &impl Env) -> bool {
        let called = night::call::silent(self.night, self.image, &mut self.buffer);
        self.told(rt, called)
    }

    fn event(&mut self, rt: &impl Env, line: &[u8]) -> bool {
        match (line, text::first(line)) {
            (b"silence", _) => self.silent(rt),
            (_, b"heard") => self.heard(rt, text::rest(line)),
            _ => no_event(rt),
        }
    }
}

fn no_event(rt: &impl Env) -> bool {
    say::no_request(rt);
    true
}

fn ended(rt: &impl Env) -> bool {
    call::cut_short(rt, b"night: the input ended before the night was over\n");
    false
}

impl<'a> Listener for Talk<'a> {
    fn hear<R: Env>(&mut self, rt: &R, _number: usize, heard: Heard<'_>) -> bool {
        match heard {
            Heard::Line(line) => self.event(rt, line),
            Heard::TooLong => no_event(rt),
            Heard::End => ended(rt),
        }
    }
}

pub(crate) fn run(rt: &(impl Env + Input), image: &[u8], bank: Bank, n: usize, tries: usize) {
    let mut buffer = [0u8; ROOM];
    let called = night::call::start(image, bank, n, tries, &mut buffer);
    let mut talk = Talk {
        night: called.night,
        image,
        buffer,
    };
    if talk.told(rt, called) {
        line::listen(rt, &mut talk);
    }
}
