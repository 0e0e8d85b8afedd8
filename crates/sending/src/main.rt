// Answers request lines from standard input, one line each, by what the reader and the writer of hex text, the sender and the reader of responses
// compute, for any bank and any number of sectors. docs/REQUESTS.md has their form.
#![tactic(auto)]

mod answer;
mod frames;
mod held;
mod images;
mod made;
mod texts;
mod written;

use held::Held;
use script::{call, line, room};

fn main(rt: HostRuntime) {
    if call::takes(&rt, 0, b"usage: ./run sending [FILE]\n") {
        let mut held = Held {
            hex_text: room::filled(0, 0),
            image: room::filled(0, 0),
        };
        line::listen(&rt, &mut held);
    }
}
