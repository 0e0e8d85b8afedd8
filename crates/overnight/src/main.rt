// A night on the bench: requests go out on standard output, and what is heard comes in on standard input, line by line. docs/NIGHT.md leads
// through it.
#![tactic(auto)]

mod image;
mod name;
mod next;
mod talk;

ghost use Rattle.std.specs.Prelude.{◌≤◌, IfSome};

use script::{call, text};
use std::env::Env;
use std::fs::Files;

const USAGE: &[u8] = b"usage: ./run night BANK N T FILE.hex [FILE]\n";

fn number(word: Option<&[u8]>) -> Option<usize>
    ensures { IfSome result (λ n. n ≤ 999999) }
{
    let n = text::decimal(word?, 6)?;
    if n > text::LARGEST_NUMBER {
        return None;
    }
    Some(n)
}

// The first word that is wrong is named. Which N and T there are is the machine's to say.
fn called(rt: &(impl Env + Files + Input)) {
    let mut first = [0u8; 8];
    let mut second = [0u8; 8];
    let mut third = [0u8; 8];
    let mut fourth = io::buffer();
    let Some(bank) = call::word(rt, 0, &mut first).and_then(text::bank) else {
        return call::called_wrongly(
            rt,
            b"night: BANK is 0 or 1\nusage: ./run night BANK N T FILE.hex [FILE]\n",
        );
    };
    let Some(n) = number(call::word(rt, 1, &mut second)) else {
        return call::called_wrongly(
            rt,
            b"night: N is a number of one to six digits\nusage: ./run night BANK N T FILE.hex [FILE]\n",
        );
    };
    let Some(tries) = number(call::word(rt, 2, &mut third)) else {
        return call::called_wrongly(
            rt,
            b"night: T is a number of one to six digits\nusage: ./run night BANK N T FILE.hex [FILE]\n",
        );
    };
    match call::word(rt, 3, &mut fourth) {
        Some(name) if !name.is_empty() => image::send(rt, name, bank, n, tries),
        _ => call::called_wrongly(
            rt,
            b"night: FILE.hex is the name of a file\nusage: ./run night BANK N T FILE.hex [FILE]\n",
        ),
    }
}

fn main(rt: HostRuntime) {
    if call::takes(&rt, 4, USAGE) {
        called(&rt);
    }
}
