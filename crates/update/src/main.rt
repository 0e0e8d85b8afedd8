// From a hex text to a board: whether its image is a sound bank, which bodies that has and what is sent, as the comments of a script by which
// `board` carries out the whole update. docs/GUIDE.md leads through it.
#![tactic(auto)]

mod bodies;
mod frames;

ghost use Rattle.std.specs.Prelude.{◌≡◌, true, IfSome};
ghost use Rattle.layout.specs.Layout.{good_n};

use hex_text::fault::Refusal;
use hex_text::read::ReadError;
use layout::{Bank, MOST, SECTOR};
use script::{call, input, say, text};
use std::env::Env;

const USAGE: &[u8] = b"usage: ./run update BANK N [FILE]\n";

const LONGEST_TEXT: usize = 1_048_576;

fn say_bank(rt: &impl Env, target: Bank) {
    say::decimal(rt, usize::from(u8::from(target)));
}

fn say_report(rt: &impl Env, image: &[u8], target: Bank, n: usize, packets: usize) -> usize {
    say::text(rt, b"# a sound bank ");
    say_bank(rt, target);
    say::text(rt, b" of");
    say::field(rt, n);
    say::text(rt, b" sectors, sent as");
    say::field(rt, packets);
    say::text(rt, b" packets\n");
    bodies::report(rt, image)
}

// The board runs the other bank.
fn say_client(rt: &impl Env, target: Bank, n: usize) {
    say::text(rt, b"client");
    say::field(rt, n);
    say::text(rt, b" ");
    say_bank(rt, layout::other(target));
    say::text(rt, b" 0 0 0\ninitiate\n");
}

fn say_next(rt: &impl Env, target: Bank, count: usize) {
    say::text(rt, b"terminate\n");
    bodies::ask(rt, count);
    say::text(rt, b"record\ncrc ");
    say_bank(rt, target);
    say::end(rt);
}

fn say_script(rt: &impl Env, image: &[u8], target: Bank, n: usize, packets: usize) {
    let count = say_report(rt, image, target, n, packets);
    say_client(rt, target, n);
    frames::begin(rt, target, n);
    frames::packets(rt, image, n, packets);
    frames::end(rt);
    say_next(rt, target, count);
}

fn counted(rt: &impl Env, image: &[u8], target: Bank, n: usize) {
    match sender::packet::count(image, n) {
        Ok(packets) => say_script(rt, image, target, n, packets),
        Err(why) => say::refused_all(rt, usize::from(why)),
    }
}

fn judged(rt: &impl Env, image: &[u8], target: Bank, n: usize) {
    match bank::check::check(image) {
        Ok(()) => counted(rt, image, target, n),
        Err(_) => say::words_refused(rt, b"unsound"),
    }
}

fn say_refusal(rt: &impl Env, refusal: Refusal) {
    let number = u8::from(refusal.kind);
    say::refused_place_all(rt, usize::from(number), refusal.line, refusal.byte);
}

// The image has as much of its room as N says.
fn read_text(rt: &impl Env, hex_text: &[u8], target: Bank, n: usize) {
    let mut room = [0u8; MOST * SECTOR];
    let Some(image) = room.get_mut(..n.min(MOST) * SECTOR) else {
        return;
    };
    let answer = hex_text::read::read(hex_text, target, n, image);
    match answer {
        Err(ReadError::Line(refusal)) => say_refusal(rt, refusal),
        Ok(()) => judged(rt, image, target, n),
        _ => say::refused_all(rt, hex_text::read::answer_number(answer)),
    }
}

fn update_from(rt: &(impl Env + std::io::Input), room: &mut [u8], target: Bank, n: usize) {
    match input::all(rt, room) {
        Some(size) if size > LONGEST_TEXT => say::words_refused(rt, b"too long"),
        Some(size) => read_text(rt, &room[..size], target, n),
        None => (),
    }
}

// The room is a byte larger than the longest text, so that a longer one is seen to be so.
// Not compiled into its caller, which would then take the room before it looks at the words.
#[inline(never)]
fn update(rt: &(impl Env + std::io::Input), target: Bank, n: usize) {
    let mut room = [0u8; LONGEST_TEXT + 1];
    update_from(rt, &mut room, target, n);
}

fn n_of(word: Option<&[u8]>) -> Option<usize>
    ensures { IfSome result (λ n. good_n n ≡ true) }
{
    let n = text::decimal(word?, 6)?;
    if layout::good_n(n) { Some(n) } else { None }
}

// The first word that is wrong is named.
fn called(rt: &(impl Env + std::io::Input)) {
    let mut first = [0u8; 8];
    let mut second = [0u8; 8];
    let Some(target) = call::word(rt, 0, &mut first).and_then(text::bank) else {
        return call::called_wrongly(
            rt,
            b"update: BANK is 0 or 1\nusage: ./run update BANK N [FILE]\n",
        );
    };
    match n_of(call::word(rt, 1, &mut second)) {
        Some(n) => update(rt, target, n),
        None => call::called_wrongly(
            rt,
            b"update: N is 1 to 491\nusage: ./run update BANK N [FILE]\n",
        ),
    }
}

fn main(rt: HostRuntime) {
    if call::takes(&rt, 2, USAGE) {
        called(&rt);
    }
}
