// A bank's bytes, from standard input, as hex text.
#![tactic(auto)]

use layout::{Bank, MOST, SECTOR};
use rows::text::LONGEST;
use script::{call, input, say, text};
use std::env::Env;

const USAGE: &[u8] = b"usage: ./run hexout BANK [FILE]\n";

// One byte more than the largest bank has, so that a longer input is seen to be no bank.
const ROOM: usize = MOST * SECTOR + 1;

// The text lies within its room.
fn say_text(rt: &impl Env, hex_text: &[u8], size: usize) {
    if let Some(written) = hex_text.get(..size) {
        say::text(rt, written);
    }
}

fn write_into(rt: &impl Env, image: &[u8], bank: Bank, hex_text: &mut [u8]) {
    let written = rows::text::write(image, bank, hex_text);
    match written {
        Some(size) => say_text(rt, hex_text, size),
        None => say::refused_all(rt, rows::text::written_number(written)),
    }
}

fn write(rt: &impl Env, image: &[u8], bank: Bank) {
    let mut hex_text = [0u8; LONGEST];
    write_into(rt, image, bank, &mut hex_text);
}

// Not compiled into its caller, which would then take the room before it looks at the words.
#[inline(never)]
fn write_input(rt: &(impl Env + std::io::Input), bank: Bank) {
    let mut room = [0u8; ROOM];
    if let Some(size) = input::all(rt, &mut room) {
        write(rt, &room[..size], bank);
    }
}

fn called(rt: &(impl Env + std::io::Input)) {
    let mut first = [0u8; 8];
    match call::word(rt, 0, &mut first).and_then(text::bank) {
        Some(bank) => write_input(rt, bank),
        None => call::called_wrongly(
            rt,
            b"hexout: BANK is 0 or 1\nusage: ./run hexout BANK [FILE]\n",
        ),
    }
}

fn main(rt: HostRuntime) {
    if call::takes(&rt, 1, USAGE) {
        called(&rt);
    }
}
