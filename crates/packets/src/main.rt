// Hex text for bank 0 of 32 sectors, from standard input, as the sector packets that are sent of it: each one's sector and footer, and how
// many they are.
#![tactic(auto)]

use frame::read::{Footer, Frame};
use hex_text::fault::Refusal;
use hex_text::read::ReadError;
use layout::{Bank, SECTOR};
use script::{call, input, say};
use sender::made::ROOM;
use std::env::Env;

const N: usize = 32;

const LONGEST_TEXT: usize = 49_152;

fn say_listed(rt: &impl Env, sector: u16, footer: Footer) {
    say::pair(rt, sector);
    say::text(rt, b" ");
    say::byte(rt, u8::from(footer));
    say::end(rt);
}

// Sector and footer, as the packet is read.
fn say_packet(rt: &impl Env, packet: &[u8]) {
    if let Some(Frame::Write { sector, footer, .. }) = frame::read::read_frame(packet) {
        say_listed(rt, sector, footer);
    }
}

fn say_made(rt: &impl Env, buffer: &[u8], size: usize) {
    if let Some(packet) = buffer.get(..size) {
        say_packet(rt, packet);
    }
}

// 32 is a number of sectors, and the image has as many: no refusal by its number is ever said.
fn list_one(rt: &impl Env, image: &[u8], p: usize) {
    let mut buffer = [0u8; ROOM];
    match sender::packet::packet(image, N, p, &mut buffer) {
        Ok(size) => say_made(rt, &buffer, size),
        Err(why) => say::refused_all(rt, usize::from(why)),
    }
}

fn list_all(rt: &impl Env, image: &[u8], count: usize) {
    for p in 0..count {
        list_one(rt, image, p);
    }
    say::text(rt, b"sent ");
    say::decimal(rt, count);
    say::end(rt);
}

fn list(rt: &impl Env, image: &[u8]) {
    match sender::packet::count(image, N) {
        Ok(count) => list_all(rt, image, count),
        Err(why) => say::refused_all(rt, usize::from(why)),
    }
}

fn say_refusal(rt: &impl Env, refusal: Refusal) {
    say::refused_place_all(
        rt,
        usize::from(u8::from(refusal.kind)),
        refusal.line,
        refusal.byte,
    );
}

fn answer(rt: &impl Env, text: &[u8]) {
    let mut image = [0u8; SECTOR * N];
    let answer = hex_text::read::read(text, Bank::Zero, N, &mut image);
    match answer {
        Err(ReadError::Line(refusal)) => say_refusal(rt, refusal),
        Ok(()) => list(rt, &image),
        _ => say::refused_all(rt, hex_text::read::answer_number(answer)),
    }
}

fn say_too_long(rt: &impl Env) {
    say::text(rt, b"too long\n");
    call::refused(rt);
}

// The room is a byte larger than the longest text, so that a longer one is seen to be so.
fn list_input(rt: &(impl Env + std::io::Input)) {
    let mut room = [0u8; LONGEST_TEXT + 1];
    match input::all(rt, &mut room) {
        Some(size) if size > LONGEST_TEXT => say_too_long(rt),
        Some(size) => answer(rt, &room[..size]),
        None => (),
    }
}

fn main(rt: HostRuntime) {
    if call::takes(&rt, 0, b"usage: ./run packets [FILE]\n") {
        list_input(&rt);
    }
}
