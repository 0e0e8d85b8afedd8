// What is written to standard output. It is written by hand, piece by piece: where one cannot be written that is told, and the next is tried all the
// same, while `print!` ends at the first. Bytes are in upper case with nothing between them, which is no form of std's for a slice.
ghost use Rattle.std.specs.Prelude.{◌<◌, ◌≤◌};
ghost use Rattle.io.specs.Counts.{IsPrefixLen};
ghost use Rattle.script.specs.Spelt.{IsSpell};

use crate::call;
use std::env::Env;

pub const STDOUT_FILENO: i32 = 1;

fn written(rt: &impl Env, all: bool) {
    if !all {
        call::unwritten(rt);
    }
}

pub fn text(rt: &impl Env, words: &[u8]) {
    written(rt, io::write_all(STDOUT_FILENO, words));
}

// Of a line that is no request: the next one is answered all the same.
pub fn no_request(rt: &impl Env) {
    text(rt, b"?\n");
    call::refused(rt);
}

pub fn end(rt: &impl Env) {
    text(rt, b"\n");
}

const LARGEST_PIECE: usize = 2048;

// The bytes' digits to the front of `into`, and how many they are; none where they have no room.
fn spell(bytes: &[u8], into: &mut [u8]) -> usize
    ensures { IsPrefixLen result into.new × IsSpell bytes.now into.old into.new result }
{
    if bytes.len() > into.len() / 2 {
        return 0;
    }
    for (i, byte) in bytes.iter().enumerate() {
        into[2 * i] = digits::digit(*byte / 16);
        into[2 * i + 1] = digits::digit(*byte);
    }
    2 * bytes.len()
}

fn hex_piece(rt: &impl Env, bytes: &[u8]) {
    let mut spelt = [0u8; 2 * LARGEST_PIECE];
    let n = spell(bytes, &mut spelt);
    text(rt, &spelt[..n]);
}

pub fn hex(rt: &impl Env, bytes: &[u8]) {
    for piece in bytes.chunks(LARGEST_PIECE) {
        hex_piece(rt, piece);
    }
}

pub fn bytes(rt: &impl Env, all: &[u8]) {
    if all.len() == 0 {
        text(rt, b"-");
    } else {
        hex(rt, all);
    }
}

pub fn byte(rt: &impl Env, value: u8) {
    let one = [value];
    hex(rt, &one);
}

pub fn pair(rt: &impl Env, value: u16) {
    let mut two = [0u8; 2];
    buffer::number::put_number(&mut two, 0, value);
    hex(rt, &two);
}

pub fn quad(rt: &impl Env, value: u32) {
    let mut four = [0u8; 4];
    buffer::number::put_number(&mut four, 0, value);
    hex(rt, &four);
}

pub fn decimal(rt: &impl Env, value: usize) {
    written(rt, io::print_decimal(STDOUT_FILENO, value as u64));
}

// One field more.
pub fn field(rt: &impl Env, number: usize) {
    text(rt, b" ");
    decimal(rt, number);
}

// The paper's number of a refusal.
pub fn refused(rt: &impl Env, number: usize) {
    text(rt, b"refused ");
    decimal(rt, number);
}

// The end of a refusal after which nothing is done.
pub fn end_refused(rt: &impl Env) {
    end(rt);
    call::refused(rt);
}

// A refusal in words, and nothing else.
pub fn words_refused(rt: &impl Env, words: &[u8]) {
    text(rt, words);
    end_refused(rt);
}

pub fn refused_all(rt: &impl Env, number: usize) {
    refused(rt, number);
    end_refused(rt);
}

// Of a hex text: its fault, H1 to H6, the line, and the byte in it.
pub fn refused_place(rt: &impl Env, fault: usize, line: usize, byte: usize) {
    text(rt, b"refused H");
    decimal(rt, fault);
    text(rt, b" line ");
    decimal(rt, line);
    text(rt, b" byte ");
    decimal(rt, byte);
}

pub fn refused_place_all(rt: &impl Env, fault: usize, line: usize, byte: usize) {
    refused_place(rt, fault, line, byte);
    end_refused(rt);
}
