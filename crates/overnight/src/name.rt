// The name of a request, for either output; written by hand, as `script::say` has it.
use frame::read::Frame;
use night::name::Name;
use script::call;
use script::say::STDOUT_FILENO;
use std::env::Env;

// What standard error does not take is lost, and nothing more comes of it.
fn written(rt: &impl Env, to: i32, all: bool) {
    if (to == STDOUT_FILENO) & !all {
        call::unwritten(rt);
    }
}

pub(crate) fn text(rt: &impl Env, to: i32, words: &[u8]) {
    written(rt, to, io::write_all(to, words));
}

pub(crate) fn decimal(rt: &impl Env, to: i32, number: usize) {
    written(rt, to, io::print_decimal(to, number as u64));
}

// The sector of the packet at hand, whose frame fills the buffer.
fn sector(buffer: &[u8]) -> u16 {
    if let Some(Frame::Write { sector, .. }) = frame::read::read_frame(buffer) {
        sector
    } else {
        0
    }
}

fn hex(rt: &impl Env, to: i32, number: u16) {
    let mut two = [0u8; 2];
    buffer::number::put_number(&mut two, 0, number);
    let four = [
        digits::digit(two[0] / 16),
        digits::digit(two[0]),
        digits::digit(two[1] / 16),
        digits::digit(two[1]),
    ];
    text(rt, to, &four);
}

fn packet(rt: &impl Env, to: i32, p: usize, buffer: &[u8]) {
    text(rt, to, b"packet ");
    decimal(rt, to, p);
    text(rt, to, b" sector ");
    hex(rt, to, sector(buffer));
}

pub(crate) fn say(rt: &impl Env, to: i32, name: Name, buffer: &[u8]) {
    match name {
        Name::ModeStart => text(rt, to, b"mode start"),
        Name::VersionInfo => text(rt, to, b"version"),
        Name::BankInfo => text(rt, to, b"bank"),
        Name::WriteStart => text(rt, to, b"write start"),
        Name::Packet(p) => packet(rt, to, p, buffer),
        Name::WriteEnd => text(rt, to, b"write end"),
        Name::ModeEnd => text(rt, to, b"mode end"),
    }
}
