// A board on the bench, driven by a script on standard input. docs/BOARD.md has the script's form.
#![tactic(auto)]

mod calls;
mod command;
mod field;
mod send;
mod settings;
mod shows;
mod state;
mod wrong;

use client::record::Client;
use layout::Bank;
use script::{call, line};
use state::Board;
use std::env::Env;

// Not compiled into `main`, which would then make room for the board before it looks at the words.
#[inline(never)]
fn play(rt: &(impl Env + Input)) {
    let hosted = Client::new(32, Bank::Zero, 0, 0, 0);
    let mut board = Board::fresh(hosted.client);
    line::listen(rt, &mut board);
}

fn main(rt: HostRuntime) {
    if call::takes(&rt, 0, b"usage: ./run board [FILE]\n") {
        play(&rt);
    }
}
