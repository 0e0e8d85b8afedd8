// The board between two lines of its script.
ghost use Rattle.std.specs.Prelude.{◌≤◌};

use crate::{command, wrong};
use client::record::Client;
use decision::plan::ADDRESS;
use layout::{Bank, MOST, SECTOR};
use script::line::{Heard, Listener};
use script::room;
use script::room::Room;
use std::env::Env;

// Room for a bank: two sectors more than the largest has.
pub const BANK_ROOM: usize = 252_416;

pub const MARKS_ROOM: usize = 512;

pub const ADDRESS_ROOM: usize = 32;

pub const BUFFER_ROOM: usize = 1_024;

// How much of each room is lent to the client is a number of its own.
#[derive(Clone, Copy)]
pub struct Board {
    pub bank0: Room<BANK_ROOM>,
    pub bank1: Room<BANK_ROOM>,
    pub marks: Room<MARKS_ROOM>,
    pub address: Room<ADDRESS_ROOM>,
    pub buffer: Room<BUFFER_ROOM>,
    // As many bytes as the latest answer in the buffer has.
    pub answered: usize,
    // Behind the rooms, whose lengths the proofs look for from the front.
    pub client: Client,
}

// As many sectors are lent as the client has, but no more than a bank can have.
fn sectors(client: Client) -> usize
    ensures { result ≤ 491 }
{
    client.fixed.n.min(MOST)
}

impl Board {
    // All of both banks of a new board is 0xFF.
    pub(crate) fn fresh(client: Client) -> Board {
        let lent = sectors(client);
        Board {
            bank0: room::filled(0xFF, lent * SECTOR),
            bank1: room::filled(0xFF, lent * SECTOR),
            marks: room::filled(0, lent),
            address: room::filled(0, ADDRESS),
            buffer: room::filled(0xA5, 14),
            answered: 0,
            client,
        }
    }

    pub(crate) fn bank(&self, bank: Bank) -> &Room<BANK_ROOM> {
        match bank {
            Bank::Zero => &self.bank0,
            Bank::One => &self.bank1,
        }
    }

    pub(crate) fn bank_mut(&mut self, bank: Bank) -> &mut Room<BANK_ROOM> {
        match bank {
            Bank::Zero => &mut self.bank0,
            Bank::One => &mut self.bank1,
        }
    }
}

// A line that is no line of the script ends it. At the text's end there is no line, and nothing is said.
impl Listener for Board {
    fn hear<R: Env>(&mut self, rt: &R, number: usize, heard: Heard<'_>) -> bool {
        match heard {
            Heard::Line(line) => command::follow(rt, self, number, line),
            Heard::TooLong => wrong::too_long(rt, number),
            Heard::End => false,
        }
    }
}
