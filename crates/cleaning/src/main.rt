// A traded-in bank, from standard input, cleaned: its bytes go to where `./run` takes the file OUT, and what was cleared is listed.
#![tactic(auto)]

use clean::{Counts, MOST_RUNS};
use layout::{MOST, SECTOR};
use script::{call, input, say};
use std::env::Env;

// One byte more than the largest bank has, so that a longer input is seen to be no bank.
const ROOM: usize = MOST * SECTOR + 1;

// Where `./run` takes the bytes of OUT, if the one word that it hands says so.
const OUT: i32 = 4;

fn list_run(rt: &impl Env, offset: u32, length: u32) {
    say::text(rt, b"cleared ");
    say::quad(rt, offset);
    say::field(rt, length as usize);
    say::end(rt);
}

fn list_sector(rt: &impl Env, sector: u16) {
    say::text(rt, b"rewrite ");
    say::pair(rt, sector);
    say::end(rt);
}

// Two numbers for each run, one for each sector.
fn list(rt: &impl Env, runs: &[u32], sectors: &[u16], counts: Counts) {
    for run in runs.chunks_exact(2).take(counts.runs) {
        if let [offset, length] = run {
            list_run(rt, *offset, *length);
        }
    }
    for sector in sectors.iter().take(counts.sectors) {
        list_sector(rt, *sector);
    }
    say::text(rt, b"cleaned ");
    say::decimal(rt, counts.runs);
    say::text(rt, b" runs, ");
    say::decimal(rt, counts.sectors);
    say::text(rt, b" sectors\n");
}

// Whether the bank is where it was to go. Started without `./run` it goes nowhere.
fn placed(rt: &impl Env, bank: &[u8], given: bool) -> bool {
    if !given || io::write_all(OUT, bank) {
        return true;
    }
    call::unwritten(rt);
    false
}

// No bank has more runs or more sectors than there is room for, so that 10 is never said.
fn clean_bank(rt: &impl Env, bank: &mut [u8], given: bool) {
    let mut runs = [0u32; 2 * MOST_RUNS];
    let mut sectors = [0u16; MOST];
    match clean::clean(bank, &mut runs, &mut sectors) {
        Ok(counts) => {
            // Of a bank that could not be written nothing is listed: who reads the list takes the sectors from there.
            if placed(rt, bank, given) {
                list(rt, &runs, &sectors, counts);
            }
        }
        Err(refusal) => say::refused_all(rt, usize::from(refusal)),
    }
}

fn clean_input(rt: &(impl Env + std::io::Input), given: bool) {
    let mut room = [0u8; ROOM];
    if let Some(size) = input::all(rt, &mut room) {
        clean_bank(rt, &mut room[..size], given);
    }
}

fn given_out(rt: &impl Env) -> bool {
    let mut first = [0u8; 8];
    matches!(call::word(rt, 0, &mut first), Some(b"out=4"))
}

fn main(rt: HostRuntime) {
    let given = given_out(&rt);
    if call::takes(&rt, usize::from(given), b"usage: ./run clean FILE OUT\n") {
        clean_input(&rt, given);
    }
}
