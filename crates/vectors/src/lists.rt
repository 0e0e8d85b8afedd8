// The request that has a bank cleaned: what `clean` makes of it with lists of so many numbers lent.
use clean::{Counts, Refusal};
use script::say;
use std::env::Env;

// The longest list of runs: 32 of them, two numbers each.
const LONGEST_RUNS: usize = 64;

// The longest list of sectors; no bank has so many.
const LONGEST_SECTORS: usize = 512;

fn say_list<T: Copy, F: Fn(T)>(rt: &impl Env, list: &[T], say: F)
    requires { F.IsAlwaysCallable say }
{
    say::text(rt, b" ");
    if list.is_empty() {
        say::text(rt, b"-");
    }
    for entry in list {
        say(*entry);
    }
}

fn say_outcome(rt: &impl Env, cleaned: Result<Counts, Refusal>) {
    match cleaned {
        Ok(counts) => {
            say::text(rt, b"cleaned");
            say::field(rt, counts.runs);
            say::field(rt, counts.sectors);
        }
        Err(refusal) => say::refused(rt, usize::from(refusal)),
    }
}

// Lists and bank are told of a refusal too: they are to be as they were.
fn say_cleaned(rt: &impl Env, bank: &mut [u8], runs: &mut [u32], sectors: &mut [u16]) {
    say_outcome(rt, clean::clean(bank, runs, sectors));
    say_list(rt, runs, |offset| say::quad(rt, offset));
    say_list(rt, sectors, |sector| say::pair(rt, sector));
    say::text(rt, b" ");
    say::quad(rt, crc::crc32(bank));
    say::end(rt);
}

// `None` where there are no such lists. What a list holds before is another number at each place, and one that no entry is.
pub(crate) fn cleaned(rt: &impl Env, bank: &mut [u8], runs: usize, sectors: usize) -> Option<()> {
    let mut run_list = [0u32; LONGEST_RUNS];
    let mut sector_list = [0u16; LONGEST_SECTORS];
    for (i, place) in run_list.iter_mut().enumerate() {
        *place = 0xA500_0000 + i as u32;
    }
    for (i, place) in sector_list.iter_mut().enumerate() {
        *place = 0xA500 + i as u16;
    }
    let runs = run_list.get_mut(..runs)?;
    let sectors = sector_list.get_mut(..sectors)?;
    say_cleaned(rt, bank, runs, sectors);
    Some(())
}
