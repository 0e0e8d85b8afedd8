// A traded-in bank: bytes other than 0xFF outside table and bodies are set to that, and it is told where they were.
#![tactic(auto)]

mod blank;
mod count;
mod list;
mod numbers;
mod piece;

ghost use Rattle.std.specs.Prelude.{◌≡◌, true, ◌&&◌, ◌/◌, leb, length};
ghost use Rattle.layout.specs.Layout.{whole_length};
ghost use Rattle.bank.specs.Sound.{contents_good};
ghost use Rattle.clean.specs.Clean.{IsRefusalOf, IsCleanNumber, IsClean};

use bank::check::Fault;
use layout::{MOST, SECTOR};

// As many runs as no bank has more of: every second byte begins one.
pub const MOST_RUNS: usize = MOST * SECTOR / 2;

// So many runs and sectors are listed.
#[derive(Clone, Copy, PartialEq, Eq)]
pub struct Counts {
    pub runs: usize,
    pub sectors: usize,
}

// Why a bank is not cleaned.
#[derive(Clone, Copy, PartialEq, Eq)]
pub enum Refusal {
    // The length is no bank's.
    BadLength,
    // A fault beside the bytes outside table and bodies.
    Faulty,
    // A list is too short for all its entries.
    NoRoom,
}

impl From<Fault> for Refusal {
    ghost from_gives = { IsRefusalOf };

    fn from(fault: Fault) -> Refusal {
        match fault {
            Fault::BadLength => Refusal::BadLength,
            Fault::Unsound => Refusal::Faulty,
        }
    }
}

// The paper's number.
impl From<Refusal> for usize {
    ghost from_gives = { IsCleanNumber };

    fn from(refusal: Refusal) -> usize {
        match refusal {
            Refusal::BadLength => 2,
            Refusal::Faulty => 9,
            Refusal::NoRoom => 10,
        }
    }
}

// Whether the lists have room for so many runs and sectors; a run takes two numbers.
fn has_room(runs: usize, sectors: usize, n: usize, m: usize) -> bool
    ensures { result ≡ (leb n (runs / 2) && leb m sectors) }
{
    n <= runs / 2 && m <= sectors
}

// A bank with good contents: all is counted before anything is written.
fn clean_good(bank: &mut [u8], runs: &mut [u32], sectors: &mut [u16]) -> Result<Counts, Refusal>
    requires { (whole_length (length bank.old) ≡ true) × (contents_good bank.old ≡ true) }
    ensures { IsClean bank.old runs.old sectors.old result bank.new runs.new sectors.new }
{
    let found = bank::gaps::find(bank);
    let gaps = found.as_slice();
    let mut marks = count::no_marks();
    let n = count::mark(bank, gaps, &mut marks);
    let marks: &[bool] = &marks;
    let held = &marks[..bank.len() / SECTOR];
    let m = numbers::count(held);
    if !has_room(runs.len(), sectors.len(), n, m) {
        return Err(Refusal::NoRoom);
    }
    list::list(bank, gaps, marks, runs);
    numbers::list(held, sectors);
    blank::blank(bank, runs, n);
    Ok(Counts {
        runs: n,
        sectors: m,
    })
}

// Bytes other than 0xFF outside table and bodies become that. `runs` takes where they were, by offset and length, lowest first; `sectors` takes
// the numbers of the sectors that held them, from 1, ascending. No byte is read more often than the check of the cleaned bank reads it, plus once.
pub fn clean(bank: &mut [u8], runs: &mut [u32], sectors: &mut [u16]) -> Result<Counts, Refusal>
    ensures { IsClean bank.old runs.old sectors.old result bank.new runs.new sectors.new }
{
    bank::check::check_contents(bank)?;
    clean_good(bank, runs, sectors)
}
