// The second pass: the runs are listed. Sectors without a mark are passed over; nothing is written to the bank.
ghost use Rattle.std.specs.Prelude.{◌≡◌, ◌+◌, ◌*◌, ◌/◌, ◌≤◌, ◌<◌, [], ◌∷◌, length};
ghost use Rattle.std.proofs.lemmas.List.Edits.{sets};
ghost use Rattle.clean.specs.Clean.{runs_of};
ghost use Rattle.clean.specs.Old.{old};
ghost use Rattle.clean.specs.Runs.{run_before, flat};
ghost use Rattle.clean.specs.Walk.{GoodBank, Piece, AtGap, MarksAt, Reached, ListsOn, ListsGap, MarkTells, met};

use bank::gaps::Gap;
use layout::SECTOR;

// What is listed behind some bytes.
#[derive(Clone, Copy)]
pub(crate) struct Progress {
    // How many runs.
    pub runs: usize,
    // How many bytes there are right before, of a run that may go on.
    pub length: usize,
}

// Run n of the list: two of its numbers, since it is C that lends it.
fn put_run(runs: &mut [u32], n: usize, offset: usize, size: usize)
    requires { (2 * n + 2 ≤ length runs.old) × (offset < 4294967296) × (size < 4294967296) }
    ensures { runs.new ≡ sets runs.old (2 * n) (offset ∷ size ∷ []) }
{
    runs[2 * n] = offset as u32;
    runs[2 * n + 1] = size as u32;
}

// A run that went on up to `at` goes no further, and is put to the list.
fn close(runs: &mut [u32], listed: Progress, at: usize) -> Progress
    requires { (at < 4294967296) × (listed.length ≤ at) × (listed.runs + length (run_before at listed.length) ≤ length runs.old / 2) }
    ensures { (result ≡ record { runs = listed.runs + length (run_before at listed.length); length = 0 }) × (runs.exit.now ≡ sets runs.entry.now (2 * listed.runs) (flat (run_before at listed.length))) }
{
    if listed.length == 0 {
        return listed;
    }
    put_run(runs, listed.runs, at - listed.length, listed.length);
    Progress {
        runs: listed.runs + 1,
        length: 0,
    }
}

// One byte of a gap.
fn list_byte(bank: &[u8], at: usize, listed: Progress, runs: &mut [u32]) -> Progress
    requires piece { Piece bank.now at (at + 1) × (at < 4294967296) }
    requires reached { Reached (old bank.now) at listed × (met (old bank.now) (at + 1) ≤ length runs.old / 2) }
    ensures reached_2 { Reached (old bank.now) (at + 1) result }
    ensures lists_on { ListsOn (old bank.now) at (at + 1) runs.old runs.new }
{
    if bank[at] == 0xFF {
        return close(runs, listed, at);
    }
    Progress {
        runs: listed.runs,
        length: listed.length + 1,
    }
}

// The bytes of a piece, one after another.
fn list_piece(bank: &[u8], from: usize, to: usize, listed: Progress, runs: &mut [u32]) -> Progress
    requires piece { Piece bank.now from to × (to < 4294967296) }
    requires reached { Reached (old bank.now) from listed × (met (old bank.now) to ≤ length runs.old / 2) }
    ensures reached_2 { Reached (old bank.now) to result }
    ensures lists_on { ListsOn (old bank.now) from to runs.old runs.new }
{
    let mut so_far = listed;
    for at in from..to {
        so_far = list_byte(bank, at, so_far, runs);
    }
    so_far
}

// A piece whose sector has a mark or not. Without one nothing in it is old, and no byte of it is read.
fn list_marked(
    bank: &[u8],
    from: usize,
    to: usize,
    mark: bool,
    listed: Progress,
    runs: &mut [u32],
) -> Progress
    requires piece { Piece bank.now from to × (from < to) × (to < 4294967296) }
    requires mark_tells { MarkTells (old bank.now) from to mark }
    requires reached { Reached (old bank.now) from listed × (met (old bank.now) to ≤ length runs.old / 2) }
    ensures reached_2 { Reached (old bank.now) to result }
    ensures lists_on { ListsOn (old bank.now) from to runs.old runs.new }
{
    if mark {
        return list_piece(bank, from, to, listed, runs);
    }
    close(runs, listed, from)
}

// One gap, where `n` runs are listed before it.
fn list_gap(bank: &[u8], gap: Gap, marks: &[bool], n: usize, runs: &mut [u32]) -> usize
    requires at_gap { AtGap bank.now gap n }
    requires marks_at { MarksAt (old bank.now) (length bank.now) marks.now × (met (old bank.now) gap.end ≤ length runs.old / 2) }
    ensures value { result ≡ met (old bank.now) gap.end }
    ensures lists_gap { ListsGap (old bank.now) gap runs.old runs.new }
{
    let mut listed = Progress { runs: n, length: 0 };
    let mut at = gap.start;
    // The index is kept: the pieces are of unlike length, for a gap starts and ends anywhere.
    while at < gap.end {
        let end = crate::piece::end(at, gap.end);
        listed = list_marked(bank, at, end, marks[at / SECTOR], listed, runs);
        at = end;
    }
    let done = close(runs, listed, gap.end);
    done.runs
}

// All gaps. There is room for all runs.
pub(crate) fn list(bank: &[u8], gaps: &[Gap], marks: &[bool], runs: &mut [u32])
    requires good_bank { GoodBank bank.now gaps.now × MarksAt (old bank.now) (length bank.now) marks.now }
    requires bank_in_bounds { length (runs_of bank.now) ≤ length runs.old / 2 }
    ensures { runs.new ≡ sets runs.old 0 (flat (runs_of bank.now)) }
{
    let mut n = 0;
    for gap in gaps {
        n = list_gap(bank, *gap, marks, n, runs);
    }
}
