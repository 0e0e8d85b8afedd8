// The first pass: how many runs of old bytes there are, and which sectors hold them. Nothing is written to the bank or to a list.
ghost use Rattle.std.specs.Prelude.{◌≡◌, ◌/◌, length};
ghost use Rattle.layout.specs.Layout.{sector_size};
ghost use Rattle.clean.specs.Clean.{runs_of};
ghost use Rattle.clean.specs.Old.{old};
ghost use Rattle.clean.specs.Walk.{Piece, GoodBank, AtGap, MarksAt, met, no_marks, seen_at};

use bank::gaps::Gap;
use layout::{MOST, SECTOR};

// What the first bytes of a bank have shown.
#[derive(Clone, Copy)]
pub(crate) struct Seen {
    // How many runs they have.
    pub runs: usize,
    // Whether the last byte is old: a run that may go on.
    pub last: bool,
    // Whether the sector that is looked at holds an old one.
    pub held: bool,
}

// A mark for each sector that a bank may have, none set.
pub(crate) fn no_marks() -> [bool; MOST]
    ensures { result ≡ no_marks }
{
    [false; MOST]
}

// The bytes of a piece. There is no way out of the loop, so that the compiler takes many at once.
// `Piece` says the fact of all three in a word: a struct of them would be made anew at each turn of a loop.
fn look(bank: &[u8], from: usize, to: usize, seen: Seen) -> Seen
    requires piece { Piece bank.now from to }
    requires seen_value { seen ≡ seen_at (old bank.now) from (from / sector_size) }
    ensures { result ≡ seen_at (old bank.now) to (from / sector_size) }
{
    let mut begun = 0u8;
    let mut last = seen.last;
    let mut held = seen.held;
    for byte in &bank[from..to] {
        let is_old = *byte != 0xFF;
        begun += u8::from(is_old & !last);
        held |= is_old;
        last = is_old;
    }
    Seen {
        runs: seen.runs + usize::from(begun),
        last,
        held,
    }
}

// One gap, where `runs` were met before it. Sectors that hold old bytes get their mark.
fn mark_gap(bank: &[u8], gap: Gap, runs: usize, marks: &mut [bool]) -> usize
    requires at_gap { AtGap bank.now gap runs }
    requires marks_at { MarksAt (old bank.now) gap.start marks.old }
    ensures value { result ≡ met (old bank.now) gap.end }
    ensures marks_at_2 { MarksAt (old bank.now) gap.end marks.new }
{
    let mut met = runs;
    let mut last = false;
    let mut at = gap.start;
    // The index is kept: the pieces are of unlike length, for a gap starts and ends anywhere.
    while at < gap.end {
        let sector = at / SECTOR;
        let end = crate::piece::end(at, gap.end);
        let before = Seen {
            runs: met,
            last,
            held: marks[sector],
        };
        let seen = look(bank, at, end, before);
        met = seen.runs;
        last = seen.last;
        marks[sector] = seen.held;
        at = end;
    }
    met
}

// All gaps. `marks` has none before.
pub(crate) fn mark(bank: &[u8], gaps: &[Gap], marks: &mut [bool]) -> usize
    requires good_bank { GoodBank bank.now gaps.now }
    requires marks_at { MarksAt (old bank.now) 0 marks.old }
    ensures value { result ≡ length (runs_of bank.now) }
    ensures marks_at_2 { MarksAt (old bank.now) (length bank.now) marks.new }
{
    let mut runs = 0;
    for gap in gaps {
        runs = mark_gap(bank, *gap, runs, marks);
    }
    runs
}
