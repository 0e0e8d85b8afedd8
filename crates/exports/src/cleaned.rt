// A bank cleaned: the paper's number, and how many runs and sectors are listed.
ghost use Rattle.std.specs.Prelude.{◌≡◌};
ghost use Rattle.layout.specs.Said.{code};
ghost use Rattle.clean.specs.Clean.{cleaned_said};
ghost use Rattle.exports.specs.Cleaned.{told_of, IsCleanNumbers};

use clean::{Counts, Refusal};

// How many of each, none where it is refused.
fn counts_of(cleaned: Result<Counts, Refusal>) -> Counts
    ensures { result ≡ told_of cleaned }
{
    match cleaned {
        Ok(counts) => counts,
        Err(_) => Counts {
            runs: 0,
            sectors: 0,
        },
    }
}

// The paper's number, 0 where it is done.
fn number_of(cleaned: Result<Counts, Refusal>) -> usize
    ensures { result ≡ code (cleaned_said cleaned) }
{
    match cleaned {
        Ok(_) => 0,
        Err(refusal) => usize::from(refusal),
    }
}

// The number comes back, 0 where it is done; how many of each go to the front of `told`, without room for which nothing is done.
pub fn bank_clean(
    bank: &mut [u8],
    runs: &mut [u32],
    sectors: &mut [u16],
    told: &mut [usize],
) -> usize
    ensures { IsCleanNumbers bank.old runs.old sectors.old told.old result bank.new runs.new sectors.new told.new }
{
    if told.len() < 2 {
        return 2;
    }
    let cleaned = clean::clean(bank, runs, sectors);
    let counts = counts_of(cleaned);
    told[0] = counts.runs;
    told[1] = counts.sectors;
    number_of(cleaned)
}
