// The runs that a list names are set to 0xFF. No byte of the bank is read.
ghost use Rattle.std.specs.Prelude.{◌≡◌, ◌+◌, ◌*◌, ◌≤◌, length};
ghost use Rattle.clean.specs.Clean.{cleared_of};
ghost use Rattle.clean.specs.Meaning.{AreRuns};
ghost use Rattle.clean.specs.Walk.{blanked};

fn blank_run(bank: &mut [u8], from: usize, size: usize)
    requires { from + size ≤ length bank.old }
    ensures { bank.new ≡ blanked bank.old from size }
{
    buffer::fill::fill(&mut bank[from..from + size], 0xFF);
}

// The first n runs of the list.
pub(crate) fn blank(bank: &mut [u8], runs: &[u32], n: usize)
    requires { AreRuns bank.old runs.now n × (2 * n ≤ length runs.now) }
    ensures { bank.new ≡ cleared_of bank.old }
{
    for i in 0..n {
        let from = runs[2 * i] as usize;
        let size = runs[2 * i + 1] as usize;
        blank_run(bank, from, size);
    }
}
