// The bank check: the verdict as the number by which the paper says it.
ghost use Rattle.exports.specs.Check.{IsCheckNumber};

use bank::check::Fault;

pub fn bank_check(bank: &[u8]) -> u8
    ensures { IsCheckNumber bank.now result }
{
    match bank::check::check(bank) {
        Ok(()) => 0x06,
        Err(Fault::BadLength) => 2,
        Err(Fault::Unsound) => 0x1E,
    }
}
