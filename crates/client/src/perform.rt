// Do: a plan carried out on the target bank. The running bank is never seen here.
ghost use Rattle.std.specs.Prelude.{◌≡◌, ◌≤◌, length};
ghost use Rattle.layout.specs.Layout.{bank_size, most_sectors};
ghost use Rattle.client.specs.Record.{starting, begun};
ghost use Rattle.client.specs.Perform.{fit_of, store_result, sector_crc, store_of, checked_of, finish_of, served_of, served, IsServed, Fair, Addressed};
ghost use Rattle.exchange.specs.declared.answer.Answer.TheVariants.{Response};

use crate::record::{Client, Latest};
use commands::Command;
use decision::plan::{Fixed, Plan};
use exchange::answer::{Answer, Refusal};
use exchange::state::State;

#[derive(Clone, Copy)]
pub(crate) struct Served {
    pub client: Client,
    pub answer: Result<Answer, Refusal>,
}

// Whether a client may start a bank.
fn fit(fixed: Fixed, bank: &[u8]) -> bool
    ensures { result ≡ fit_of fixed bank.now }
{
    bank::check::check(bank).is_ok()
}

// 1D where nothing but 0xFF was sent, or the sector already was what it should become.
fn store_result(blank: bool, already: bool) -> u8
    ensures { result ≡ store_result blank already }
{
    if blank || already { 0x1D } else { 0x06 }
}

// The CRC-32 of sector k as it stands.
fn sector_crc(bank: &[u8], k: usize) -> u32
    requires le_k { (1 ≤ k) × (k ≤ most_sectors) }
    requires k_in_bounds { bank_size k ≤ length bank.now }
    ensures { result ≡ sector_crc bank.now k }
{
    let from = layout::sector_offset(k);
    crc::crc32(&bank[from..from + layout::SECTOR])
}

impl Client {
    // A response with nothing behind its result.
    fn responds(self, command: Command, res: u8) -> Served
        ensures { result ≡ served self (Response command res) }
    {
        Served {
            client: self,
            answer: Ok(Answer::Response {
                command,
                result: res,
            }),
        }
    }

    // A write packet: the bytes to their sector, which counts as received.
    #[tactic(auto, unfolding(crate::specs::Perform::store_of))]
    fn store(self, target: &mut [u8], sector: u16, bytes: &[u8]) -> Served
        requires le_sector { (1 ≤ sector) × (sector ≤ most_sectors) }
        requires sector_in_bounds { bank_size sector ≤ length target.old }
        ensures { IsServed (store_of self sector bytes.now target.old) result target.new }
    {
        let k = sector as usize;
        let already = flash::bank::write_at(target, k, bytes);
        let blank = buffer::compare::blank(bytes);
        let write = store_result(blank, already);
        let crc = sector_crc(target, k);
        let client = self.marked(k);
        Served {
            client,
            answer: Ok(Answer::Written {
                sector,
                result: 0x06,
                write,
                crc,
            }),
        }
    }

    // The bank check, of what the sweep left. The next-start bank is set last, and only where the bank is fit.
    #[tactic(auto, unfolding(crate::specs::Perform::checked_of))]
    fn checked(self, target: &[u8]) -> Served
        ensures { IsServed (checked_of self target.now) result target.now }
    {
        if fit(self.fixed, target) {
            return self
                .ended(Latest::Good)
                .starting(layout::other(self.fixed.running))
                .responds(Command::WriteEnd, 0x06);
        }
        self.ended(Latest::Otherwise)
            .responds(Command::WriteEnd, 0x1E)
    }

    // End OTA Write.
    fn finish(self, target: &mut [u8]) -> Served
        ensures { IsServed (finish_of self target.old) result target.new }
    {
        flash::bank::sweep(target, self.fixed.n, &self.received);
        self.checked(target)
    }

    // Start OTA Write: the next-start bank is set first.
    fn begin(self) -> Client
        ensures { result ≡ begun (starting self.fixed.running self) }
    {
        self.starting(self.fixed.running).begun()
    }

    #[tactic(auto, unfolding(crate::specs::Perform::served_of))]
    pub(crate) fn serve(self, plan: Plan, target: &mut [u8], address: &[u8], bytes: &[u8]) -> Served
        requires fair { Fair plan (length target.old) }
        requires addressed { Addressed plan (length address.now) }
        ensures { IsServed (served_of self plan target.old address.now bytes.now) result target.new }
    {
        match plan {
            Plan::Refuse(why) => Served {
                client: self,
                answer: Err(why),
            },
            Plan::Keep(answer) => Served {
                client: self,
                answer: Ok(answer),
            },
            Plan::Open => self.opened(address).responds(Command::ModeStart, 0x06),
            Plan::Leave => self.left(State::Idle).responds(Command::ModeEnd, 0x06),
            Plan::Begin => self.begin().responds(Command::WriteStart, 0x06),
            Plan::Store { sector } => self.store(target, sector, bytes),
            Plan::Wear => self
                .ended(Latest::Otherwise)
                .responds(Command::WriteEnd, 0x1C),
            Plan::Finish => self.finish(target),
        }
    }
}
