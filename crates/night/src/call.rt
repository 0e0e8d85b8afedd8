// The calls of a night: its start, and an event.
ghost use Rattle.std.specs.Prelude.{◌≡◌, true, ◌<◌, ◌≤◌, length};
ghost use Rattle.layout.specs.Layout.{good_n};
ghost use Rattle.sender.specs.Made.{room};
ghost use Rattle.sender.specs.Packet.{image_good, packet_count};
ghost use Rattle.night.specs.Call.{called, stands_at, over_of, IsGoesOn, IsAtHand, IsStep, IsStart, IsHeard, IsSilent};

use crate::name::Name;
use crate::record::{Called, Next, Night, Refusal, Stand};
use crate::{judge, lent, make, name, record};
use layout::Bank;
use response::read::Response;
use sender::made::Place;

impl Night {
    // The record, and what is told beside it.
    fn told(self, next: Result<Next, Refusal>) -> Called
        ensures { result ≡ called self next }
    {
        Called { night: self, next }
    }

    // The record as it stands now, and the request that goes out by it or the end that it is at.
    fn goes_on(self, image: &[u8], buffer: &mut [u8]) -> Called
        requires n_value { good_n self.n ≡ true }
        requires n_value_2 { image_good image.now self.n ≡ true }
        requires room_in_bounds { room ≤ length buffer.old }
        requires stand_bound { stands_at self.stand < packet_count image.now self.n }
        ensures { IsGoesOn self image.now buffer.old result buffer.new }
    {
        match self.stand {
            Stand::NotBegun => self.told(Ok(Next::NotBegun)),
            Stand::At { name, .. } => self.told(make::make(name, self.bank, self.n, image, buffer)),
            Stand::Finished => self.told(Ok(Next::Finished)),
            Stand::GaveUp { name, why } => self.told(Ok(Next::GaveUp { name, why })),
        }
    }

    // The night is over: the same end is told again, unless what is lent is refused.
    fn over(self, p: usize, end: Next, image: &[u8], room: usize) -> Called
        ensures { result ≡ over_of self p end image.now room }
    {
        match lent::look(image, self.n, self.tries, room, p) {
            Err(why) => self.told(Err(why)),
            Ok(_) => self.told(Ok(end)),
        }
    }

    fn at_hand(
        self,
        name: Name,
        gone: usize,
        response: Option<Response>,
        image: &[u8],
        buffer: &mut [u8],
    ) -> Called
        ensures { IsAtHand self name gone response image.now buffer.old result buffer.new }
    {
        let p = name::number(name);
        match lent::look(image, self.n, self.tries, buffer.len(), p) {
            Err(why) => self.told(Err(why)),
            Ok(Place { sector, count }) => {
                let verdict = judge::judge(name, gone >= 2, self.bank, image, sector, response);
                let stand = record::moved(name, gone, self.tries, count, verdict);
                Night { stand, ..self }.goes_on(image, buffer)
            }
        }
    }

    fn step(self, response: Option<Response>, image: &[u8], buffer: &mut [u8]) -> Called
        ensures { IsStep self response image.now buffer.old result buffer.new }
    {
        let room = buffer.len();
        match self.stand {
            Stand::NotBegun => self.told(Ok(Next::NotBegun)),
            Stand::At { name, gone } => self.at_hand(name, gone, response, image, buffer),
            Stand::Finished => self.over(0, Next::Finished, image, room),
            Stand::GaveUp { name, why } => {
                self.over(name::number(name), Next::GaveUp { name, why }, image, room)
            }
        }
    }
}

pub fn start(image: &[u8], bank: Bank, n: usize, tries: usize, buffer: &mut [u8]) -> Called
    ensures { IsStart image.now bank n tries buffer.old result buffer.new }
{
    let night = Night {
        bank,
        n,
        tries,
        stand: Stand::NotBegun,
    };
    match lent::look(image, n, tries, buffer.len(), 0) {
        Err(why) => night.told(Err(why)),
        Ok(_) => {
            let stand = Stand::At {
                name: Name::ModeStart,
                gone: 1,
            };
            Night { stand, ..night }.goes_on(image, buffer)
        }
    }
}

pub fn heard(night: Night, datagram: &[u8], image: &[u8], buffer: &mut [u8]) -> Called
    ensures { IsHeard night datagram.now image.now buffer.old result buffer.new }
{
    night.step(response::read::read_response(datagram), image, buffer)
}

// Silence is as a response that cannot be read: either spends a try, whatever is at hand.
pub fn silent(night: Night, image: &[u8], buffer: &mut [u8]) -> Called
    ensures { IsSilent night image.now buffer.old result buffer.new }
{
    night.step(None, image, buffer)
}
