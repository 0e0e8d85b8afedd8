// A night sender. Its record cannot pass through C, since it holds enums: a night for bank 0 begins and hears the responses of slots, one after another.
ghost use Rattle.std.specs.Prelude.{◌≡◌, ◌+◌, ◌*◌, ◌≤◌, length};
ghost use Rattle.night.specs.Call.{IsHeard};
ghost use Rattle.exports.specs.Slots.{slot_room, slot_size, size_at, datagram_at};
ghost use Rattle.exports.specs.Heard.{next_code, IsNightSlots};

use crate::slots::SLOT;
use layout::Bank;
use night::record::{Called, Next, Night, Refusal};

// A request's length, which is 5, 13 or 519, or a refusal's number; what is neither has a number that is none of these. No
// `From`: neither type is of this crate.
fn next_code(next: Result<Next, Refusal>) -> usize
    ensures { result ≡ next_code next }
{
    match next {
        Err(_) => night::record::next_number(next),
        Ok(Next::NotBegun) => 21,
        Ok(Next::Send { name: _, size }) => size,
        Ok(Next::Finished) => 0,
        Ok(Next::GaveUp { name: _, why: _ }) => 20,
    }
}

// The response of slot k. An empty one cannot be read, and so spends a try as silence does.
fn hear_slot(night: Night, slots: &[u8], k: usize, image: &[u8], buffer: &mut [u8]) -> Called
    requires slot_size_in_bounds { (k + 1) * slot_size ≤ length slots.now }
    requires k_bound { size_at slots.now k ≤ slot_room }
    ensures { IsHeard night (datagram_at slots.now k) image.now buffer.old result buffer.new }
{
    let from = k * SLOT + 2;
    let to = from + crate::slots::size_at(slots, k);
    night::call::heard(night, &slots[from..to], image, buffer)
}

// What the last call told comes back. All slots are looked at before the night begins.
pub fn night_take(image: &[u8], n: usize, tries: usize, slots: &[u8], buffer: &mut [u8]) -> usize
    ensures { IsNightSlots image.now n tries slots.now buffer.old result buffer.new }
{
    let count = slots.len() / SLOT;
    if !crate::slots::slots_good(slots, count) {
        return 2;
    }
    let begun = night::call::start(image, Bank::Zero, n, tries, buffer);
    let mut night = begun.night;
    let mut told = next_code(begun.next);
    for k in 0..count {
        let called = hear_slot(night, slots, k, image, buffer);
        night = called.night;
        told = next_code(called.next);
    }
    told
}
