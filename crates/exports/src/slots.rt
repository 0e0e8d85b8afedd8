// A client. Its record cannot pass through C, since it holds enums: a new client of bank 0 takes the datagrams of slots, one after another.
ghost use Rattle.std.specs.Prelude.{◌≡◌, true, ◌+◌, ◌*◌, ◌≤◌, length};
ghost use Rattle.client.specs.Step.{IsStep};
ghost use Rattle.exports.specs.Slots.{slot_room, slot_size, size_at, datagram_at, slots_good, address_size, address_at, all_good, given_of, fresh, IsTakeSlots};

use client::record::Client;
use client::step::Stepped;
use decision::plan::ADDRESS;
use exchange::answer::{Answer, Refusal};
use layout::Bank;

// A slot has a datagram's length in two bytes, high byte first, and room for the longest request.
pub(crate) const SLOT: usize = 521;

// The longest request.
const ROOM: usize = 519;

// The length that slot k says.
pub(crate) fn size_at(slots: &[u8], k: usize) -> usize
    requires { (k + 1) * slot_size ≤ length slots.now }
    ensures { result ≡ size_at slots.now k }
{
    usize::from(buffer::number::number::<u16, _>(slots, k * SLOT))
}

// Whether no slot says more than it has room for.
pub(crate) fn slots_good(slots: &[u8], count: usize) -> bool
    requires { count * slot_size ≤ length slots.now }
    ensures { result ≡ slots_good slots.now count }
{
    // A loop, and no `all` over the numbers: the search does not find the definition in what that ensures.
    for k in 0..count {
        if ROOM < size_at(slots, k) {
            return false;
        }
    }
    true
}

// Whether all slots can be taken: each has room for what it says, and each has its address, with nothing behind the last.
#[tactic(auto, unfolding(crate::specs::Slots::all_good))]
fn all_good(slots: &[u8], addresses: &[u8], count: usize) -> bool
    requires { count * slot_size ≤ length slots.now }
    ensures { result ≡ all_good slots.now addresses.now count }
{
    slots_good(slots, count) && addresses.len() == count * ADDRESS
}

// How long an answer is, or the paper's number where there is none.
fn given(answer: Result<Answer, Refusal>, length: usize) -> usize
    ensures { result ≡ given_of answer «length» }
{
    match answer {
        Ok(_) => length,
        Err(why) => u8::from(why) as usize,
    }
}

// A client of bank 0, initiated.
fn fresh(n: usize) -> Client
    ensures { result ≡ fresh n }
{
    let made = Client::new(n, Bank::Zero, 0, 0, 0);
    made.client.initiate().client
}

// The datagram of slot k, from its address.
fn take_slot(
    client: Client,
    slots: &[u8],
    k: usize,
    bank0: &mut [u8],
    bank1: &mut [u8],
    marks: &[u8],
    addresses: &[u8],
    buffer: &mut [u8],
) -> Stepped
    requires slot_size_in_bounds { (k + 1) * slot_size ≤ length slots.now }
    requires k_bound { size_at slots.now k ≤ slot_room }
    requires address_size_in_bounds { (k + 1) * address_size ≤ length addresses.now }
    ensures { IsStep client bank0.old bank1.old marks.now (address_at addresses.now k) buffer.old (datagram_at slots.now k) result bank0.new bank1.new buffer.new }
{
    let from = k * SLOT + 2;
    let to = from + size_at(slots, k);
    let start = k * ADDRESS;
    let end = start + ADDRESS;
    client.step(
        bank0,
        bank1,
        marks,
        &addresses[start..end],
        buffer,
        &slots[from..to],
    )
}

// The last answer's length or number comes back, and 0 without a slot. All slots and addresses are looked at before the first is handled.
pub fn client_take(
    n: usize,
    slots: &[u8],
    bank0: &mut [u8],
    bank1: &mut [u8],
    marks: &[u8],
    addresses: &[u8],
    buffer: &mut [u8],
) -> usize
    ensures { IsTakeSlots n slots.now bank0.old bank1.old marks.now addresses.now buffer.old result bank0.new bank1.new buffer.new }
{
    let count = slots.len() / SLOT;
    if !all_good(slots, addresses, count) {
        return 2;
    }
    let mut client = fresh(n);
    let mut told = 0;
    for k in 0..count {
        let stepped = take_slot(client, slots, k, bank0, bank1, marks, addresses, buffer);
        client = stepped.client;
        told = given(stepped.answer, stepped.length);
    }
    told
}
