// A bank of sectors, numbered from 1. Its bytes change through `store` alone, which lends on just the 512 bytes of one sector.
ghost use Rattle.std.specs.Prelude.{◌≡◌, true, false, ◌+◌, ◌*◌, ◌/◌, ◌≤◌, min, length, get_or};
ghost use Rattle.buffer.specs.Compare.{same_of};
ghost use Rattle.layout.specs.Layout.{sector_size, sector_of};
ghost use Rattle.flash.specs.Sector.{word_bytes, padded_of, fits_sector};
ghost use Rattle.flash.specs.Bank.{has_sector, IsStore, IsWriteAt, IsSweep};
ghost use Rattle.flash.specs.Store.{StoresLeave, word_store, word_stores, sweep_store};

use crate::sector::{Store, WORD};
use layout::SECTOR;

// Whether sector `k` lies within a bank of so many bytes.
fn has_sector(bytes: usize, k: usize) -> bool
    ensures { result ≡ has_sector bytes k }
{
    layout::good_n(k) && k * SECTOR <= bytes
}

// One store to sector `k`. What does not lie within a sector of the bank changes nothing.
pub fn store(bank: &mut [u8], k: usize, store: Store)
    ensures { IsStore bank.old k store bank.new }
{
    if !has_sector(bank.len(), k) {
        return;
    }
    let from = layout::sector_offset(k);
    crate::sector::make(&mut bank[from..from + SECTOR], store);
}

// Word `i` of the bytes to its place in sector `k`. A blank one is there already: the sector was erased. It is read from the rest of the
// bytes, and not from its four alone, so that the compiler takes all four at once.
fn put_word(bank: &mut [u8], k: usize, bytes: &[u8], i: usize)
    requires { i * word_bytes + word_bytes ≤ length bytes.now }
    ensures { StoresLeave (word_store k bytes.now i) bank.old bank.new }
{
    let at = i * WORD;
    let word: u32 = buffer::number::number(&bytes[at..], 0);
    if word == 0xFFFF_FFFF {
        return;
    }
    store(bank, k, Store::Word { at, word });
}

// The first `n` words of the bytes, ascending.
fn put_words(bank: &mut [u8], k: usize, bytes: &[u8], n: usize)
    requires { n * word_bytes ≤ length bytes.now }
    ensures { StoresLeave (word_stores k bytes.now n) bank.old bank.new }
{
    for i in 0..n {
        put_word(bank, k, bytes, i);
    }
}

// Whether so many bytes fit a sector, in whole words.
fn fits_sector(m: usize) -> bool
    ensures { result ≡ fits_sector m }
{
    m <= SECTOR && m % WORD == 0
}

// Whether all of sector `k` is the bytes followed by 0xFF already.
fn already(bank: &[u8], k: usize, bytes: &[u8]) -> bool
    requires { (has_sector (length bank.now) k ≡ true) × (fits_sector (length bytes.now) ≡ true) }
    ensures { result ≡ same_of (sector_of bank.now k) (padded_of bytes.now) }
{
    let from = layout::sector_offset(k);
    crate::sector::holds(&bank[from..from + SECTOR], bytes)
}

// Sector `k` becomes the bytes followed by 0xFF. Whether all of it already was that: then there is nothing to store.
pub fn write_at(bank: &mut [u8], k: usize, bytes: &[u8]) -> bool
    ensures { IsWriteAt bank.old k bytes.now bank.new result }
{
    if !has_sector(bank.len(), k) {
        return false;
    }
    if !fits_sector(bytes.len()) {
        return false;
    }
    if already(bank, k, bytes) {
        return true;
    }
    store(bank, k, Store::Erase);
    put_words(bank, k, bytes, bytes.len() / WORD);
    false
}

// Sector `k` is erased, unless it was received.
fn sweep_one(bank: &mut [u8], k: usize, received: bool)
    ensures { StoresLeave (sweep_store (length bank.old) k received) bank.old bank.new }
{
    if received {
        return;
    }
    store(bank, k, Store::Erase);
}

// How many of the first `n` sectors end within so many bytes.
fn had(bytes: usize, n: usize) -> usize
    ensures { result ≡ min n (bytes / sector_size) }
{
    n.min(bytes / SECTOR)
}

// What is said of sector `j + 1`; one of which nothing is said was not received.
fn was_received(received: &[bool], j: usize) -> bool
    ensures { result ≡ get_or received.now j false }
{
    received.get(j).copied().unwrap_or(false)
}

// Each of sectors 1 to `n` that was not received is erased, blank or not.
pub fn sweep(bank: &mut [u8], n: usize, received: &[bool])
    ensures { IsSweep bank.old n received.now bank.new }
{
    let last = had(bank.len(), n);
    for j in 0..last {
        sweep_one(bank, j + 1, was_received(received, j));
    }
}
