// The requests on where banks lie and on what they hold.
use crate::{lists, sums};
use bank::check::Fault;
use layout::Bank;
use script::{say, text};
use std::env::Env;

// Two sectors more than the largest bank has: what is too long is told from what is no request.
const LONGEST_BANK: usize = 252_416;

// A longer body is told by its length and its CRC-32.
const LONGEST_SHOWN: usize = 64;

fn say_layout(rt: &impl Env, bank: Bank, n: usize) {
    say::text(rt, b"layout ");
    say::decimal(rt, usize::from(u8::from(bank)));
    say::text(rt, b" ");
    say::quad(rt, layout::start_address(bank));
    say::text(rt, b" ");
    say::quad(rt, layout::end_address(bank, n));
    say::end(rt);
}

pub(crate) fn layout(rt: &impl Env, fields: &[u8]) -> Option<()> {
    let bank = text::bank(text::first(fields))?;
    let n = text::decimal(text::rest(fields), 6)?;
    say_layout(rt, bank, n);
    Some(())
}

fn say_sectors(rt: &impl Env, n: usize) {
    say::text(rt, b"sectors ");
    say::decimal(rt, n);
    say::end(rt);
}

pub(crate) fn sectors(rt: &impl Env, fields: &[u8]) -> Option<()> {
    let length = text::decimal(fields, 6)?;
    match layout::sectors(length) {
        None => say::text(rt, b"refused\n"),
        Some(n) => say_sectors(rt, n),
    }
    Some(())
}

// Puts a piece to its place in the bank: the bytes behind a colon, or behind a tilde so many of a ramp. `None` for what is no piece or does not lie
// within the bank.
fn put_piece(bank: &mut [u8], piece: &[u8]) -> Option<()> {
    let mark = piece.iter().position(|b| matches!(*b, b':' | b'~'))?;
    let (digits, marked) = piece.split_at_checked(mark)?;
    let (kind, behind) = marked.split_first()?;
    let room = bank.get_mut(text::decimal(digits, 6)?..)?;
    if *kind == b':' {
        text::bytes(behind, room)?;
    } else {
        let ramp = room.get_mut(..text::decimal(behind, 6)?)?;
        sums::fill(ramp, sums::Pattern::Ramp, 0);
    }
    Some(())
}

// The bank of so many bytes, 0xFF where no piece says otherwise, and what is said of it. The empty field behind a blank at the end would pass for no
// piece.
fn asked<F: FnOnce(&mut [u8]) -> Option<()>>(fields: &[u8], say: F) -> Option<()>
    requires { F.IsAlwaysCallable say }
{
    if text::ends_in_blank(fields) {
        return None;
    }
    let length = text::decimal(text::first(fields), 6)?;
    if length > LONGEST_BANK {
        return None;
    }
    let mut room = [0xFFu8; LONGEST_BANK];
    let bank = room.get_mut(..length)?;
    let pieces = text::rest(fields);
    if !pieces.is_empty() {
        for piece in pieces.split(|b| *b == b' ') {
            put_piece(bank, piece)?;
        }
    }
    say(bank)
}

fn say_verdict(rt: &impl Env, bank: &[u8]) {
    match bank::check::check(bank) {
        Ok(()) => say::text(rt, b"sound\n"),
        Err(Fault::BadLength) => say::text(rt, b"refused\n"),
        Err(Fault::Unsound) => say::text(rt, b"unsound\n"),
    }
}

fn say_body(rt: &impl Env, body: &[u8]) {
    say::text(rt, b"body ");
    if body.len() <= LONGEST_SHOWN {
        say::bytes(rt, body);
    } else {
        say::decimal(rt, body.len());
        say::text(rt, b" ");
        say::quad(rt, crc::crc32(body));
    }
    say::end(rt);
}

pub(crate) fn verdict(rt: &impl Env, fields: &[u8]) -> Option<()> {
    asked(fields, |bank| {
        say_verdict(rt, bank);
        Some(())
    })
}

pub(crate) fn body(rt: &impl Env, fields: &[u8]) -> Option<()> {
    let i = text::decimal(text::first(fields), 6)?;
    asked(text::rest(fields), |bank| {
        say_body(rt, bank::body::body(bank, i));
        Some(())
    })
}

pub(crate) fn clean(rt: &impl Env, fields: &[u8]) -> Option<()> {
    let later = text::rest(fields);
    let runs = text::decimal(text::first(fields), 6)?;
    let sectors = text::decimal(text::first(later), 6)?;
    asked(text::rest(later), |bank| {
        lists::cleaned(rt, bank, runs, sectors)
    })
}
