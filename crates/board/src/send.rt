// A datagram for the client, and what comes of it.
ghost use Rattle.std.specs.Prelude.{◌≡◌, min, take};

use crate::state::Board;
use crate::wrong::Wrong;
use client::notice::Notice;
use exchange::answer::{Answer, Refusal};
use script::room::Room;
use script::{room, say, text};
use std::env::Env;

pub(crate) fn say_refused(rt: &impl Env, number: usize) {
    say::refused(rt, number);
    say::end(rt);
}

// The sender's address, behind the result if the notice has one.
fn say_fields(rt: &impl Env, notice: Notice) {
    match notice {
        Notice::Started { address } => say::bytes(rt, &address),
        Notice::Ended { result, address } => {
            say::byte(rt, result);
            say::text(rt, b" ");
            say::bytes(rt, &address);
        }
    }
}

fn say_notice(rt: &impl Env, notice: Option<Notice>) {
    if let Some(given) = notice {
        say::text(rt, b" notice ");
        say::pair(rt, client::notice::notice_code(notice));
        say::text(rt, b" ");
        say_fields(rt, given);
    }
    say::end(rt);
}

fn say_answered(rt: &impl Env, bytes: &[u8], notice: Option<Notice>) {
    say::text(rt, b"answer ");
    say::bytes(rt, bytes);
    say_notice(rt, notice);
}

fn say_answer(
    rt: &impl Env,
    answer: Result<Answer, Refusal>,
    bytes: &[u8],
    notice: Option<Notice>,
) {
    match answer {
        Ok(_) => say_answered(rt, bytes, notice),
        Err(why) => say_refused(rt, u8::from(why) as usize),
    }
}

// How long the latest answer is: a datagram that is refused has none.
fn latest(answer: Result<Answer, Refusal>, count: usize, former: usize) -> usize {
    if answer.is_ok() { count } else { former }
}

// What is lent of a room, to be written.
fn lent<const N: usize>(room: &mut Room<N>) -> &mut [u8]
    ensures { result.now ≡ take (min room.old.lent N) room.old.bytes }
{
    &mut room.bytes[..room.lent.min(N)]
}

// The answer is shown as it stands in the buffer.
pub(crate) fn send(rt: &impl Env, board: &mut Board, fields: &[u8]) -> Result<(), Wrong> {
    let mut room = [0u8; 2048];
    let count = text::bytes(fields, &mut room).ok_or(Wrong::Bytes)?;
    let datagram = room.get(..count).ok_or(Wrong::Bytes)?;
    let client = board.client;
    let stepped = client.step(
        lent(&mut board.bank0),
        lent(&mut board.bank1),
        room::part(&board.marks),
        room::part(&board.address),
        lent(&mut board.buffer),
        datagram,
    );
    let answer = stepped.answer;
    let shown = board.buffer.bytes.get(..stepped.length).unwrap_or(&[]);
    say_answer(rt, answer, shown, stepped.notice);
    board.client = stepped.client;
    board.answered = latest(answer, stepped.length, board.answered);
    Ok(())
}
