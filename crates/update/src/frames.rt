// The frames of an update, each as a line of the script.
use layout::Bank;
use script::say;
use sender::made::{ROOM, Refusal};
use sender::request::Request;
use std::env::Env;

fn say_frame(rt: &impl Env, buffer: &[u8], size: usize) {
    if let Some(frame) = buffer.get(..size) {
        say::text(rt, b"send ");
        say::hex(rt, frame);
        say::end(rt);
    }
}

fn say_made(rt: &impl Env, made: Result<usize, Refusal>, buffer: &[u8]) {
    match made {
        Ok(size) => say_frame(rt, buffer, size),
        // N was looked at, and the image is lent as it says: this is never said.
        Err(why) => say::refused_all(rt, usize::from(why)),
    }
}

fn say_request(rt: &impl Env, why: &[u8], request: Request) {
    let mut buffer = [0u8; ROOM];
    let made = sender::request::make(request, &mut buffer);
    say::text(rt, why);
    say_made(rt, made, &buffer);
}

pub(crate) fn begin(rt: &impl Env, target: Bank, n: usize) {
    say_request(rt, b"# Start OTA Mode\n", Request::ModeStart);
    say_request(rt, b"# bank information\n", Request::BankInfo);
    say_request(rt, b"# version\n", Request::VersionInfo);
    say_request(
        rt,
        b"# Start OTA Write\n",
        Request::WriteStart { bank: target, n },
    );
}

fn say_packet(rt: &impl Env, image: &[u8], n: usize, p: usize) {
    let mut buffer = [0u8; ROOM];
    let made = sender::packet::packet(image, n, p, &mut buffer);
    say::text(rt, b"# packet");
    say::field(rt, p);
    say::end(rt);
    say_made(rt, made, &buffer);
}

pub(crate) fn packets(rt: &impl Env, image: &[u8], n: usize, count: usize) {
    for p in 0..count {
        say_packet(rt, image, n, p);
    }
}

pub(crate) fn end(rt: &impl Env) {
    say_request(rt, b"# End OTA Write\n", Request::WriteEnd);
    say_request(rt, b"# End OTA Mode\n", Request::ModeEnd);
}
