// The record of a night, what comes of a call, and how the record moves.
ghost use Rattle.std.specs.Prelude.{◌≡◌, ◌<◌};
ghost use Rattle.night.specs.Name.{number_of};
ghost use Rattle.night.specs.Record.{following_of, again_of, moved_of, IsTakenOver, IsRefusalNumber, IsNextNumber};

use crate::judge::Verdict;
use crate::name::Name;
use layout::Bank;
use sender::made::Refusal as Unmade;

// Why a request was given up.
#[derive(Clone, Copy)]
pub enum Why {
    // It has gone out as often as it may.
    Tries,
    // The board would write another bank than the image's.
    WrongBank,
    // The write end went out again and found no session: what became of that is not known.
    Unknown,
}

#[derive(Clone, Copy)]
pub enum Stand {
    // The start was refused.
    NotBegun,
    // This request is at hand, and has gone out so often.
    At { name: Name, gone: usize },
    Finished,
    GaveUp { name: Name, why: Why },
}

#[derive(Clone, Copy)]
pub struct Night {
    pub bank: Bank,
    pub n: usize,
    // How often a request may go out.
    pub tries: usize,
    pub stand: Stand,
}

// Why a call is refused.
#[derive(Clone, Copy, PartialEq, Eq)]
pub enum Refusal {
    // No bank has so many sectors.
    BadN,
    // The image or the buffer has a wrong length.
    BadLength,
    // Not 1 to 9 tries.
    BadTries,
    // The image has no packet to send, or none of the number that the record stands at.
    NoPacket,
}

// The same, as the sender says it.
impl From<Unmade> for Refusal {
    ghost from_gives = { IsTakenOver };

    fn from(why: Unmade) -> Refusal {
        match why {
            Unmade::BadN => Refusal::BadN,
            Unmade::BadLength => Refusal::BadLength,
            Unmade::PastLast => Refusal::NoPacket,
        }
    }
}

// The number of the paper.
impl From<Refusal> for usize {
    ghost from_gives = { IsRefusalNumber };

    fn from(why: Refusal) -> usize {
        match why {
            Refusal::BadN => 3,
            Refusal::BadLength => 2,
            Refusal::BadTries => 7,
            Refusal::NoPacket => 8,
        }
    }
}

#[derive(Clone, Copy)]
pub enum Next {
    NotBegun,
    // This request goes out, so many bytes at the buffer's front.
    Send { name: Name, size: usize },
    Finished,
    GaveUp { name: Name, why: Why },
}

// The number of a refusal; 0 of all else.
pub fn next_number(next: Result<Next, Refusal>) -> usize
    ensures { IsNextNumber next result }
{
    match next {
        Ok(_) => 0,
        Err(why) => usize::from(why),
    }
}

// The record is handed back beside what comes next.
#[derive(Clone, Copy)]
pub struct Called {
    pub night: Night,
    pub next: Result<Next, Refusal>,
}

fn first(name: Name) -> Stand
    ensures { result ≡ Stand.At name 1 }
{
    Stand::At { name, gone: 1 }
}

// The packet behind packet p, or the write end behind the last of so many.
fn behind_packet(p: usize, count: usize) -> Stand
    requires { p < count }
    ensures { result ≡ following_of (Name.Packet p) count }
{
    if p + 1 < count {
        return first(Name::Packet(p + 1));
    }
    first(Name::WriteEnd)
}

// The request behind one that is settled, of an image with so many packets.
fn following(name: Name, count: usize) -> Stand
    requires { number_of name < count }
    ensures { result ≡ following_of name count }
{
    match name {
        Name::ModeStart => first(Name::VersionInfo),
        Name::VersionInfo => first(Name::BankInfo),
        Name::BankInfo => first(Name::WriteStart),
        Name::WriteStart => first(Name::Packet(0)),
        Name::Packet(p) => behind_packet(p, count),
        Name::WriteEnd => first(Name::ModeEnd),
        Name::ModeEnd => Stand::Finished,
    }
}

// A try was spent.
fn again(name: Name, gone: usize, tries: usize) -> Stand
    ensures { result ≡ again_of name gone tries }
{
    if gone < tries {
        return Stand::At {
            name,
            gone: gone + 1,
        };
    }
    Stand::GaveUp {
        name,
        why: Why::Tries,
    }
}

pub(crate) fn moved(name: Name, gone: usize, tries: usize, count: usize, verdict: Verdict) -> Stand
    requires { number_of name < count }
    ensures { result ≡ moved_of name gone tries count verdict }
{
    match verdict {
        Verdict::Settled => following(name, count),
        Verdict::Spent => again(name, gone, tries),
        Verdict::Stops(why) => Stand::GaveUp { name, why },
    }
}
