// What is lent, looked at before anything else, at each call.
ghost use Rattle.std.specs.Prelude.{◌≡◌};
ghost use Rattle.night.specs.Lent.{tries_good, room_given, looked_of};

use crate::record::Refusal;
use sender::made::{Place, ROOM, Refusal as Unmade};

fn tries_good(tries: usize) -> bool
    ensures { result ≡ tries_good tries }
{
    (1 <= tries) & (tries <= 9)
}

// Behind N and the image come the buffer and the tries, and then what was found in the image.
fn room_given(room: usize, tries: usize, found: Result<Place, Refusal>) -> Result<Place, Refusal>
    ensures { result ≡ room_given room tries found }
{
    if room < ROOM {
        return Err(Refusal::BadLength);
    }
    if !tries_good(tries) {
        return Err(Refusal::BadTries);
    }
    found
}

// Where packet p stands, unless something that is lent is refused. The sender's refusals are told apart: the tries come before its last one.
pub(crate) fn look(
    image: &[u8],
    n: usize,
    tries: usize,
    room: usize,
    p: usize,
) -> Result<Place, Refusal>
    ensures { result ≡ looked_of image.now n tries room p }
{
    match sender::packet::place(image, n, p) {
        Err(Unmade::BadN) => Err(Refusal::BadN),
        Err(Unmade::BadLength) => Err(Refusal::BadLength),
        Err(Unmade::PastLast) => room_given(room, tries, Err(Refusal::NoPacket)),
        Ok(place) => room_given(room, tries, Ok(place)),
    }
}
