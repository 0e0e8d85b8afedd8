// What the sender answers.
ghost use Rattle.sender.specs.Made.{IsRefusalNumber};

// The least room for a frame of the sender: a sector's bytes and the seven around them.
pub const ROOM: usize = 519;

// Why nothing is made, counted or found.
#[derive(Clone, Copy, PartialEq, Eq)]
pub enum Refusal {
    // No bank has so many sectors.
    BadN,
    // The image or the buffer has a wrong length.
    BadLength,
    // There is no packet of that number.
    PastLast,
}

// The number of the paper.
impl From<Refusal> for usize {
    ghost from_gives = { IsRefusalNumber };

    fn from(why: Refusal) -> usize {
        match why {
            Refusal::BadN => 3,
            Refusal::BadLength => 2,
            Refusal::PastLast => 5,
        }
    }
}

// Where a packet stands: its sector, and how many packets the image has.
#[derive(Clone, Copy, PartialEq, Eq)]
pub struct Place {
    pub sector: usize,
    pub count: usize,
}
