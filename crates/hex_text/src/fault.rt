// What is wrong with a text.
ghost use Rattle.hex_text.specs.Read.{IsKindNumber};

// The fault of a line, by the paper's letters.
#[derive(Clone, Copy, PartialEq, Eq)]
pub enum Kind {
    H1,
    H2,
    H3,
    H4,
    H5,
    H6,
}

// Its number in the paper.
impl From<Kind> for u8 {
    ghost from_gives = { IsKindNumber };

    fn from(kind: Kind) -> u8 {
        match kind {
            Kind::H1 => 1,
            Kind::H2 => 2,
            Kind::H3 => 3,
            Kind::H4 => 4,
            Kind::H5 => 5,
            Kind::H6 => 6,
        }
    }
}

// The fault of a line, and the byte in the line at which it stands, counted from 1.
#[derive(Clone, Copy, PartialEq, Eq)]
pub struct Fault(pub Kind, pub usize);

// The first faulty line, its fault, and the byte in the line at which it stands; line and byte are counted from 1.
#[derive(Clone, Copy, PartialEq, Eq)]
pub struct Refusal {
    pub kind: Kind,
    pub line: usize,
    pub byte: usize,
}
