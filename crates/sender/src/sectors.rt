// An image that is as long as its sectors.
ghost use Rattle.std.specs.Prelude.{◌≡◌, true, ◌+◌, ◌*◌, ◌<◌, ◌≤◌, length};
ghost use Rattle.layout.specs.Layout.{sector_size, good_n};

use crate::made::{Place, Refusal};
use layout::SECTOR;

#[derive(Clone, Copy)]
pub(crate) struct Image<'a> {
    bytes: &'a [u8],
    n: usize,
    ghost n_good: { good_n n ≡ true },
    ghost whole: { length bytes.now ≡ sector_size * n },
}

impl<'a> Image<'a> {
    ghost use Rattle.layout.specs.Layout.{sector_of};
    ghost use Rattle.sender.specs.Image.{Taken};
    ghost use Rattle.sender.specs.Packet.{seen_of, placed_in, packet_count};

    pub(crate) fn new(bytes: &'a [u8], n: usize) -> Result<Image<'a>, Refusal>
        ensures { Taken bytes.entry n result }
    {
        if !layout::good_n(n) {
            return Err(Refusal::BadN);
        }
        if bytes.len() != SECTOR * n {
            return Err(Refusal::BadLength);
        }
        Ok(Image { bytes, n })
    }

    // The bytes of a sector.
    pub(crate) fn sector(&self, k: usize) -> &'a [u8]
        requires low { 1 ≤ k }
        requires high { k ≤ self.now.n }
        ensures { result.now ≡ sector_of self.now.bytes.now k }
    {
        let from = layout::sector_offset(k);
        let bytes = self.bytes;
        &bytes[from..from + SECTOR]
    }

    // The sector behind the first k looked at. It is sent if it has a byte other than 0xFF.
    fn look(&self, k: usize, p: usize, seen: Place) -> Place
        requires high { k < self.now.n }
        requires seen_value { seen ≡ seen_of self.now.bytes.now k p }
        ensures { result ≡ seen_of self.now.bytes.now (k + 1) p }
    {
        if buffer::compare::blank(self.sector(k + 1)) {
            return seen;
        }
        let count = seen.count + 1;
        if seen.count == p {
            return Place {
                sector: k + 1,
                count,
            };
        }
        Place { count, ..seen }
    }

    // All sectors looked at, lowest first: how many are sent, and the one that is packet p, or 0.
    pub(crate) fn survey(&self, p: usize) -> Place
        ensures { result ≡ seen_of self.now.bytes.now self.now.n p }
    {
        let mut seen = Place {
            sector: 0,
            count: 0,
        };
        // The index is kept: it is a sector's number.
        for k in 0..self.n {
            seen = self.look(k, p, seen);
        }
        seen
    }

    pub(crate) fn place(&self, p: usize) -> Result<Place, Refusal>
        ensures { result ≡ placed_in self.now.bytes.now self.now.n p }
    {
        let seen = self.survey(p);
        if seen.count <= p {
            return Err(Refusal::PastLast);
        }
        Ok(seen)
    }
}
