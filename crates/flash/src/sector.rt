// One sector: what one store does to it, and whether it holds what it should.
ghost use Rattle.std.specs.Prelude.{◌≡◌, ◌≤◌, length};
ghost use Rattle.buffer.specs.Compare.{same_of};
ghost use Rattle.layout.specs.Layout.{sector_size};
ghost use Rattle.flash.specs.Sector.{padded_of, stored_in};

// The bytes of a word, which is stored at once.
pub const WORD: usize = 4;

// What changes a sector: all of it is erased, or a word, high byte first, is stored from an index on.
#[derive(Clone, Copy)]
pub enum Store {
    Erase,
    Word { at: usize, word: u32 },
}

// The one place where a byte of a bank changes.
pub(crate) fn make(sector: &mut [u8], store: Store)
    ensures { sector.new ≡ stored_in store sector.old }
{
    match store {
        Store::Erase => buffer::fill::fill(sector, 0xFF),
        Store::Word { at, word } => buffer::number::put_number(sector, at, word),
    }
}

// Whether a sector is the bytes followed by 0xFF, to its end: the old tail counts too.
pub(crate) fn holds(sector: &[u8], bytes: &[u8]) -> bool
    requires { (length sector.now ≡ sector_size) × (length bytes.now ≤ sector_size) }
    ensures { result ≡ same_of sector.now (padded_of bytes.now) }
{
    let m = bytes.len();
    buffer::compare::same(&sector[..m], bytes) && buffer::compare::blank(&sector[m..])
}
