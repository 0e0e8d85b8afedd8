// A gap is walked over piece by piece. No piece goes on into another sector, and each is so short that the runs in it are counted in a byte: so
// the compiler takes sixteen of its bytes at once.
ghost use Rattle.std.specs.Prelude.{◌≡◌, ◌*◌, ◌≤◌, ◌<◌};
ghost use Rattle.layout.specs.Layout.{sector_size, most_sectors};
ghost use Rattle.clean.specs.Walk.{piece_end};

// Pieces end at the multiples of this.
const PIECE: usize = 128;

// Where the piece from `at` on ends: within its sector, and at `to` where that comes first.
pub(crate) fn end(at: usize, to: usize) -> usize
    requires { (at < to) × (to ≤ sector_size * most_sectors) }
    ensures { result ≡ piece_end at to }
{
    to.min((at / PIECE + 1) * PIECE)
}
