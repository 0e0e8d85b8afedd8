// The numbers of the sectors that have a mark: how many there are, and the list of them.
ghost use Rattle.std.specs.Prelude.{◌≡◌, cond, count_by, [], ◌∷◌, ◌+◌, ◌≤◌, ◌<◌, length};
ghost use Rattle.std.proofs.lemmas.List.Edits.{sets};
ghost use Rattle.clean.specs.Sectors.{numbers_at};
ghost use Rattle.clean.specs.Walk.{mark_in};

// How many have one.
pub(crate) fn count(marks: &[bool]) -> usize
    ensures { result ≡ count_by (λ mark. mark) marks.now }
{
    marks.iter().filter(|mark| **mark).count()
}

// The number of sector i, counted from 0, behind the first m, if it has a mark; so many there are then.
fn put(sectors: &mut [u16], m: usize, i: usize, mark: bool) -> usize
    requires { (i < 65535) × (m + cond mark 1 0 ≤ length sectors.old) }
    ensures { (result ≡ m + cond mark 1 0) × (sectors.new ≡ sets sectors.old m (cond mark ((i + 1) ∷ []) [])) }
{
    if mark {
        sectors[m] = (i + 1) as u16;
        return m + 1;
    }
    m
}

// The numbers of those that have one, ascending. There is room for all.
pub(crate) fn list(marks: &[bool], sectors: &mut [u16])
    requires { (length marks.now < 65535) × (length (numbers_at (mark_in marks.now) (length marks.now)) ≤ length sectors.old) }
    ensures { sectors.new ≡ sets sectors.old 0 (numbers_at (mark_in marks.now) (length marks.now)) }
{
    let mut m = 0;
    for (i, mark) in marks.iter().enumerate() {
        m = put(sectors, m, i, *mark);
    }
}
