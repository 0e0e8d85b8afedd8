// The bytes that digits spell two by two. The tests are joined by `&`, so that none branches.
ghost use Rattle.std.specs.Prelude.{◌≡◌, ◌+◌, ◌<◌, true, length};
ghost use Rattle.hex_text.specs.Places.{pair_at, pair_byte};

// Whether two digits stand at `at`.
pub(crate) fn pair_at(text: &[u8], at: usize) -> bool
    requires { at + 1 < length text.now }
    ensures { result ≡ pair_at text.now at }
{
    (digits::value(text[at]) < digits::NONE) & (digits::value(text[at + 1]) < digits::NONE)
}

// The byte that two digits at `at` spell, and some byte where they are none.
pub(crate) fn value_at(text: &[u8], at: usize) -> u8
    requires { at + 1 < length text.now }
    ensures { pair_at text.now at ≡ true → result ≡ pair_byte text.now at }
{
    digits::value(text[at]) % 16 * 16 + digits::value(text[at + 1]) % 16
}
