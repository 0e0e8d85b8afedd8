// The requests of a night, in the order in which they go out.
ghost use Rattle.std.specs.Prelude.{◌≡◌};
ghost use Rattle.night.specs.Name.{number_of};

#[derive(Clone, Copy)]
pub enum Name {
    ModeStart,
    VersionInfo,
    BankInfo,
    WriteStart,
    // A sector packet, by its number.
    Packet(usize),
    WriteEnd,
    ModeEnd,
}

// The packet that an image has to have where this request is at hand: for any but a packet, one at all.
pub(crate) fn number(name: Name) -> usize
    ensures { result ≡ number_of name }
{
    match name {
        Name::ModeStart => 0,
        Name::VersionInfo => 0,
        Name::BankInfo => 0,
        Name::WriteStart => 0,
        Name::Packet(p) => p,
        Name::WriteEnd => 0,
        Name::ModeEnd => 0,
    }
}
