// A room of so many bytes, the first of which are lent.
ghost use Rattle.script.specs.Room.{IsFilled, IsPart, IsLend};

#[derive(Clone, Copy)]
pub struct Room<const N: usize> {
    pub bytes: [u8; N],
    pub lent: usize,
}

pub fn filled<const N: usize>(byte: u8, lent: usize) -> Room<N>
    ensures { IsFilled N byte lent result }
{
    Room {
        bytes: [byte; N],
        lent,
    }
}

// What is lent of it; all of it, should more be.
pub fn part<const N: usize>(room: &Room<N>) -> &[u8]
    ensures { IsPart N room.now result.now }
{
    &room.bytes[..room.lent.min(N)]
}

// So much is lent from now on; `None` where there is less room, and as much as before is.
pub fn lend<const N: usize>(room: &mut Room<N>, count: usize) -> Option<()>
    ensures { IsLend N room.old count room.new result }
{
    if count > N {
        return None;
    }
    room.lent = count;
    Some(())
}
