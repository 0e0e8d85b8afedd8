// The sector packets of an image, by number.
ghost use Rattle.std.specs.Prelude.{◌≡◌, ◌<◌};
ghost use Rattle.sender.specs.Packet.{footer_of, IsPacket, IsCount, IsPlace};

use crate::made::{Place, ROOM, Refusal};
use crate::sectors::Image;
use frame::read::Footer;
use layout::SECTOR;

// 03 on the last of so many packets, 17 on the others.
fn footer(count: usize, p: usize) -> Footer
    requires { p < count }
    ensures { result ≡ footer_of count p }
{
    if p + 1 == count {
        Footer::End
    } else {
        Footer::Continued
    }
}

// How many packets an image has.
pub fn count(image: &[u8], n: usize) -> Result<usize, Refusal>
    ensures { IsCount image.now n result }
{
    let image = Image::new(image, n)?;
    Ok(image.survey(0).count)
}

pub fn place(image: &[u8], n: usize, p: usize) -> Result<Place, Refusal>
    ensures { IsPlace image.now n p result }
{
    Image::new(image, n)?.place(p)
}

// How many bytes were made, at the buffer's front.
pub fn packet(image: &[u8], n: usize, p: usize, buffer: &mut [u8]) -> Result<usize, Refusal>
    ensures { IsPacket image.now n p buffer.old result buffer.new }
{
    let image = Image::new(image, n)?;
    if buffer.len() < ROOM {
        return Err(Refusal::BadLength);
    }
    let Place { sector, count } = image.place(p)?;
    frame::write::put_write(
        buffer,
        sector as u16,
        image.sector(sector),
        footer(count, p),
    );
    Ok(SECTOR + 7)
}
