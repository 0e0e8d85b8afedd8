// A request's frame, made by the sender.
ghost use Rattle.std.specs.Prelude.{◌≡◌, true, ◌<◌, ◌≤◌, length};
ghost use Rattle.layout.specs.Layout.{good_n};
ghost use Rattle.sender.specs.Made.{room};
ghost use Rattle.sender.specs.Packet.{image_good, packet_count};
ghost use Rattle.night.specs.Name.{number_of};
ghost use Rattle.night.specs.Call.{sent_by, IsMake};

use crate::name::Name;
use crate::record::{Next, Refusal};
use layout::Bank;
use sender::made::Refusal as Unmade;
use sender::request::Request;

fn sent(name: Name, made: Result<usize, Unmade>) -> Result<Next, Refusal>
    ensures { result ≡ sent_by name made }
{
    let size = made?;
    Ok(Next::Send { name, size })
}

pub(crate) fn make(
    name: Name,
    bank: Bank,
    n: usize,
    image: &[u8],
    buffer: &mut [u8],
) -> Result<Next, Refusal>
    requires n_value { good_n n ≡ true }
    requires n_value_2 { image_good image.now n ≡ true }
    requires room_in_bounds { room ≤ length buffer.old }
    requires name_bound { number_of name < packet_count image.now n }
    ensures { IsMake name bank n image.now buffer.old result buffer.new }
{
    match name {
        Name::ModeStart => sent(name, sender::request::make(Request::ModeStart, buffer)),
        Name::VersionInfo => sent(name, sender::request::make(Request::VersionInfo, buffer)),
        Name::BankInfo => sent(name, sender::request::make(Request::BankInfo, buffer)),
        Name::WriteStart => sent(
            name,
            sender::request::make(Request::WriteStart { bank, n }, buffer),
        ),
        Name::Packet(p) => sent(Name::Packet(p), sender::packet::packet(image, n, p, buffer)),
        Name::WriteEnd => sent(name, sender::request::make(Request::WriteEnd, buffer)),
        Name::ModeEnd => sent(name, sender::request::make(Request::ModeEnd, buffer)),
    }
}
