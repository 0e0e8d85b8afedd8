// What a response comes to, by the request at hand.
ghost use Rattle.std.specs.Prelude.{◌≡◌, true, ◌*◌, ◌≤◌, length};
ghost use Rattle.layout.specs.Layout.{sector_size, good_n, sector_of};
ghost use Rattle.crc.specs.Crc.{crc_of};
ghost use Rattle.night.specs.Judge.{own_result, own_verdict, version_verdict, bank_verdict, fields_awaited, packet_verdict, judge_of};

use crate::name::Name;
use crate::record::Why;
use commands::Command;
use layout::{Bank, SECTOR};
use response::read::Response;

#[derive(Clone, Copy)]
pub(crate) enum Verdict {
    // It is the awaited one, or counts as done.
    Settled,
    Spent,
    Stops(Why),
}

// The result in this command's own response; none in any other.
fn own_result(command: Command, response: Option<Response>) -> Option<u8>
    ensures { result ≡ own_result command response }
{
    match response {
        Some(
            Response::Plain {
                command: other,
                result,
            },
        ) if other == command => Some(result),
        _ => None,
    }
}

// A result alone is awaited; what 15 comes to where the request was repeated is given.
fn own(command: Command, repeated: bool, declined: Verdict, response: Option<Response>) -> Verdict
    ensures { result ≡ own_verdict command repeated declined response }
{
    let result = own_result(command, response);
    if result == Some(0x06) {
        return Verdict::Settled;
    }
    if repeated & (result == Some(0x15)) {
        return declined;
    }
    Verdict::Spent
}

// Any ID and version will do.
fn version(response: Option<Response>) -> Verdict
    ensures { result ≡ version_verdict response }
{
    match response {
        Some(Response::Firmware { .. }) => Verdict::Settled,
        _ => Verdict::Spent,
    }
}

fn bank(ours: Bank, response: Option<Response>) -> Verdict
    ensures { result ≡ bank_verdict ours response }
{
    match response {
        Some(Response::Target { bank: target }) => {
            if target == ours {
                Verdict::Settled
            } else {
                Verdict::Stops(Why::WrongBank)
            }
        }
        _ => Verdict::Spent,
    }
}

// The sector's number, 06, and then 06 or 1D.
fn fields_awaited(sector: usize, number: u16, res: u8, write: u8) -> bool
    ensures { result ≡ fields_awaited sector number res write }
{
    (number as usize == sector) & (res == 0x06) & ((write == 0x06) | (write == 0x1D))
}

// The CRC-32 of a sector of the image.
fn sector_crc(image: &[u8], sector: usize) -> u32
    requires sector_value { good_n sector ≡ true }
    requires sector_size_in_bounds { sector * sector_size ≤ length image.now }
    ensures { result ≡ crc_of (sector_of image.now sector) }
{
    let from = layout::sector_offset(sector);
    let to = from + SECTOR;
    crc::crc32(&image[from..to])
}

// The packet of this sector. Its CRC is taken only where all else is as awaited.
fn written(image: &[u8], sector: usize, number: u16, res: u8, write: u8, crc: u32) -> Verdict
    requires sector_value { good_n sector ≡ true }
    requires sector_size_in_bounds { sector * sector_size ≤ length image.now }
    ensures { result ≡ packet_verdict image.now sector (Some (Response.Written number res write crc)) }
{
    if !fields_awaited(sector, number, res, write) {
        return Verdict::Spent;
    }
    if crc == sector_crc(image, sector) {
        return Verdict::Settled;
    }
    Verdict::Spent
}

fn packet(image: &[u8], sector: usize, response: Option<Response>) -> Verdict
    requires sector_value { good_n sector ≡ true }
    requires sector_size_in_bounds { sector * sector_size ≤ length image.now }
    ensures { result ≡ packet_verdict image.now sector response }
{
    match response {
        Some(
            Response::Written {
                sector: number,
                response: result,
                write,
                crc,
            },
        ) => written(image, sector, number, result, write, crc),
        _ => Verdict::Spent,
    }
}

// Of a packet the sector is given, of which the image has the bytes.
pub(crate) fn judge(
    name: Name,
    repeated: bool,
    ours: Bank,
    image: &[u8],
    sector: usize,
    response: Option<Response>,
) -> Verdict
    requires sector_value { good_n sector ≡ true }
    requires sector_size_in_bounds { sector * sector_size ≤ length image.now }
    ensures { result ≡ judge_of name repeated ours image.now sector response }
{
    match name {
        Name::ModeStart => own(Command::ModeStart, repeated, Verdict::Settled, response),
        Name::VersionInfo => version(response),
        Name::BankInfo => bank(ours, response),
        Name::WriteStart => own(Command::WriteStart, repeated, Verdict::Settled, response),
        Name::Packet(_) => packet(image, sector, response),
        Name::WriteEnd => own(
            Command::WriteEnd,
            repeated,
            Verdict::Stops(Why::Unknown),
            response,
        ),
        Name::ModeEnd => own(Command::ModeEnd, repeated, Verdict::Settled, response),
    }
}
