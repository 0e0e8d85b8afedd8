// What a datagram that comes back says.
ghost use Rattle.std.specs.Prelude.{◌≡◌, ◌+◌, length};
ghost use Rattle.response.specs.Response.{in_table9, may_carry, added_of, bank_named, accepted_of, own_of, error_of, control_of};
ghost use Rattle.response.specs.Response.{repeats_of, stored_of, crc_fits, write_of};
ghost use Rattle.response.specs.Said.{IsResponseNumber, IsResponse};

use commands::Command;
use frame::read::{Footer, Frame};
use layout::Bank;

#[derive(Clone, Copy)]
pub enum Response {
    // A command's own response, the result alone.
    Plain {
        command: Command,
        result: u8,
    },
    // The error response.
    Error {
        result: u8,
    },
    // Bank information with 06.
    Target {
        bank: Bank,
    },
    // Version with 06.
    Firmware {
        id: u16,
        major: u8,
        minor: u8,
        revision: u32,
    },
    // A sector packet's two results, and the CRC-32 of the sector as it stands afterwards.
    Written {
        sector: u16,
        response: u8,
        write: u8,
        crc: u32,
    },
}

// Its result, or number 6, which is also what 06 gives: that a response is unreadable, its case tells. No `From`: neither type is
// of this crate.
pub fn response_number(response: Option<Response>) -> u8
    ensures { IsResponseNumber response result }
{
    match response {
        None => 6,
        Some(Response::Plain { result, .. }) => result,
        Some(Response::Error { result: said }) => said,
        Some(Response::Target { .. }) => 0x06,
        Some(Response::Firmware { .. }) => 0x06,
        Some(Response::Written { response, .. }) => response,
    }
}

fn in_table_9(res: u8) -> bool
    ensures { result ≡ in_table9 res }
{
    matches!(res, 0x05 | 0x06 | 0x07 | 0x15 | 0x1C | 0x1D | 0x1E)
}

// Whether a response may carry a result, the error response or another: 05 stands in the error response alone.
#[tactic(auto, unfolding(crate::specs::Response::may_carry))]
fn may_carry(error: bool, res: u8) -> bool
    ensures { result ≡ may_carry error res }
{
    in_table_9(res) & (error | (res != 0x05))
}

// How many bytes follow the result.
#[tactic(auto, unfolding(crate::specs::Response::added_of))]
fn added(command: Command, res: u8) -> usize
    ensures { result ≡ added_of command res }
{
    if res != 0x06 {
        return 0;
    }
    commands::added_bytes(command)
}

// The bank that a number names.
#[tactic(auto, unfolding(crate::specs::Response::bank_named))]
fn named(number: u8) -> Option<Bank>
    ensures { result ≡ bank_named number }
{
    Bank::try_from(number).ok()
}

// What stands behind the result 06, there being as many bytes as it asks for.
fn accepted(command: Command, parameters: &[u8]) -> Option<Response>
    requires { length parameters.now ≡ added_of command 0x06 + 1 }
    ensures { result ≡ accepted_of command parameters.now }
{
    let response = match command {
        Command::BankInfo => Response::Target {
            bank: named(parameters[1])?,
        },
        Command::VersionInfo => Response::Firmware {
            id: buffer::number::number(parameters, 1),
            major: parameters[3],
            minor: parameters[4],
            revision: buffer::number::number(parameters, 5),
        },
        Command::ModeStart | Command::WriteStart | Command::WriteEnd | Command::ModeEnd => {
            Response::Plain {
                command,
                result: 0x06,
            }
        }
    };
    Some(response)
}

// A command's own response.
#[tactic(auto, using(crate::proofs::Responses::added_small), unfolding(crate::specs::Response::own_of))]
fn own(command: Command, parameters: &[u8]) -> Option<Response>
    ensures { result ≡ own_of command parameters.now }
{
    let result = *parameters.first()?;
    if !may_carry(false, result) {
        return None;
    }
    if parameters.len() != added(command, result) + 1 {
        return None;
    }
    if result != 0x06 {
        return Some(Response::Plain { command, result });
    }
    accepted(command, parameters)
}

// The error response.
#[tactic(auto, unfolding(crate::specs::Response::error_of))]
fn error(parameters: &[u8]) -> Option<Response>
    ensures { result ≡ error_of parameters.now }
{
    let [result] = *parameters else {
        return None;
    };
    if !may_carry(true, result) {
        return None;
    }
    Some(Response::Error { result })
}

// A control frame's code and parameters.
#[tactic(auto, unfolding(crate::specs::Response::control_of))]
fn control(code: u8, parameters: &[u8]) -> Option<Response>
    ensures { result ≡ control_of code parameters.now }
{
    if code == commands::ERROR {
        return error(parameters);
    }
    match commands::answered(code) {
        None => None,
        Some(command) => own(command, parameters),
    }
}

// Unless the response result is 06, the write result repeats it.
#[tactic(auto, unfolding(crate::specs::Response::repeats_of))]
fn repeats(response: u8, write: u8) -> bool
    ensures { result ≡ repeats_of response write }
{
    (response == 0x06) | (write == response)
}

// Whether a result leaves a CRC to tell.
#[tactic(auto, unfolding(crate::specs::Response::stored_of))]
fn stored(res: u8) -> bool
    ensures { result ≡ stored_of res }
{
    (res == 0x06) | (res == 0x1D)
}

// A CRC other than 0 stands only beside two results that leave one to tell.
#[tactic(auto, unfolding(crate::specs::Response::crc_fits))]
fn crc_fits(response: u8, write: u8, crc: u32) -> bool
    ensures { result ≡ crc_fits response write crc }
{
    (crc == 0) | (stored(response) & stored(write))
}

// A write frame's sector and data.
#[tactic(auto, unfolding(crate::specs::Response::write_of))]
fn written(sector: u16, bytes: &[u8]) -> Option<Response>
    ensures { result ≡ write_of sector bytes.now }
{
    if bytes.len() != 6 {
        return None;
    }
    let response = bytes[0];
    let write = bytes[1];
    let crc = buffer::number::number(bytes, 2);
    if !may_carry(false, response) {
        return None;
    }
    if !may_carry(false, write) {
        return None;
    }
    if !repeats(response, write) {
        return None;
    }
    if !crc_fits(response, write, crc) {
        return None;
    }
    Some(Response::Written {
        sector,
        response,
        write,
        crc,
    })
}

pub fn read_response(datagram: &[u8]) -> Option<Response>
    ensures { IsResponse datagram.now result }
{
    match frame::read::read_frame(datagram)? {
        Frame::Control { code, .. } => control(code, frame::read::parameters(datagram)),
        Frame::Write {
            sector,
            footer: Footer::End,
            ..
        } => written(sector, frame::read::data(datagram)),
        Frame::Write {
            footer: Footer::Continued,
            ..
        } => None,
    }
}
