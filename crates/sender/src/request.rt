// The requests, each a control frame.
ghost use Rattle.std.specs.Prelude.{◌≡◌, [], ◌≤◌, length};
ghost use Rattle.commands.specs.Command.{request_code};
ghost use Rattle.sender.specs.Request.{IsCommandOf, IsControl, IsRequest};

use crate::made::{ROOM, Refusal};
use commands::Command;
use layout::Bank;

#[derive(Clone, Copy)]
pub enum Request {
    ModeStart,
    BankInfo,
    VersionInfo,
    // The whole of a bank of n sectors is to be written.
    WriteStart { bank: Bank, n: usize },
    WriteEnd,
    ModeEnd,
}

// The command that a request asks for.
pub fn command_of(request: Request) -> Command
    ensures { IsCommandOf request result }
{
    match request {
        Request::ModeStart => Command::ModeStart,
        Request::BankInfo => Command::BankInfo,
        Request::VersionInfo => Command::VersionInfo,
        Request::WriteStart { bank: _, n: _ } => Command::WriteStart,
        Request::WriteEnd => Command::WriteEnd,
        Request::ModeEnd => Command::ModeEnd,
    }
}

// A control frame, where there is room for the longest frame of the sender: how many bytes were made, at the buffer's front.
fn control(code: u8, parameters: &[u8], buffer: &mut [u8]) -> Result<usize, Refusal>
    requires { length parameters.now ≤ 254 }
    ensures { IsControl code parameters.now buffer.old result buffer.new }
{
    if buffer.len() < ROOM {
        return Err(Refusal::BadLength);
    }
    frame::write::put_control(buffer, code, parameters);
    Ok(parameters.len() + 5)
}

// A request without parameters.
fn bare(code: u8, buffer: &mut [u8]) -> Result<usize, Refusal>
    ensures { IsControl code [] buffer.old result buffer.new }
{
    control(code, b"", buffer)
}

fn write_start(code: u8, bank: Bank, n: usize, buffer: &mut [u8]) -> Result<usize, Refusal>
    requires { code ≡ request_code Command.WriteStart }
    ensures { IsRequest (Request.WriteStart bank n) buffer.old result buffer.new }
{
    if !layout::good_n(n) {
        return Err(Refusal::BadN);
    }
    let mut addresses = [0u8; 8];
    buffer::number::put_number(&mut addresses, 0, layout::start_address(bank));
    buffer::number::put_number(&mut addresses, 4, layout::end_address(bank, n));
    control(code, &addresses, buffer)
}

pub fn make(request: Request, buffer: &mut [u8]) -> Result<usize, Refusal>
    ensures { IsRequest request buffer.old result buffer.new }
{
    let code = commands::request_code(command_of(request));
    match request {
        Request::ModeStart => bare(code, buffer),
        Request::BankInfo => bare(code, buffer),
        Request::VersionInfo => bare(code, buffer),
        Request::WriteStart { bank, n } => write_start(code, bank, n, buffer),
        Request::WriteEnd => bare(code, buffer),
        Request::ModeEnd => bare(code, buffer),
    }
}
