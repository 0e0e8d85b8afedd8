// What C calls, by name: each function of `exports`, with its clauses. A library exports nothing, and a static library cannot be rested on.
#![tactic(auto)]

ghost use Rattle.crc.specs.Crc.{IsCrc32};
ghost use Rattle.frame.specs.Checksum.{IsChecksum};
ghost use Rattle.exports.specs.Check.{IsCheckNumber};
ghost use Rattle.exports.specs.Cleaned.{IsCleanNumbers};
ghost use Rattle.exports.specs.Heard.{IsNightSlots};
ghost use Rattle.exports.specs.Packet.{IsPacketNumber};
ghost use Rattle.exports.specs.Slots.{IsTakeSlots};
ghost use Rattle.exports.specs.Text.{IsReadNumbers};
ghost use Rattle.exports.specs.Written.{IsLengthNumber, IsWriteNumber};

#[unsafe(no_mangle)]
pub extern "C" fn crc_crc32(bytes: &[u8]) -> u32
    ensures { IsCrc32 bytes.now result }
{
    exports::crc32::crc_crc32(bytes)
}

#[unsafe(no_mangle)]
pub extern "C" fn frame_checksum(bytes: &[u8]) -> u8
    ensures { IsChecksum bytes.now result }
{
    exports::checksum::frame_checksum(bytes)
}

#[unsafe(no_mangle)]
pub extern "C" fn bank_check(bank: &[u8]) -> u8
    ensures { IsCheckNumber bank.now result }
{
    exports::check::bank_check(bank)
}

#[unsafe(no_mangle)]
pub extern "C" fn bank_clean(
    bank: &mut [u8],
    runs: &mut [u32],
    sectors: &mut [u16],
    told: &mut [usize],
) -> usize
    ensures { IsCleanNumbers bank.old runs.old sectors.old told.old result bank.new runs.new sectors.new told.new }
{
    exports::cleaned::bank_clean(bank, runs, sectors, told)
}

#[unsafe(no_mangle)]
pub extern "C" fn hex_read(text: &[u8], n: usize, image: &mut [u8], told: &mut [usize]) -> usize
    ensures { IsReadNumbers text.now n image.old told.old result image.new told.new }
{
    exports::text::hex_read(text, n, image, told)
}

#[unsafe(no_mangle)]
pub extern "C" fn rows_length(image: &[u8]) -> usize
    ensures { IsLengthNumber image.now result }
{
    exports::written::rows_length(image)
}

#[unsafe(no_mangle)]
pub extern "C" fn rows_write(image: &[u8], text: &mut [u8]) -> usize
    ensures { IsWriteNumber image.now text.old result text.new }
{
    exports::written::rows_write(image, text)
}

#[unsafe(no_mangle)]
pub extern "C" fn sender_packet(image: &[u8], n: usize, p: usize, buffer: &mut [u8]) -> usize
    ensures { IsPacketNumber image.now n p buffer.old result buffer.new }
{
    exports::packet::sender_packet(image, n, p, buffer)
}

#[unsafe(no_mangle)]
pub extern "C" fn client_take(
    n: usize,
    slots: &[u8],
    bank0: &mut [u8],
    bank1: &mut [u8],
    marks: &[u8],
    addresses: &[u8],
    buffer: &mut [u8],
) -> usize
    ensures { IsTakeSlots n slots.now bank0.old bank1.old marks.now addresses.now buffer.old result bank0.new bank1.new buffer.new }
{
    exports::slots::client_take(n, slots, bank0, bank1, marks, addresses, buffer)
}

#[unsafe(no_mangle)]
pub extern "C" fn night_take(
    image: &[u8],
    n: usize,
    tries: usize,
    slots: &[u8],
    buffer: &mut [u8],
) -> usize
    ensures { IsNightSlots image.now n tries slots.now buffer.old result buffer.new }
{
    exports::heard::night_take(image, n, tries, slots, buffer)
}
