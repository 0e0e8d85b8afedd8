// The CRC-32.
ghost use Rattle.crc.specs.Crc.{IsCrc32};

pub fn crc_crc32(bytes: &[u8]) -> u32
    ensures { IsCrc32 bytes.now result }
{
    crc::crc32(bytes)
}
