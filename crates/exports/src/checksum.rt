// The checksum.
ghost use Rattle.frame.specs.Checksum.{IsChecksum};

pub fn frame_checksum(bytes: &[u8]) -> u8
    ensures { IsChecksum bytes.now result }
{
    frame::checksum::checksum(bytes)
}
