// A sector packet by number: how long its frame is, or the paper's number.
ghost use Rattle.exports.specs.Packet.{IsPacketNumber};

pub fn sender_packet(image: &[u8], n: usize, p: usize, buffer: &mut [u8]) -> usize
    ensures { IsPacketNumber image.now n p buffer.old result buffer.new }
{
    match sender::packet::packet(image, n, p, buffer) {
        Ok(size) => size,
        Err(why) => usize::from(why),
    }
}
