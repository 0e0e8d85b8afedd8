// The writer of hex text, for bank 0: how long the text is, or the paper's number.
ghost use Rattle.exports.specs.Written.{IsLengthNumber, IsWriteNumber};

use layout::Bank;

pub fn rows_length(image: &[u8]) -> usize
    ensures { IsLengthNumber image.now result }
{
    let told = rows::text::length(image, Bank::Zero);
    rows::text::written_number(told)
}

pub fn rows_write(image: &[u8], text: &mut [u8]) -> usize
    ensures { IsWriteNumber image.now text.old result text.new }
{
    let written = rows::text::write(image, Bank::Zero, text);
    rows::text::written_number(written)
}
