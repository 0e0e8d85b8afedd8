// The fields of a command.
use crate::wrong::Wrong;
use layout::Bank;
use script::text;

pub(crate) fn none(fields: &[u8]) -> Result<(), Wrong> {
    if fields.is_empty() {
        Ok(())
    } else {
        Err(Wrong::Fields)
    }
}

pub(crate) fn bank(field: &[u8]) -> Result<Bank, Wrong> {
    text::bank(field).ok_or(Wrong::Bank)
}

pub(crate) fn byte(field: &[u8]) -> Result<u8, Wrong> {
    text::byte(field).ok_or(Wrong::Byte)
}

pub(crate) fn number(field: &[u8], wrong: Wrong) -> Result<usize, Wrong> {
    text::decimal(field, 6).ok_or(wrong)
}

pub(crate) fn small(field: &[u8], wrong: Wrong) -> Result<u8, Wrong> {
    u8::try_from(number(field, wrong)?).ok().ok_or(wrong)
}

// Up to as much as there is room for.
pub(crate) fn length(field: &[u8], most: usize) -> Result<usize, Wrong> {
    let length = number(field, Wrong::Length(most))?;
    if length > most {
        return Err(Wrong::Length(most));
    }
    Ok(length)
}
