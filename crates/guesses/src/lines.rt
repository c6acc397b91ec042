//! Lines of a draft.
use crate::numbering::Key;
use allocation::Memory;
use itoa::Buffer;

/// Adds a number behind a space.
fn push_word(text: &mut Vec<u8>, n: usize) -> Result<(), Memory> {
    text.push(b' ')?;
    push_number(text, n)
}

/// Adds a number in decimal.
fn push_number(text: &mut Vec<u8>, n: usize) -> Result<(), Memory> {
    let mut buffer = Buffer::new();
    text.extend_from_slice(buffer.format(n).as_bytes())?;
    Ok(())
}

/// Adds a line of one number.
pub(crate) fn push_pair(text: &mut Vec<u8>, name: &[u8], n: usize) -> Result<(), Memory> {
    text.extend_from_slice(name)?;
    push_word(text, n)?;
    text.push(b'\n')?;
    Ok(())
}

/// Adds a line of numbers.
pub(crate) fn push_line(text: &mut Vec<u8>, name: &[u8], numbers: &[u16]) -> Result<(), Memory> {
    text.extend_from_slice(name)?;
    for n in numbers {
        push_word(text, *n as usize)?;
    }
    text.push(b'\n')?;
    Ok(())
}

/// Adds the line of the keys.
pub(crate) fn push_keys(text: &mut Vec<u8>, keys: &[Key]) -> Result<(), Memory> {
    text.extend_from_slice(b"words")?;
    for key in keys {
        push_word(text, key.element)?;
        text.push(b':')?;
        push_number(text, key.heap)?;
    }
    text.push(b'\n')?;
    Ok(())
}
