//! The lines that say what is wrong with a text that is no code, or no position.
ghost use Rattle.std.specs.Prelude.{◌≡◌, IfOk};
ghost use Rattle.std.specs.String.{string_bytes};
ghost use Rattle.verdict_commands.specs.WordExplained.{byte_words, code_byte_line, code_fault_line, large_line, leading_line, long_line, many_line, no_size_line, numbered_byte, position_fault_line, printed_byte, second_point_line, size_byte_line, zero_line};

use crate::{WrittenCodeFault, WrittenPositionFault};
use std::alloc::{AllocError, Global};

fn printed_text(alloc: Global, byte: u8) -> Result<String, AllocError>
    ensures { IfOk result (λ t. string_bytes t ≡ printed_byte byte) }
{
    let letter = byte as char;
    let text = format!(in alloc; "\"{letter}\"")?;
    Ok(text)
}

fn numbered_text(alloc: Global, byte: u8) -> Result<String, AllocError>
    ensures { IfOk result (λ t. string_bytes t ≡ numbered_byte byte) }
{
    let number = byte as u16;
    let text = format!(in alloc; "the byte {number}")?;
    Ok(text)
}

/// A byte by its name, in quotes, or by its number.
fn byte_text(alloc: Global, byte: u8) -> Result<String, AllocError>
    ensures { IfOk result (λ t. string_bytes t ≡ byte_words byte) }
{
    match byte {
        b'\r' => String::from_str(alloc, "a carriage return"),
        b'\n' => String::from_str(alloc, "a line end"),
        b'\t' => String::from_str(alloc, "a tab"),
        b' ' => String::from_str(alloc, "a space"),
        _ if byte > 32 && byte < 127 => printed_text(alloc, byte),
        _ => numbered_text(alloc, byte),
    }
}

fn code_byte_text(alloc: Global, place: usize, byte: u8) -> Result<String, AllocError>
    ensures { IfOk result (λ t. string_bytes t ≡ code_byte_line place byte) }
{
    let name = byte_text(alloc, byte)?;
    let name = name.as_str();
    let text = format!(in alloc; "byte {place}: {name}, which no code has\n")?;
    Ok(text)
}

fn second_point_text(alloc: Global, place: usize) -> Result<String, AllocError>
    ensures { IfOk result (λ t. string_bytes t ≡ second_point_line place) }
{
    let text = format!(in alloc; "byte {place}: a second point\n")?;
    Ok(text)
}

fn long_text(alloc: Global, digits: usize) -> Result<String, AllocError>
    ensures { IfOk result (λ t. string_bytes t ≡ long_line digits) }
{
    let text = format!(in alloc; "digits after the point: {digits}, not 1 to 16\n")?;
    Ok(text)
}

/// The line of a code's fault.
pub(crate) fn code_fault_text(alloc: Global, fault: WrittenCodeFault) -> Result<String, AllocError>
    ensures { IfOk result (λ t. string_bytes t ≡ code_fault_line fault) }
{
    match fault {
        WrittenCodeFault::Empty => String::from_str(alloc, "no byte\n"),
        WrittenCodeFault::Byte { place, byte } => code_byte_text(alloc, place, byte),
        WrittenCodeFault::First => String::from_str(alloc, "byte 1: not 0, 4, 8 or c\n"),
        WrittenCodeFault::Point => String::from_str(alloc, "byte 2: not a point\n"),
        WrittenCodeFault::NoDigit => String::from_str(alloc, "no digit after the point\n"),
        WrittenCodeFault::SecondPoint { place } => second_point_text(alloc, place),
        WrittenCodeFault::LastZero => String::from_str(alloc, "the last digit is 0\n"),
        WrittenCodeFault::Long { digits } => long_text(alloc, digits),
    }
}

fn no_size_text(alloc: Global, number: usize) -> Result<String, AllocError>
    ensures { IfOk result (λ t. string_bytes t ≡ no_size_line number) }
{
    let text = format!(in alloc;
        "size {number}: no digit, since a space begins or ends the text, or two stand together\n"
    )?;
    Ok(text)
}

fn size_byte_text(alloc: Global, number: usize, byte: u8) -> Result<String, AllocError>
    ensures { IfOk result (λ t. string_bytes t ≡ size_byte_line number byte) }
{
    let name = byte_text(alloc, byte)?;
    let name = name.as_str();
    let text = format!(in alloc; "size {number}: {name}, which no size has\n")?;
    Ok(text)
}

fn zero_text(alloc: Global, number: usize) -> Result<String, AllocError>
    ensures { IfOk result (λ t. string_bytes t ≡ zero_line number) }
{
    let text = format!(in alloc; "size {number}: 0, which stands alone, for no heap\n")?;
    Ok(text)
}

fn leading_text(alloc: Global, number: usize) -> Result<String, AllocError>
    ensures { IfOk result (λ t. string_bytes t ≡ leading_line number) }
{
    let text = format!(in alloc; "size {number}: it begins with 0\n")?;
    Ok(text)
}

fn large_text(alloc: Global, number: usize) -> Result<String, AllocError>
    ensures { IfOk result (λ t. string_bytes t ≡ large_line number) }
{
    let text = format!(in alloc; "size {number}: above 1000000000000000000\n")?;
    Ok(text)
}

fn many_text(alloc: Global, sizes: usize) -> Result<String, AllocError>
    ensures { IfOk result (λ t. string_bytes t ≡ many_line sizes) }
{
    let text = format!(in alloc; "sizes: {sizes}, not 1 to 64\n")?;
    Ok(text)
}

/// The line of a position's fault.
pub(crate) fn position_fault_text(
    alloc: Global,
    fault: WrittenPositionFault,
) -> Result<String, AllocError>
    ensures { IfOk result (λ t. string_bytes t ≡ position_fault_line fault) }
{
    match fault {
        WrittenPositionFault::Empty => String::from_str(alloc, "no byte\n"),
        WrittenPositionFault::NoSize { number } => no_size_text(alloc, number),
        WrittenPositionFault::Byte { number, byte } => size_byte_text(alloc, number, byte),
        WrittenPositionFault::Zero { number } => zero_text(alloc, number),
        WrittenPositionFault::Leading { number } => leading_text(alloc, number),
        WrittenPositionFault::Large { number } => large_text(alloc, number),
        WrittenPositionFault::Many { sizes } => many_text(alloc, sizes),
    }
}
