//! Words and lines that go out to a sink.
ghost use Rattle.std.specs.Prelude.{◌≡◌, ◌≤◌, slice_range, ◌++◌, ◌∷◌, [], map, drop, codes};
ghost use Rattle.std.specs.Fmt.{decimal};
ghost use Rattle.octal_code.specs.Text.{code_text, digit_byte};
ghost use Rattle.streams.specs.Stream.{Counts, Puts};
ghost use Rattle.certificate_text.specs.Spelling.{spaced, key_word, row_line, text, said, apart_lines};

use crate::cert::Cert;
use crate::format::format_of;
use crate::laws::claims_agree;
use certificate_lines::{Key, firsts};
use itoa::Buffer;
use octal_code::Code;
use std::alloc::Allocator;
use streams::{DeviceFault, Sink, write_whole};

/// A number in decimal.
fn put_number<W: Sink>(sink: &mut W, n: u16) -> Result<(), DeviceFault>
    ensures puts { Puts (W.taken sink.old) (W.taken sink.new) result (decimal n) }
    ensures cause { Counts (W.failures sink.old) (W.failures sink.new) result }
{
    let mut buffer = Buffer::new();
    write_whole(sink, buffer.format(n).as_bytes())
}

/// A number behind a space.
fn put_word<W: Sink>(sink: &mut W, n: u16) -> Result<(), DeviceFault>
    ensures puts { Puts (W.taken sink.old) (W.taken sink.new) result (32 ∷ decimal n) }
    ensures cause { Counts (W.failures sink.old) (W.failures sink.new) result }
{
    write_whole(sink, b" ")?;
    put_number(sink, n)
}

/// Numbers, each behind a space.
fn put_words<W: Sink>(sink: &mut W, numbers: &[u16]) -> Result<(), DeviceFault>
    ensures puts { Puts (W.taken sink.old) (W.taken sink.new) result
        (spaced (map decimal numbers.now)) }
    ensures cause { Counts (W.failures sink.old) (W.failures sink.new) result }
{
    for x in numbers {
        put_word(sink, *x)?;
    }
    Ok(())
}

/// A line of numbers.
pub fn put_line<W: Sink>(sink: &mut W, name: &[u8], numbers: &[u16]) -> Result<(), DeviceFault>
    ensures puts { Puts (W.taken sink.old) (W.taken sink.new) result
        (name.now ++ (spaced (map decimal numbers.now) ++ 10 ∷ [])) }
    ensures cause { Counts (W.failures sink.old) (W.failures sink.new) result }
{
    write_whole(sink, name)?;
    put_words(sink, numbers)?;
    write_whole(sink, b"\n")
}

/// A number behind a colon.
fn put_heap<W: Sink>(sink: &mut W, n: u16) -> Result<(), DeviceFault>
    ensures puts { Puts (W.taken sink.old) (W.taken sink.new) result (58 ∷ decimal n) }
    ensures cause { Counts (W.failures sink.old) (W.failures sink.new) result }
{
    write_whole(sink, b":")?;
    put_number(sink, n)
}

/// A key behind a space.
fn put_key<W: Sink>(sink: &mut W, key: Key) -> Result<(), DeviceFault>
    ensures puts { Puts (W.taken sink.old) (W.taken sink.new) result (32 ∷ key_word key) }
    ensures cause { Counts (W.failures sink.old) (W.failures sink.new) result }
{
    put_word(sink, key.element)?;
    put_heap(sink, key.heap)
}

/// Keys, each behind a space.
fn put_keys<W: Sink>(sink: &mut W, keys: &[Key]) -> Result<(), DeviceFault>
    ensures puts { Puts (W.taken sink.old) (W.taken sink.new) result
        (spaced (map key_word keys.now)) }
    ensures cause { Counts (W.failures sink.old) (W.failures sink.new) result }
{
    for key in keys {
        put_key(sink, *key)?;
    }
    Ok(())
}

/// The line of the keys.
pub fn put_key_line<W: Sink>(sink: &mut W, keys: &[Key]) -> Result<(), DeviceFault>
    ensures puts { Puts (W.taken sink.old) (W.taken sink.new) result
        (codes "words" ++ (spaced (map key_word keys.now) ++ 10 ∷ [])) }
    ensures cause { Counts (W.failures sink.old) (W.failures sink.new) result }
{
    write_whole(sink, b"words")?;
    put_keys(sink, keys)?;
    write_whole(sink, b"\n")
}

/// The digits of a code behind the first.
fn put_digits<W: Sink>(sink: &mut W, code: &Code) -> Result<(), DeviceFault>
    ensures puts { Puts (W.taken sink.old) (W.taken sink.new) result
        (map digit_byte (drop 1 code.now)) }
    ensures cause { Counts (W.failures sink.old) (W.failures sink.new) result }
{
    for j in 0..code.last() as u64 {
        write_whole(sink, &[code.digit_byte(j + 1)])?;
    }
    Ok(())
}

/// The digits of a code, with a point behind the first.
fn put_code<W: Sink>(sink: &mut W, code: &Code) -> Result<(), DeviceFault>
    ensures puts { Puts (W.taken sink.old) (W.taken sink.new) result (code_text code.now) }
    ensures cause { Counts (W.failures sink.old) (W.failures sink.new) result }
{
    write_whole(sink, &[code.digit_byte(0), b'.'])?;
    put_digits(sink, code)
}

/// The line of the code.
pub fn put_code_line<W: Sink>(sink: &mut W, code: &Code) -> Result<(), DeviceFault>
    ensures puts { Puts (W.taken sink.old) (W.taken sink.new) result
        (codes "code " ++ (code_text code.now ++ 10 ∷ [])) }
    ensures cause { Counts (W.failures sink.old) (W.failures sink.new) result }
{
    write_whole(sink, b"code ")?;
    put_code(sink, code)?;
    write_whole(sink, b"\n")
}

/// The rows that the text says, from one on and up to another: all of them, or in the third format
/// those of the first elements.
fn said_rows<A: Allocator>(cert: &Cert<A>) -> (usize, usize)
    ensures rows { (said cert.now).rows ≡ slice_range cert.now.rows result.0 result.1 }
    ensures rising { result.0 ≤ result.1 }
    ensures within { result.1 ≤ cert.now.order }
{
    let order = cert.order() as usize;
    if format_of(cert) == 3 {
        (1, firsts(cert.words()) + 1)
    } else {
        (0, order)
    }
}

/// The lines of the rows that the text says.
pub fn put_rows<A: Allocator, W: Sink>(sink: &mut W, cert: &Cert<A>) -> Result<(), DeviceFault>
    ensures puts { Puts (W.taken sink.old) (W.taken sink.new) result
        (text (map row_line (said cert.now).rows)) }
    ensures cause { Counts (W.failures sink.old) (W.failures sink.new) result }
{
    claims_agree();
    let order = cert.order() as usize;
    let rows = cert.rows();
    let (start, end) = said_rows(cert);
    for x in start..end {
        put_line(sink, b"row", &rows[x * order..x * order + order])?;
    }
    Ok(())
}

/// The line of the separators, which the third format leaves out.
pub fn put_apart<A: Allocator, W: Sink>(sink: &mut W, cert: &Cert<A>) -> Result<(), DeviceFault>
    ensures puts { Puts (W.taken sink.old) (W.taken sink.new) result
        (text (apart_lines cert.now)) }
    ensures cause { Counts (W.failures sink.old) (W.failures sink.new) result }
{
    if format_of(cert) == 3 {
        Ok(())
    } else {
        put_line(sink, b"apart", cert.apart())
    }
}
