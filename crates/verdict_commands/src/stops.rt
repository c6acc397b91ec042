//! Where a reader stopped, in words. No contract speaks of it.
use certificate_lines::{Stopped, Wanted};
use std::alloc::{AllocError, Global};

/// How many bytes of a word are printed at most.
const LONGEST_WORD: usize = 40;

/// What is said of a text whose first line is `mqi 1`.
const TRACKS: &str =
    "line 1: a certificate with tracks, as misere made them up to 0.6; misere solve CODE --infinite \
finds a presentation\n";

/// What was wanted at a place of a text.
#[derive(Clone, Copy, Debug, PartialEq, Eq)]
pub struct Furthest {
    at: usize,
    wanted: Wanted,
}

impl Furthest {
    /// No reader has come further than the first word.
    pub(crate) fn unknown() -> Furthest {
        Furthest {
            at: 0,
            wanted: Wanted::Words("mqc, mqw, mqp or table"),
        }
    }

    /// Where a reader of the bytes stopped.
    fn of(bytes: &[u8], stop: Stopped) -> Furthest {
        let at = bytes.len().saturating_sub(stop.left);
        match stop.wanted {
            Wanted::Bytes(text) => {
                let begin = begin_of(text, &bytes[at..]).min(text.len());
                Furthest {
                    at: at.saturating_add(begin),
                    wanted: Wanted::Bytes(&text[begin..]),
                }
            }
            Wanted::Code => of_code(bytes, at),
            wanted => Furthest { at, wanted },
        }
    }

    /// This one, or where another reader stopped, if that one came further.
    pub(crate) fn or(self, bytes: &[u8], stop: Stopped) -> Furthest {
        let other = Furthest::of(bytes, stop);
        if other.at > self.at { other } else { self }
    }
}

fn is_graphic(byte: u8) -> bool {
    byte > b' ' && byte < 127
}

fn is_between(byte: u8) -> bool {
    byte == b' ' || byte == b'\n'
}

/// Where the first word of the text begins that isn't in front of the bytes.
fn begin_of(text: &[u8], bytes: &[u8]) -> usize {
    let mut begin = 0;
    for i in 0..text.len() {
        if i >= bytes.len() || text[i] != bytes[i] {
            return if is_between(text[i]) { i } else { begin };
        }
        if is_between(text[i]) {
            begin = i + 1;
        }
    }
    begin
}

/// What is wrong with a code: a byte in its line that no code has, or the code.
fn of_code(bytes: &[u8], at: usize) -> Furthest {
    for i in at..bytes.len() {
        let byte = bytes[i];
        if byte == b'\n' {
            break;
        }
        if !is_graphic(byte) {
            return Furthest {
                at: i,
                wanted: Wanted::Bytes(b"\n"),
            };
        }
    }
    Furthest {
        at,
        wanted: Wanted::Code,
    }
}

/// The bytes up to the first that isn't printed, as a word between quotation marks.
fn quoted(alloc: Global, bytes: &[u8]) -> Result<String, AllocError> {
    let mut word = String::from_str(alloc, "\"")?;
    for i in 0..bytes.len() {
        let byte = bytes[i];
        if !is_graphic(byte) {
            break;
        }
        if i == LONGEST_WORD {
            word.push_str("..")?;
            break;
        }
        word.push(byte as char)?;
    }
    word.push('"')?;
    Ok(word)
}

fn number(alloc: Global, least: u16, limit: u16) -> Result<String, AllocError> {
    let most = limit.saturating_sub(1);
    if least == 0 {
        let text = format!(in alloc; "a number up to {most}")?;
        return Ok(text);
    }
    let text = format!(in alloc; "a number from {least} to {most}")?;
    Ok(text)
}

fn greater(alloc: Global, limit: u16) -> Result<String, AllocError> {
    let most = limit.saturating_sub(1);
    let text = format!(in alloc; "a greater number up to {most}")?;
    Ok(text)
}

fn wanted_text(alloc: Global, wanted: Wanted) -> Result<String, AllocError> {
    match wanted {
        Wanted::Bytes([b' ', ..]) => String::from_str(alloc, "a space"),
        Wanted::Bytes([b'\n', ..]) => String::from_str(alloc, "the end of the line"),
        Wanted::Bytes(text) => quoted(alloc, text),
        Wanted::More => String::from_str(alloc, "a further number"),
        Wanted::Number { least, limit } => number(alloc, least, limit),
        Wanted::Greater { limit } => greater(alloc, limit),
        Wanted::Code => String::from_str(alloc, "a code, such as 0.77"),
        Wanted::Digit => String::from_str(alloc, "a hexadecimal digit"),
        Wanted::Words(text) => String::from_str(alloc, text),
        Wanted::End => String::from_str(alloc, "the end of the text"),
    }
}

fn byte_text(alloc: Global, byte: u8) -> Result<String, AllocError> {
    let number = byte as u16;
    let text = format!(in alloc; "the byte {number}")?;
    Ok(text)
}

fn found_text(alloc: Global, rest: &[u8]) -> Result<String, AllocError> {
    match rest {
        [] => String::from_str(alloc, "the end of the text"),
        [b'\n', ..] => String::from_str(alloc, "the end of the line"),
        [b' ', ..] => String::from_str(alloc, "a space"),
        [b'\r', ..] => String::from_str(alloc, "a carriage return"),
        [b'\t', ..] => String::from_str(alloc, "a tab"),
        [byte, ..] if !is_graphic(*byte) => byte_text(alloc, *byte),
        _ => quoted(alloc, rest),
    }
}

/// In which line a place is. Lines are counted from 1.
fn line_of(bytes: &[u8], at: usize) -> u64 {
    let mut line = 1u64;
    for i in 0..bytes.len() {
        if i < at && bytes[i] == b'\n' {
            line = line.saturating_add(1);
        }
    }
    line
}

/// The line that says where it is, what is there, and what was wanted. Of a certificate with tracks, which is no text any
/// more, it says so.
pub(crate) fn stop_text(
    alloc: Global,
    bytes: &[u8],
    furthest: Furthest,
) -> Result<String, AllocError> {
    if bytes.is_empty() {
        return String::from_str(alloc, "no byte\n");
    }
    if bytes.starts_with(b"mqi 1\n") {
        return String::from_str(alloc, TRACKS);
    }
    let at = furthest.at.min(bytes.len());
    let line = line_of(bytes, at);
    let found = found_text(alloc, &bytes[at..])?;
    let wanted = wanted_text(alloc, furthest.wanted)?;
    let text = format!(in alloc; "line {line}: {found} in place of {wanted}\n")?;
    Ok(text)
}
