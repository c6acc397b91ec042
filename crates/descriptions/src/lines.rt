//! The lines of a description but for those of the heaps.
ghost use Rattle.std.specs.Prelude.{◌≡◌, ◌<◌, ◌≤◌, IfOk, All, length};
ghost use Rattle.std.specs.String.{string_bytes};
ghost use Rattle.misere_theory.specs.Certificates.{kind_of};
ghost use Rattle.relations.specs.declared.text.Notation.TheVariants.{Json};
ghost use Rattle.presentations.specs.declared.TheConstants.{LETTERS};
ghost use Rattle.descriptions.specs.Lines.{count_line, generator_text, generators_line, generators_text, head_line, index_text, kind_text, letter_text, letters_text, list_line, portion_line, tail_line, tame_text};

use allocation::Memory;
use certificate::Cert;
use presentations::{Relation, Word};
use relations::{Notation, relations_text, words_text};
use std::alloc::{AllocError, Global};

fn letter_text(alloc: Global, letter: u8) -> Result<String, AllocError>
    requires { letter < LETTERS }
    ensures { IfOk result (λ t. string_bytes t ≡ letter_text letter) }
{
    let name = (b'a' + letter) as char;
    if letter == 0 {
        let text = format!(in alloc; "{name}")?;
        return Ok(text);
    }
    let text = format!(in alloc; ",{name}")?;
    Ok(text)
}

fn letters_text(alloc: Global, letters: u8) -> Result<String, AllocError>
    requires { letters ≤ LETTERS }
    ensures { IfOk result (λ t. string_bytes t ≡ letters_text letters) }
{
    let mut text = String::new(alloc);
    for letter in 0..letters {
        let more = letter_text(alloc, letter)?;
        text.push_str(more.as_str())?;
    }
    Ok(text)
}

/// The index of a quotient: the last heap of a partial one.
#[tactic(auto, unfolding(crate::specs::Lines::index_text))]
pub fn index_text(alloc: Global, notation: Notation, cert: &Cert) -> Result<String, AllocError>
    ensures { IfOk result (λ t. string_bytes t ≡ index_text notation cert.now) }
{
    let heaps = cert.heaps();
    if heaps == 0 {
        return Ok(String::new(alloc));
    }
    let text = match notation {
        Notation::Plain => format!(in alloc; "_{heaps}")?,
        Notation::Latex => format!(in alloc; "_{{{heaps}}}")?,
        Notation::Json => String::new(alloc),
    };
    Ok(text)
}

/// Whether the quotient is that of all heaps or of the first ones.
fn kind_text(cert: &Cert) -> &'static str
    ensures { result.now ≡ kind_text cert.now }
{
    if cert.heaps() == 0 { "full" } else { "partial" }
}

/// The line of the relations.
pub fn head_text(
    alloc: Global,
    notation: Notation,
    cert: &Cert,
    index: &str,
    letters: u8,
    relations: &[Relation],
) -> Result<String, Memory>
    requires letters { letters ≤ LETTERS }
    requires index { index.now ≡ index_text notation cert.now }
    ensures { IfOk result
        (λ t. string_bytes t ≡ head_line notation cert.now letters relations.now) }
{
    let code = cert.code().text(alloc)?;
    let names = letters_text(alloc, letters)?;
    match notation {
        Notation::Plain => {
            let list = relations_text(alloc, Notation::Plain, letters, ", ", relations)?;
            let text = format!(in alloc; "Q{index}({code}) = < {names} | {list} >\n")?;
            Ok(text)
        }
        Notation::Latex => {
            let list = relations_text(alloc, Notation::Latex, letters, "$, $", relations)?;
            let text = format!(in alloc;
                "\\begin{{flushleft}}\n$\\mathcal{{Q}}{index}(\\mathbf{{{code}}})=\\langle {names}\\mid {list}\\rangle$"
            )?;
            Ok(text)
        }
        Notation::Json => {
            let kind = kind_text(cert);
            let list = relations_text(alloc, Notation::Json, letters, ",", relations)?;
            let text = format!(in alloc;
                "{{\"code\":\"{code}\",\"kind\":\"{kind}\",\"relations\":[{list}]"
            )?;
            Ok(text)
        }
    }
}

/// The line of the portion.
pub fn portion_text(
    alloc: Global,
    notation: Notation,
    cert: &Cert,
    index: &str,
    letters: u8,
    words: &[Word],
    elements: &[u16],
) -> Result<String, AllocError>
    requires letters { letters ≤ LETTERS }
    requires index { index.now ≡ index_text notation cert.now }
    requires elements { All (λ e. e < length words.now) elements.now }
    ensures { IfOk result (λ t. string_bytes t
        ≡ portion_line notation cert.now letters words.now elements.now) }
{
    match notation {
        Notation::Plain => {
            let list = words_text(alloc, Notation::Plain, letters, ", ", words, elements)?;
            let text = format!(in alloc; "P{index} = {{ {list} }}\n")?;
            Ok(text)
        }
        Notation::Latex => {
            let list = words_text(alloc, Notation::Latex, letters, "$, $", words, elements)?;
            let text = format!(in alloc; "\\\\\n$\\mathcal{{P}}{index}=\\{{{list}\\}}$")?;
            Ok(text)
        }
        Notation::Json => {
            let list = words_text(alloc, Notation::Json, letters, ",", words, elements)?;
            let text = format!(in alloc; ",\"portion\":[{list}]")?;
            Ok(text)
        }
    }
}

/// A line of elements under a name.
pub fn list_text(
    alloc: Global,
    notation: Notation,
    name: &str,
    letters: u8,
    words: &[Word],
    elements: &[u16],
) -> Result<String, AllocError>
    requires letters { letters ≤ LETTERS }
    requires elements { All (λ e. e < length words.now) elements.now }
    ensures { IfOk result
        (λ t. string_bytes t ≡ list_line notation name.now letters words.now elements.now) }
{
    match notation {
        Notation::Plain => {
            let list = words_text(alloc, Notation::Plain, letters, " ", words, elements)?;
            let text = format!(in alloc; "{name} {list}\n")?;
            Ok(text)
        }
        Notation::Latex => {
            let list = words_text(alloc, Notation::Latex, letters, "$, $", words, elements)?;
            let text = format!(in alloc; "\\\\\n{name} ${list}$")?;
            Ok(text)
        }
        Notation::Json => {
            let list = words_text(alloc, Notation::Json, letters, ",", words, elements)?;
            let text = format!(in alloc; ",\"{name}\":[{list}]")?;
            Ok(text)
        }
    }
}

fn tame_text(alloc: Global, notation: Notation, tame: Option<u16>) -> Result<String, AllocError>
    ensures { IfOk result (λ t. string_bytes t ≡ tame_text notation tame) }
{
    let text = match (notation, tame) {
        (Notation::Plain, Some(n)) => format!(in alloc; "tame {n}")?,
        (Notation::Latex, Some(n)) => format!(in alloc; "tame $\\mathcal{{T}}_{{{n}}}$")?,
        (Notation::Json, Some(n)) => format!(in alloc; "{n}")?,
        (Notation::Plain, None) => format!(in alloc; "wild")?,
        (Notation::Latex, None) => format!(in alloc; "wild")?,
        (Notation::Json, None) => format!(in alloc; "null")?,
    };
    Ok(text)
}

/// How many elements there are, and in the portion; tame or wild.
pub fn count_text(
    alloc: Global,
    notation: Notation,
    cert: &Cert,
    index: &str,
    portion: usize,
    tame: Option<u16>,
) -> Result<String, AllocError>
    requires { index.now ≡ index_text notation cert.now }
    ensures { IfOk result (λ t. string_bytes t ≡ count_line notation cert.now portion tame) }
{
    let order = cert.order();
    let tame = tame_text(alloc, notation, tame)?;
    match notation {
        Notation::Plain => {
            let text = format!(in alloc; "order {order} portion {portion} {tame}\n")?;
            Ok(text)
        }
        Notation::Latex => {
            let text = format!(in alloc;
                "\\\\\n$|\\mathcal{{Q}}{index}|={order}$, $|\\mathcal{{P}}{index}|={portion}$, {tame}"
            )?;
            Ok(text)
        }
        Notation::Json => {
            let text = format!(in alloc; ",\"order\":{order},\"tame\":{tame}")?;
            Ok(text)
        }
    }
}

fn generator_text(
    alloc: Global,
    notation: Notation,
    heaps: &[u64],
    letter: u8,
) -> Result<String, AllocError>
    requires letter { letter < LETTERS }
    requires within { letter < length heaps.now }
    ensures { IfOk result (λ t. string_bytes t ≡ generator_text notation heaps.now letter) }
{
    let name = (b'a' + letter) as char;
    let heap = heaps[letter as usize];
    let text = match notation {
        Notation::Plain => format!(in alloc; " {name}={heap}")?,
        Notation::Latex => format!(in alloc; " ${name}=\\Phi({heap})$")?,
        Notation::Json if letter == 0 => format!(in alloc; "\"{name}\":{heap}")?,
        Notation::Json => format!(in alloc; ",\"{name}\":{heap}")?,
    };
    Ok(text)
}

fn generator_texts(
    alloc: Global,
    notation: Notation,
    heaps: &[u64],
    letters: u8,
) -> Result<String, AllocError>
    requires letters { letters ≤ LETTERS }
    requires heaps { length heaps.now ≡ letters }
    ensures { IfOk result (λ t. string_bytes t ≡ generators_text notation heaps.now letters) }
{
    let mut text = String::new(alloc);
    for letter in 0..letters {
        let more = generator_text(alloc, notation, heaps, letter)?;
        text.push_str(more.as_str())?;
    }
    Ok(text)
}

/// The generators with their first heaps.
pub fn generators_text(
    alloc: Global,
    notation: Notation,
    heaps: &[u64],
    letters: u8,
) -> Result<String, AllocError>
    requires letters { letters ≤ LETTERS }
    requires heaps { length heaps.now ≡ letters }
    ensures { IfOk result (λ t. string_bytes t ≡ generators_line notation heaps.now letters) }
{
    let list = generator_texts(alloc, notation, heaps, letters)?;
    let text = match notation {
        Notation::Plain => format!(in alloc; "generators{list}\n")?,
        Notation::Latex => format!(in alloc; "\\\\\ngenerators{list}")?,
        Notation::Json => format!(in alloc; ",\"generators\":{{{list}}}")?,
    };
    Ok(text)
}

/// How the heaps repeat, or the last one of which a partial certificate speaks.
pub fn tail_text(alloc: Global, notation: Notation, cert: &Cert) -> Result<String, AllocError>
    ensures { IfOk result (λ t. string_bytes t ≡ tail_line notation cert.now) }
{
    let last = cert.heaps();
    if last == 0 {
        return repeat_text(alloc, notation, cert);
    }
    let text = match notation {
        Notation::Plain => format!(in alloc; "heaps to {last}\n")?,
        Notation::Latex => format!(in alloc; "\\noindent heaps to ${last}$\n")?,
        Notation::Json => period_text(alloc, cert)?,
    };
    Ok(text)
}

/// The start and the period, at the end of an object of JSON.
fn period_text(alloc: Global, cert: &Cert) -> Result<String, AllocError>
    ensures { IfOk result (λ t. string_bytes t ≡ tail_line Json cert.now) }
{
    let (start, period) = (cert.start(), cert.period());
    let text = format!(in alloc;
        ",\"start\":{start},\"period\":{period}}}
"
    )?;
    Ok(text)
}

/// How the heaps of a full certificate repeat.
fn repeat_text(alloc: Global, notation: Notation, cert: &Cert) -> Result<String, AllocError>
    ensures { kind_of cert.now ≡ 0 → IfOk result (λ t. string_bytes t ≡ tail_line notation cert.now) }
{
    let (start, period) = (cert.start(), cert.period());
    match notation {
        Notation::Plain => {
            let text = format!(in alloc; "repeat {period} from {start}\n")?;
            Ok(text)
        }
        Notation::Latex => {
            let text = format!(in alloc;
                "\\noindent $\\Phi(n+{period})=\\Phi(n)$ for $n\\ge{start}$\n"
            )?;
            Ok(text)
        }
        Notation::Json => period_text(alloc, cert),
    }
}
