//! `show`: a certified quotient, line by line.
ghost use Rattle.std.specs.Prelude.{◌≡◌, ◌<◌, ◌+◌, false, IfOk, IfErr, is_none, is_some, option_map};
ghost use Rattle.std.specs.String.{string_bytes};
ghost use Rattle.given_quotients.specs.Checks.{AreGiven, IsGivenCause, failed};
ghost use Rattle.given_quotients.specs.Says.{SaysFound};
ghost use Rattle.description_commands.specs.Shown.{AreElementLines, AreHeapLines, IsQuotientText, Shows, ShowsOf, element_line, head_lines, heap_line, letter_of, partial_tail_line, repeat_line, tail_line};

use allocation::Memory;
use answers::Certified;
use certificate::Cert;
use command_results::{Said, Stop};
use given_quotients::{Quotient, quotient_of};
use label_descriptions::{Output, presented_text, whole_text};
use std::alloc::{AllocError, Global};
use streams::{Folder, Source};

fn letter(certified: &Certified, element: u16) -> &'static str
    requires { element < certified.now.order }
    ensures { result.now ≡ letter_of certified.now element }
{
    if certified.holds(element) { "P" } else { "N" }
}

fn element_text(
    alloc: Global,
    element: u16,
    letter: &str,
    position: &str,
) -> Result<String, AllocError>
    ensures { IfOk result (λ t. string_bytes t ≡ element_line element letter.now position.now) }
{
    let text = format!(in alloc; "element {element} {letter} {position}\n")?;
    Ok(text)
}

/// One line for each element, with its outcome and a position of that value.
fn elements_text(alloc: Global, certified: &Certified) -> Result<String, Memory>
    ensures { IfOk result
        (λ t. AreElementLines certified.now certified.now.order (string_bytes t)) }
{
    let mut text = String::new(alloc);
    for element in 0..certified.cert().order() {
        let position = certified.position_of(alloc, element)?.text()?;
        let letter = letter(certified, element);
        let line = element_text(alloc, element, letter, position.as_str())?;
        text.push_str(line.as_str())?;
    }
    Ok(text)
}

fn heap_text(alloc: Global, heap: u64, element: u16) -> Result<String, AllocError>
    ensures { IfOk result (λ t. string_bytes t ≡ heap_line heap element) }
{
    let text = format!(in alloc; "heap {heap} {element}\n")?;
    Ok(text)
}

/// One line for each heap before the elements repeat, or for each of a partial certificate.
fn heaps_text(alloc: Global, certified: &Certified) -> Result<String, Memory>
    ensures { IfOk result
        (λ t. AreHeapLines certified.now (certified.now.start + certified.now.period)
        (string_bytes t)) }
{
    let cert = certified.cert();
    let mut text = String::new(alloc);
    for heap in 1..cert.start() + cert.period() {
        let line = heap_text(alloc, heap, certified.element(heap))?;
        text.push_str(line.as_str())?;
    }
    Ok(text)
}

fn head_text(alloc: Global, cert: &Cert) -> Result<String, Memory>
    ensures { IfOk result (λ t. string_bytes t ≡ head_lines cert.now) }
{
    let (code, order) = (cert.code().text(alloc)?, cert.order());
    let text = format!(in alloc; "code {code}\norder {order}\n")?;
    Ok(text)
}

fn repeat_text(alloc: Global, cert: &Cert) -> Result<String, AllocError>
    ensures { IfOk result (λ t. string_bytes t ≡ repeat_line cert.now) }
{
    let (start, period) = (cert.start(), cert.period());
    let text = format!(in alloc; "repeat {period} from {start}\n")?;
    Ok(text)
}

fn partial_tail_text(alloc: Global, cert: &Cert) -> Result<String, AllocError>
    ensures { IfOk result (λ t. string_bytes t ≡ partial_tail_line cert.now) }
{
    let last = cert.heaps();
    let text = format!(in alloc; "heaps to {last}\n")?;
    Ok(text)
}

/// How the heaps repeat, or the last one of which a partial certificate speaks.
fn tail_text(alloc: Global, cert: &Cert) -> Result<String, AllocError>
    ensures { IfOk result (λ t. string_bytes t ≡ tail_line cert.now) }
{
    if cert.heaps() == 0 {
        repeat_text(alloc, cert)
    } else {
        partial_tail_text(alloc, cert)
    }
}

/// The quotient of the certificate.
fn quotient_text(alloc: Global, certified: &Certified) -> Result<String, Memory>
    ensures { IfOk result (λ t. IsQuotientText certified.now (string_bytes t)) }
{
    let mut text = head_text(alloc, certified.cert())?;
    text.push_str(elements_text(alloc, certified)?.as_str())?;
    text.push_str(heaps_text(alloc, certified)?.as_str())?;
    text.push_str(tail_text(alloc, certified.cert())?.as_str())?;
    Ok(text)
}

/// What is said of what was found.
fn shown(alloc: Global, found: Result<Quotient, Vec<u8>>) -> Result<Said, Memory>
    ensures { IfOk result (λ s. SaysFound ShowsOf found s.text.items s.succeeds) }
{
    match found {
        Ok(Quotient::Finite(certified)) => Ok(Said::done(quotient_text(alloc, &certified)?)),
        Ok(Quotient::Whole(game)) => Ok(Said::done(whole_text(alloc, &game, Output::Plain)?)),
        Ok(Quotient::Presented(quotient)) => {
            Ok(Said::done(presented_text(alloc, &quotient, Output::Plain)?))
        }
        Err(no) => Ok(Said::no(no)),
    }
}

/// The quotient that the file, or standard input where no file is named, gives under the limit. A finite
/// one: its code and order, each element with its outcome and a position of that value, each heap with its
/// element, and how the heaps repeat or, of a partial quotient, which is the last. That of a whole game, and a
/// presentation, as `describe` has it. Or else why it gives none.
pub fn show<'a, F: Folder, S: Source>(
    alloc: Global,
    file: Option<&'a str>,
    limit: u32,
    folder: &mut F,
    input: &mut S,
) -> Result<Said, Stop<'a>>
    ensures shows { let named = option_map (λ f. f.now) file.entry in
        IfOk result (λ s. Shows (AreGiven (S.left input.old) (F.files folder.old) named) limit
        s.text.items s.succeeds) }
    ensures kept { F.files folder.new ≡ F.files folder.old }
    ensures stops { IfErr result (IsGivenCause (option_map (λ f. f.now) file.entry)
        (failed (S.failures input.old) (F.failed_reads folder.old))
        (failed (S.failures input.new) (F.failed_reads folder.new))) }
    ensures input { is_none (option_map (λ f. f.now) file.entry) ≡ false → input.new ≡ input.old }
    ensures folder { is_some (option_map (λ f. f.now) file.entry) ≡ false
        → folder.new ≡ folder.old }
{
    let found = quotient_of(alloc, file, limit, folder, input)?;
    Ok(shown(alloc, found)?)
}
