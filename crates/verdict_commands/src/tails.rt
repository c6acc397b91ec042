//! `tail`: whether the whole game is normal play beyond some heap.
ghost use Rattle.std.specs.Prelude.{◌≡◌, false, IfOk, IfErr, is_none, is_some, option_map};
ghost use Rattle.std.specs.String.{string_bytes};
ghost use Rattle.given_quotients.specs.Checks.{AreGiven, IsGivenCause, failed};
ghost use Rattle.given_quotients.specs.Says.{SaysFound};
ghost use Rattle.verdict_commands.specs.Lines.{IsTailText, Tails, normal_line, tail_fault_line};

use allocation::Memory;
use answers::Certified;
use certificate::Cert;
use command_results::{Said, Stop};
use given_quotients::certified;
use nim_tails::{Tail, TailFault, tail_of};
use std::alloc::{AllocError, Global};
use streams::{Folder, Source};

fn normal_text(alloc: Global, cert: &Cert, tail: Tail) -> Result<String, Memory>
    ensures { IfOk result (λ t. string_bytes t ≡ normal_line cert.now tail) }
{
    let (code, above, outside) = (cert.code().text(alloc)?, tail.above, tail.outside);
    let text = format!(in alloc; "normal {code} above heap {above} outside {outside}\n")?;
    Ok(text)
}

fn fault_text(alloc: Global, fault: TailFault) -> Result<String, AllocError>
    ensures { IfOk result (λ t. string_bytes t ≡ tail_fault_line fault) }
{
    let (number, name) = (fault.number(), fault.name());
    let text = match fault.place() {
        Some(place) => format!(in alloc; "no {number} {name} {place}\n")?,
        None => format!(in alloc; "no {number} {name}\n")?,
    };
    Ok(text)
}

/// What is said of the game of an accepted certificate.
fn said_of(alloc: Global, certified: &Certified) -> Result<Said, Memory>
    ensures { IfOk result (λ s. IsTailText certified.now s.text.items s.succeeds) }
{
    match tail_of(alloc, certified) {
        Ok(tail) => Ok(Said::done(normal_text(alloc, certified.cert(), tail)?)),
        Err(TailFault::Memory) => Err(Memory),
        Err(fault) => Ok(Said::no(fault_text(alloc, fault)?.into_bytes())),
    }
}

/// What is said of what was found.
fn said(alloc: Global, quotient: Result<Certified, Vec<u8>>) -> Result<Said, Memory>
    ensures { IfOk result (λ s. SaysFound IsTailText quotient s.text.items s.succeeds) }
{
    match quotient {
        Ok(certified) => said_of(alloc, &certified),
        Err(no) => Ok(Said::no(no)),
    }
}

/// Whether the certificate in the file, or on standard input where no file is named, is accepted under
/// the limit and shows that its whole game is normal play but for positions of some small heaps: beyond
/// which heap, and how many elements are outside the kernel; or which test fails and at what; or else why
/// it isn't accepted.
pub fn tail<'a, F: Folder, S: Source>(
    alloc: Global,
    file: Option<&'a str>,
    limit: u32,
    folder: &mut F,
    input: &mut S,
) -> Result<Said, Stop<'a>>
    ensures tails { let named = option_map (λ f. f.now) file.entry in
        IfOk result (λ s. Tails (AreGiven (S.left input.old) (F.files folder.old) named) limit
        s.text.items s.succeeds) }
    ensures kept { F.files folder.new ≡ F.files folder.old }
    ensures stops { IfErr result (IsGivenCause (option_map (λ f. f.now) file.entry)
        (failed (S.failures input.old) (F.failed_reads folder.old))
        (failed (S.failures input.new) (F.failed_reads folder.new))) }
    ensures input { is_none (option_map (λ f. f.now) file.entry) ≡ false → input.new ≡ input.old }
    ensures folder { is_some (option_map (λ f. f.now) file.entry) ≡ false
        → folder.new ≡ folder.old }
{
    let quotient = certified(alloc, file, limit, folder, input)?;
    Ok(said(alloc, quotient)?)
}
