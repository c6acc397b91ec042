//! `describe`: the quotient that a file gives, by generators and relations.
ghost use Rattle.std.specs.Prelude.{◌≡◌, ◌++◌, IfOk, IfErr, None, true, false, codes, is_none, is_some, option_map};
ghost use Rattle.std.specs.String.{string_bytes};
ghost use Rattle.given_quotients.specs.Checks.{AreGiven, IsGivenCause, failed};
ghost use Rattle.description_commands.specs.Described.{Describes, DescribesFoundBy, DescribesInBy, DescribesForBy, DescribesPresented, DescribesQuotientBy, DescribesWhole, bound_line, note_line};
ghost use Rattle.label_descriptions.specs.Whole.{IsWholeText};
ghost use Rattle.label_descriptions.specs.Described.{presented_text_for};
ghost use Rattle.requests.specs.declared.plans.Output.TheVariants.{Relations};

use crate::presenting::presenting;
use crate::searches::{Relating, Texts};
use crate::structures::{structured, tabled};
use allocation::Memory;
use answers::Certified;
use command_results::{Noted, Said, Stop};
use descriptions::{Bound, Form, Notation, PresentBound, RelationsWord, System, Undescribed};
use given_quotients::{Quotient, quotient_of};
use label_descriptions::{Output as WholeOutput, presented_text, whole_text};
use presented_checker::PresentedQuotient;
use requests::Output;
use std::alloc::Global;
use streams::{Folder, Source};
use whole_checker::WholeGame;

/// What is said, with nothing told beside it.
pub(crate) fn alone(said: Said) -> Noted
    ensures said { result.said ≡ said }
    ensures note { option_map (λ t. t.now) result.note ≡ None }
{
    Noted { said, note: None }
}

/// The line of a no.
pub(crate) fn refuse(alloc: Global, line: &str) -> Result<Noted, Memory>
    ensures { IfOk result (λ n. (n.said.text.items ≡ line.now) × (n.said.succeeds ≡ false)
        × (option_map (λ t. t.now) n.note ≡ None)) }
{
    let text = line.as_bytes().to_vec(alloc)?;
    Ok(alone(Said::no(text)))
}

/// The line that says within which bound a quotient is not described.
pub(crate) fn bound_line(bound: Bound) -> &'static str
    ensures { result.now ≡ bound_line bound }
{
    match bound {
        Bound::Letters => "not described within 26 generators\n",
        Bound::Exponents => "not described within exponents of 64\n",
        Bound::Unshown => "not described within 512 rules\n",
    }
}

/// The description of the quotient, plain, for LaTeX or in JSON.
fn described<T: Texts>(
    by: &T,
    alloc: Global,
    certified: &Certified,
    form: Form,
    notation: Notation,
) -> Result<Noted, Memory>
    ensures { IfOk result
        (λ n. DescribesInBy T.has_met notation form certified.now n.said.text.items n.said.succeeds
        × (option_map (λ t. t.now) n.note ≡ None)) }
{
    match by.description(alloc, notation, certified, form) {
        Ok(text) => Ok(alone(Said::done(text))),
        Err(Undescribed::Bound(met)) => refuse(alloc, bound_line(met.bound())),
        Err(Undescribed::Memory) => Err(Memory),
    }
}

/// The ideal of the quotient's relations, for a system.
fn computed<T: Texts>(
    by: &T,
    alloc: Global,
    certified: &Certified,
    form: Form,
    system: System,
) -> Result<Noted, Memory>
    ensures { IfOk result
        (λ n. DescribesForBy T.has_met system form certified.now n.said.text.items n.said.succeeds
        × (option_map (λ t. t.now) n.note ≡ None)) }
{
    match by.ideal(alloc, system, certified, form) {
        Ok(text) => Ok(alone(Said::done(text))),
        Err(Undescribed::Bound(met)) => refuse(alloc, bound_line(met.bound())),
        Err(Undescribed::Memory) => Err(Memory),
    }
}

/// The line that names the bound of `present` that relations are above, if they are above one.
fn note_of(beyond: Option<PresentBound>) -> Option<&'static str>
    ensures { option_map (λ t. t.now) result ≡ option_map note_line beyond }
{
    match beyond {
        Some(PresentBound::Relations) => {
            Some("misere: present refuses these relations: more than 64 of them\n")
        }
        Some(PresentBound::Powers) => Some(
            "misere: present refuses these relations: a letter without a relation of its own powers\n",
        ),
        Some(PresentBound::Box) => Some(
            "misere: present refuses these relations: a box above 65536, or more than 256 elements\n",
        ),
        None => None,
    }
}

/// The line of relations, and the note where `present` refuses them.
fn line_of(alloc: Global, found: RelationsWord) -> Result<Noted, Memory>
    ensures text { IfOk result
        (λ n. n.said.text.items ≡ string_bytes found.word ++ codes "\n") }
    ensures succeeds { IfOk result (λ n. n.said.succeeds ≡ true) }
    ensures note { IfOk result
        (λ n. option_map (λ t. t.now) n.note ≡ option_map note_line found.beyond) }
{
    let note = note_of(found.beyond);
    let word = found.word;
    let text = format!(in alloc; "{word}\n")?;
    Ok(Noted {
        said: Said::done(text),
        note,
    })
}

/// The relations of the quotient as one word for `present`, and the note where it refuses them.
fn presented<T: Texts>(
    by: &T,
    alloc: Global,
    certified: &Certified,
    form: Form,
) -> Result<Noted, Memory>
    ensures { IfOk result (λ n. DescribesQuotientBy T.has_met certified.now form Relations n.said.text.items
        n.said.succeeds (option_map (λ t. t.now) n.note)) }
{
    match by.word(alloc, certified, form) {
        Ok(found) => line_of(alloc, found),
        Err(Undescribed::Bound(met)) => refuse(alloc, bound_line(met.bound())),
        Err(Undescribed::Memory) => Err(Memory),
    }
}

/// The certified quotient, as it is asked for, and what is told beside it.
fn finite_noted<T: Texts>(
    by: &T,
    alloc: Global,
    certified: &Certified,
    form: Form,
    output: Output,
) -> Result<Noted, Memory>
    ensures { IfOk result (λ n. DescribesQuotientBy T.has_met certified.now form output n.said.text.items
        n.said.succeeds (option_map (λ t. t.now) n.note)) }
{
    match output {
        Output::Description => described(by, alloc, certified, form, Notation::Plain),
        Output::Latex => described(by, alloc, certified, form, Notation::Latex),
        Output::Json => described(by, alloc, certified, form, Notation::Json),
        Output::Relations => presented(by, alloc, certified, form),
        Output::Singular => computed(by, alloc, certified, form, System::Singular),
        Output::Gap => computed(by, alloc, certified, form, System::Gap),
        Output::GapTable => tabled(alloc, certified),
        Output::Structure => structured(by, alloc, certified),
        Output::Presentation => presenting(alloc, certified),
    }
}

/// The quotient of a whole game in lines, for LaTeX or as JSON.
fn whole_described(alloc: Global, game: &WholeGame, output: WholeOutput) -> Result<Noted, Memory>
    ensures { IfOk result (λ n. IsWholeText output game.now n.said.text.items × (n.said.succeeds ≡ true)
        × (option_map (λ t. t.now) n.note ≡ None)) }
{
    Ok(alone(Said::done(whole_text(alloc, game, output)?)))
}

/// The same, or that it is described in no other way.
fn whole_noted(alloc: Global, game: &WholeGame, output: Output) -> Result<Noted, Memory>
    ensures { IfOk result (λ n. DescribesWhole game.now output n.said.text.items n.said.succeeds
        × (option_map (λ t. t.now) n.note ≡ None)) }
{
    match output {
        Output::Description => whole_described(alloc, game, WholeOutput::Plain),
        Output::Latex => whole_described(alloc, game, WholeOutput::Latex),
        Output::Json => whole_described(alloc, game, WholeOutput::Json),
        Output::Relations
        | Output::Singular
        | Output::Gap
        | Output::GapTable
        | Output::Structure
        | Output::Presentation => refuse(
            alloc,
            "a whole game is described in lines, for LaTeX or as JSON\n",
        ),
    }
}

/// The presentation in lines, for LaTeX or as JSON.
fn presentation_described(
    alloc: Global,
    quotient: &PresentedQuotient,
    output: WholeOutput,
) -> Result<Noted, Memory>
    ensures { IfOk result (λ n. (n.said.text.items ≡ presented_text_for output quotient.now)
        × (n.said.succeeds ≡ true) × (option_map (λ t. t.now) n.note ≡ None)) }
{
    Ok(alone(Said::done(presented_text(alloc, quotient, output)?)))
}

/// The same, or that it is described in no other way.
fn presentation_noted(
    alloc: Global,
    quotient: &PresentedQuotient,
    output: Output,
) -> Result<Noted, Memory>
    ensures { IfOk result (λ n. DescribesPresented quotient.now output n.said.text.items n.said.succeeds
        × (option_map (λ t. t.now) n.note ≡ None)) }
{
    match output {
        Output::Description => presentation_described(alloc, quotient, WholeOutput::Plain),
        Output::Latex => presentation_described(alloc, quotient, WholeOutput::Latex),
        Output::Json => presentation_described(alloc, quotient, WholeOutput::Json),
        Output::Relations
        | Output::Singular
        | Output::Gap
        | Output::GapTable
        | Output::Structure
        | Output::Presentation => refuse(
            alloc,
            "a presentation is described in lines, for LaTeX or as JSON\n",
        ),
    }
}

/// What is said of what was found, and told beside it.
fn noted<T: Texts>(
    by: &T,
    alloc: Global,
    found: Result<Quotient, Vec<u8>>,
    form: Form,
    output: Output,
) -> Result<Noted, Memory>
    ensures { IfOk result (λ n. DescribesFoundBy T.has_met found form output n.said.text.items n.said.succeeds
        (option_map (λ t. t.now) n.note)) }
{
    match found {
        Ok(Quotient::Finite(certified)) => finite_noted(by, alloc, &certified, form, output),
        Ok(Quotient::Whole(game)) => whole_noted(alloc, &game, output),
        Ok(Quotient::Presented(quotient)) => presentation_noted(alloc, &quotient, output),
        Err(no) => Ok(alone(Said::no(no))),
    }
}

/// The quotient that the file, or standard input where no file is named, gives under the limit,
/// described. A finite one is: by relations that present its monoid in this form, with its portion, orders,
/// generators, standard invariants and the pretending function in words, plain, for LaTeX or in JSON;
/// or by its relations alone, as one word for `present`, or as an ideal for Singular or GAP; or by its
/// multiplication table, or what belongs to each of its idempotents; or by the text of its presentation, which
/// the check of presentations has accepted. Or else why it gives none, or within which bound it is not described. The note names the bound of `present` that the one word's relations are
/// above. That of a whole game is described in lines, for LaTeX or as JSON: by the presentation of the
/// monoid of triples, and the triples of its heaps. So is a presentation: by what it says.
pub fn describe<'a, F: Folder, S: Source>(
    alloc: Global,
    file: Option<&'a str>,
    limit: u32,
    form: Form,
    output: Output,
    folder: &mut F,
    input: &mut S,
) -> Result<Noted, Stop<'a>>
    ensures describes { let named = option_map (λ f. f.now) file.entry in
        IfOk result (λ n. Describes (AreGiven (S.left input.old) (F.files folder.old) named) limit
        form output n.said.text.items n.said.succeeds (option_map (λ t. t.now) n.note)) }
    ensures kept { F.files folder.new ≡ F.files folder.old }
    ensures stops { IfErr result (IsGivenCause (option_map (λ f. f.now) file.entry)
        (failed (S.failures input.old) (F.failed_reads folder.old))
        (failed (S.failures input.new) (F.failed_reads folder.new))) }
    ensures input { is_none (option_map (λ f. f.now) file.entry) ≡ false → input.new ≡ input.old }
    ensures folder { is_some (option_map (λ f. f.now) file.entry) ≡ false
        → folder.new ≡ folder.old }
{
    let found = quotient_of(alloc, file, limit, folder, input)?;
    Ok(noted(&Relating, alloc, found, form, output)?)
}
