//! `--show`: all that a text says of an infinite quotient.
ghost use Rattle.std.specs.Prelude.{◌≡◌, false, IfOk, IfErr, is_none, is_some, option_map, true};
ghost use Rattle.given_quotients.specs.Checks.{AreGiven, IsGivenCause, failed};
ghost use Rattle.given_quotients.specs.Says.{SaysFound};
ghost use Rattle.label_descriptions.specs.Whole.{IsWholeText};
ghost use Rattle.verdict_commands.specs.Shown.{ShowsAs, ShowsInfinite, output_for};
ghost use Rattle.label_descriptions.specs.Described.{presented_text_for};

use crate::endless::{found, no_text};
use allocation::Memory;
use command_results::{Said, Stop};
use given_quotients::Quotient;
use label_descriptions::{Output, presented_text, whole_text};
use presented_checker::PresentedQuotient;
use requests::Layout;
use std::alloc::Global;
use streams::{Folder, Source};
use whole_checker::WholeGame;

/// For whom the text is.
fn output_for(layout: Layout) -> Output
    ensures { result ≡ output_for layout }
{
    match layout {
        Layout::Lines => Output::Plain,
        Layout::Latex => Output::Latex,
        Layout::Json => Output::Json,
    }
}

/// What is said of a whole game.
fn game_said(alloc: Global, game: &WholeGame, layout: Layout) -> Result<Said, Memory>
    ensures text { IfOk result (λ s. IsWholeText (output_for layout) game.now s.text.items) }
    ensures succeeds { IfOk result (λ s. s.succeeds ≡ true) }
{
    Ok(Said::done(whole_text(alloc, game, output_for(layout))?))
}

/// What is said of a presentation.
fn presentation_said(
    alloc: Global,
    quotient: &PresentedQuotient,
    layout: Layout,
) -> Result<Said, Memory>
    ensures text { IfOk result
        (λ s. s.text.items ≡ presented_text_for (output_for layout) quotient.now) }
    ensures succeeds { IfOk result (λ s. s.succeeds ≡ true) }
{
    Ok(Said::done(presented_text(alloc, quotient, output_for(layout))?))
}

/// What is said of what was found.
fn said_of(alloc: Global, found: Result<Quotient, Vec<u8>>, layout: Layout) -> Result<Said, Memory>
    ensures { IfOk result (λ s. SaysFound (ShowsAs layout) found s.text.items s.succeeds) }
{
    match found {
        Ok(Quotient::Whole(game)) => game_said(alloc, &game, layout),
        Ok(Quotient::Presented(quotient)) => presentation_said(alloc, &quotient, layout),
        Ok(Quotient::Finite(_)) => Ok(Said::no(no_text(alloc)?)),
        Err(no) => Ok(Said::no(no)),
    }
}

/// The infinite quotient that the file, or standard input where no file is named, shows: all that its
/// text says, in lines, for LaTeX or as JSON. Or else why it shows none.
pub fn show_infinite<'a, F: Folder, S: Source>(
    alloc: Global,
    file: Option<&'a str>,
    layout: Layout,
    folder: &mut F,
    input: &mut S,
) -> Result<Said, Stop<'a>>
    ensures shows { let named = option_map (λ f. f.now) file.entry in
        IfOk result (λ s. ShowsInfinite (AreGiven (S.left input.old) (F.files folder.old) named)
        layout s.text.items s.succeeds) }
    ensures kept { F.files folder.new ≡ F.files folder.old }
    ensures stops { IfErr result (IsGivenCause (option_map (λ f. f.now) file.entry)
        (failed (S.failures input.old) (F.failed_reads folder.old))
        (failed (S.failures input.new) (F.failed_reads folder.new))) }
    ensures input { is_none (option_map (λ f. f.now) file.entry) ≡ false → input.new ≡ input.old }
    ensures folder { is_some (option_map (λ f. f.now) file.entry) ≡ false
        → folder.new ≡ folder.old }
{
    let found = found(alloc, file, folder, input)?;
    Ok(said_of(alloc, found, layout)?)
}
