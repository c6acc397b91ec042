//! What a text of a whole game or a presentation says, in one of three texts.
ghost use Rattle.std.specs.Prelude.{◌≡◌, ◌≤◌, IfOk, length};
ghost use Rattle.std.specs.String.{string_bytes};
ghost use Rattle.presentations.specs.declared.TheConstants.{LETTERS};
ghost use Rattle.label_descriptions.specs.Described.{presented_text_for, text_of};
ghost use Rattle.label_descriptions.specs.Whole.{IsWholeText};

use crate::json::json_text;
use crate::lines::{Style, lines_text};
use crate::whole::text_for;
use allocation::Memory;
use presented_checker::PresentedQuotient;
use presented_tables::Presented;
use std::alloc::{Allocator, Global};
use whole_checker::{WholeGame, makes_all};

/// For whom the text is.
#[derive(Clone, Copy, Debug, PartialEq, Eq)]
pub enum Output {
    /// For readers, in lines.
    Plain,
    /// For LaTeX.
    Latex,
    /// For programs, one object of JSON.
    Json,
}

/// What is said of a whole game: the monoid of triples by generators and relations, with its P-portion, and
/// whether it is seen to be the quotient or the quotient lies in it; the triple of each heap up to the end of
/// the first period; and with which period and rise they repeat.
pub fn whole_text(alloc: Global, game: &WholeGame, output: Output) -> Result<String, Memory>
    ensures { IfOk result (λ s. IsWholeText output game.now (string_bytes s)) }
{
    let all = makes_all(alloc, game)?;
    text_for(alloc, output, game.text(), all)
}

/// The text of a presentation that is asked for.
fn text_of<A: Allocator>(
    alloc: Global,
    said: &Presented<A>,
    order: Option<usize>,
    output: Output,
) -> Result<String, Memory>
    requires letters { length said.now.letters ≤ LETTERS }
    requires cycles { length said.now.cycles ≤ LETTERS }
    ensures { IfOk result (λ t. string_bytes t ≡ text_of output said.now order) }
{
    match output {
        Output::Plain => lines_text(alloc, Style::Plain, said, order),
        Output::Latex => lines_text(alloc, Style::Latex, said, order),
        Output::Json => json_text(alloc, said, order),
    }
}

/// What a presentation says: the quotient by generators and relations, its portion and the cycles, how many elements
/// there are, the heaps of the letters, the words of the heaps, and how these repeat or which heap is the last.
pub fn presented_text<A: Allocator>(
    alloc: Global,
    quotient: &PresentedQuotient<A>,
    output: Output,
) -> Result<String, Memory>
    ensures { IfOk result (λ t. string_bytes t ≡ presented_text_for output quotient.now) }
{
    text_of(alloc, quotient.said(), quotient.order(), output)
}
