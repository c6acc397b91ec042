//! The line of an answer.
ghost use Rattle.std.specs.Prelude.{◌≡◌, IfOk};
ghost use Rattle.std.specs.String.{string_bytes};
ghost use Rattle.position_commands.specs.PlayLines.{answer_line, beyond_line, one_line, three_line, two_line, win_line};

use player::Answer;
use positions::Left;
use std::alloc::{AllocError, Global};

/// The line of a winning move that leaves nothing.
fn nothing_left(alloc: Global, heap: u64) -> Result<String, AllocError>
    ensures { IfOk result (λ t. string_bytes t ≡ win_line heap Left.Nothing) }
{
    let text = format!(in alloc; "wins {heap} -> 0\n")?;
    Ok(text)
}

/// The line of a winning move that leaves one heap.
fn one_left(alloc: Global, heap: u64, a: u64) -> Result<String, AllocError>
    ensures { IfOk result (λ t. string_bytes t ≡ one_line heap a) }
{
    let text = format!(in alloc; "wins {heap} -> {a}\n")?;
    Ok(text)
}

/// The line of a winning move that leaves two heaps.
fn two_left(alloc: Global, heap: u64, a: u64, b: u64) -> Result<String, AllocError>
    ensures { IfOk result (λ t. string_bytes t ≡ two_line heap a b) }
{
    let text = format!(in alloc; "wins {heap} -> {a} {b}\n")?;
    Ok(text)
}

/// The line of a winning move that leaves three heaps.
fn three_left(alloc: Global, heap: u64, a: u64, b: u64, c: u64) -> Result<String, AllocError>
    ensures { IfOk result (λ t. string_bytes t ≡ three_line heap a b c) }
{
    let text = format!(in alloc; "wins {heap} -> {a} {b} {c}\n")?;
    Ok(text)
}

/// The line of a winning move.
fn win_text(alloc: Global, heap: u64, left: Left) -> Result<String, AllocError>
    ensures { IfOk result (λ t. string_bytes t ≡ win_line heap left) }
{
    match left {
        Left::Nothing => nothing_left(alloc, heap),
        Left::One(a) => one_left(alloc, heap, a),
        Left::Two(a, b) => two_left(alloc, heap, a, b),
        Left::Three(a, b, c) => three_left(alloc, heap, a, b, c),
    }
}

/// The line of an answer: `ended`, `lost`, or `wins`, the heap that is taken, and what is left of
/// it, 0 for nothing.
pub fn answer_text(alloc: Global, answer: Answer) -> Result<String, AllocError>
    ensures { IfOk result (λ t. string_bytes t ≡ answer_line answer) }
{
    match answer {
        Answer::Ended => String::from_str(alloc, "ended\n"),
        Answer::Lost => String::from_str(alloc, "lost\n"),
        Answer::Wins(step) => win_text(alloc, step.heap, step.left),
    }
}

/// The line of a position of which the certificate doesn't speak.
pub(crate) fn beyond_text(alloc: Global) -> Result<String, AllocError>
    ensures { IfOk result (λ t. string_bytes t ≡ beyond_line) }
{
    String::from_str(alloc, "refused 23 Beyond\n")
}
