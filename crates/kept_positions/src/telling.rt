//! The test of all pairs of classes.
ghost use Rattle.std.specs.Prelude.{◌≡◌, ◌<◌, ℕ, IsTrue, MatchResult};
ghost use Rattle.kept_positions.specs.Told.{IsTold, AreTold, IsTrueOf};

use crate::LabelTables;
use crate::contexts::contexts_of;
use crate::marks::tells;
use allocation::Memory;
use std::alloc::Allocator;

/// Why classes aren't seen to be told apart.
#[derive(Clone, Copy, Debug, PartialEq, Eq)]
pub enum NotTold {
    /// No label tells these two classes apart, the greater of which comes first.
    Alike(usize, usize),
    /// A table is too short, or a test of infinitely many labels failed.
    Undecided,
    /// A growth was refused.
    Memory(Memory),
}

impl From<Memory> for NotTold {
    ghost use Rattle.kept_positions.specs.declared.telling.NotTold.TheVariants as variants;

    ghost from_gives = { λ memory fault. fault ≡ variants.Memory memory };

    fn from(memory: Memory) -> NotTold {
        NotTold::Memory(memory)
    }
}

/// Whether one of these labels is seen to tell classes `x` and `y` apart.
fn do_contexts_tell<A: Allocator>(
    t: &LabelTables<A>,
    marks: &[bool],
    contexts: &[u32],
    x: usize,
    y: usize,
) -> bool
    ensures { IsTrue result → IsTold t.now marks.now x y }
{
    for w in contexts {
        let label = *w as usize;
        if label < t.labels && tells(t, marks, label, x, y) == Some(true) {
            return true;
        }
    }
    false
}

/// Sees that some label tells classes `x` and `y` apart, of which `y` is the smaller one.
fn tell_by_any<A: Allocator>(
    t: &LabelTables<A>,
    marks: &[bool],
    x: usize,
    y: usize,
) -> Result<(), NotTold>
    ensures { MatchResult result (λ _. IsTold t.now marks.now x y)
        (λ e. y < x → x < t.now.classes → IsTrueOf t.now marks.now e) }
{
    for w in 0..t.labels {
        match tells(t, marks, w, x, y) {
            Some(true) => return Ok(()),
            Some(false) => {}
            None => return Err(NotTold::Undecided),
        }
    }
    Err(NotTold::Alike(x, y))
}

/// The same, first by the contexts, which mostly do.
pub(crate) fn tell_pair<A: Allocator>(
    t: &LabelTables<A>,
    marks: &[bool],
    contexts: &[u32],
    x: usize,
    y: usize,
) -> Result<(), NotTold>
    ensures { MatchResult result (λ _. IsTold t.now marks.now x y)
        (λ e. y < x → x < t.now.classes → IsTrueOf t.now marks.now e) }
{
    if do_contexts_tell(t, marks, contexts, x, y) {
        return Ok(());
    }
    tell_by_any(t, marks, x, y)
}

/// Sees that class `x` is told apart from each smaller one.
fn tell_class<A: Allocator>(
    t: &LabelTables<A>,
    marks: &[bool],
    contexts: &[u32],
    x: usize,
) -> Result<(), NotTold>
    ensures { MatchResult result (λ _. (y : ℕ) → y < x → IsTold t.now marks.now x y)
        (λ e. x < t.now.classes → IsTrueOf t.now marks.now e) }
{
    for y in 0..x {
        tell_pair(t, marks, contexts, x, y)?;
    }
    Ok(())
}

/// Sees that each two classes are told apart by a label beside which the mark of just one of them is true.
///
/// # Errors
///
/// Two classes that no label tells apart; a table that is too short; want of memory.
pub fn told_apart<A: Allocator + Copy>(
    alloc: A,
    t: &LabelTables<A>,
    marks: &[bool],
) -> Result<(), NotTold>
    ensures { MatchResult result (λ _. AreTold t.now marks.now) (λ e. IsTrueOf t.now marks.now e) }
{
    let contexts = contexts_of(alloc, t, marks)?;
    for x in 0..t.classes {
        tell_class(t, marks, contexts.as_slice(), x)?;
    }
    Ok(())
}
