//! To which classes heaps take the elements of a class: a list, and a test of it on classes of a finer fold.
ghost use Rattle.std.specs.Prelude.{◌≡◌, ◌<◌, ◌≤◌, ℕ, IfOk, IfErr, IfSome, IsTrue, length, slice_index};
ghost use Rattle.kept_positions.specs.Numbers.{DoesTurn};
ghost use Rattle.presented_tables.specs.Elements.{place};
ghost use Rattle.presented_tables.specs.Faults.{IsTrueOf};
ghost use Rattle.presented_claims.specs.Claims.{cycled};
ghost use Rattle.presented_claims.specs.Folds.{AreFiner};
ghost use Rattle.class_tables.specs.Classes.{AreFolds, word_at};
ghost use Rattle.class_tables.specs.Tables.{AreLists};
ghost use Rattle.class_tables.specs.Turns.{AreFine, AreFirsts, DoesTake, IsTurned, AreTurned};

use crate::beside::{heap_word, led_fold};
use crate::classes::ListedWords;
use crate::listing::classes_of;
use crate::lists::{ClassLists, MOST_CLASSES};
use crate::placing::{are_firsts, first_place};
use crate::rows::size_at;
use crate::thresholds::{are_finer, are_folds};
use allocation::Memory;
use kept_positions::{ClassTurns, LabelTables};
use presented_tables::{HeapNumbers, Presented, TablesFault, cycled_word};
use presented_text::LetterCycle;
use std::alloc::{Allocator, Global};
use std::marker::Model;

/// A finer fold, and its classes.
#[derive(Drop)]
pub(crate) struct FineClasses<A: Allocator = Global> {
    folds: Vec<LetterCycle, A>,
    classes: ListedWords<A>,
}

impl<A: Allocator> Model for FineClasses<A> {
    ghost use Rattle.class_tables.specs.Turns as turns;

    ghost Value = { turns.FineClasses };

    ghost view = { λ f. record { folds = f.folds.items; classes = f.classes } };
}

/// Whether these are seen to be thresholds and periods that are finer than those of the lists.
fn are_fine_folds<A: Allocator>(p: &Presented<A>, l: &ClassLists<A>, folds: &[LetterCycle]) -> bool
    ensures folds { IsTrue result → AreFolds p.now folds.now }
    ensures finer { IsTrue result → AreFiner folds.now l.now.folds }
{
    are_folds(p, folds) && are_finer(folds, l.folds.as_slice())
}

/// The classes of a fold that is finer than that of the lists.
fn fine_classes<A: Allocator + Copy>(
    alloc: A,
    p: &Presented<A>,
    l: &ClassLists<A>,
    folds: Vec<LetterCycle, A>,
) -> Result<FineClasses<A>, TablesFault>
    ensures fine { IfOk result (λ f. AreFine p.now l.now f) }
    ensures fault { IfErr result (λ f. IsTrueOf p.now f) }
{
    if !are_fine_folds(p, l, &folds) {
        return Err(TablesFault::Undecided);
    }
    let classes = classes_of(alloc, p, &folds, MOST_CLASSES)?;
    Ok(FineClasses { folds, classes })
}

/// The class to which the heap of number `g` takes the elements of fine class `k`.
fn taken<A: Allocator>(
    p: &Presented<A>,
    l: &ClassLists<A>,
    s: &HeapNumbers<A>,
    f: &FineClasses<A>,
    k: usize,
    g: usize,
) -> Option<usize>
    requires lists { AreLists p.now l.now }
    requires fine { AreFine p.now l.now f.now }
    requires firsts { AreFirsts l.now.classes }
    ensures { IfSome result (λ z. DoesTake p.now l.now s.now f.now k g z) }
{
    let class = f.classes.get(k)?;
    let n = size_at(s, g)?;
    let fold = led_fold(p, &l.folds, &f.folds, class, &heap_word(p, n))?;
    first_place(&l.classes, &fold)
}

/// The class of the elements of fine class `k`.
fn class_of<A: Allocator>(l: &ClassLists<A>, f: &FineClasses<A>, k: usize) -> Option<usize>
    requires { AreFirsts l.now.classes }
    ensures { IfSome result (λ x. place l.now.classes (cycled l.now.folds (word_at f.now.classes k)) ≡ x) }
{
    let class = f.classes.get(k)?;
    first_place(&l.classes, &cycled_word(&l.folds, class))
}

/// The number, or the largest there is.
fn small(x: usize) -> u32 {
    x.min(u32::MAX as usize) as u32
}

/// Where the heap of number `g` takes the classes: a class and one to which it is taken, in order. Nothing is promised of
/// it.
fn takes<A: Allocator + Copy>(
    alloc: A,
    p: &Presented<A>,
    l: &ClassLists<A>,
    s: &HeapNumbers<A>,
    f: &FineClasses<A>,
    g: usize,
) -> Result<Vec<(u32, u32), A>, TablesFault>
    requires lists { AreLists p.now l.now }
    requires fine { AreFine p.now l.now f.now }
    requires firsts { AreFirsts l.now.classes }
    ensures fault { IfErr result (λ f. IsTrueOf p.now f) }
{
    let mut pairs = Vec::new(alloc);
    for k in 0..f.classes.len() {
        let Some(x) = class_of(l, f, k) else {
            return Err(TablesFault::Undecided);
        };
        let Some(z) = taken(p, l, s, f, k, g) else {
            return Err(TablesFault::Undecided);
        };
        pairs.push((small(x), small(z)))?;
    }
    pairs.sort_unstable();
    Ok(pairs)
}

/// Adds the classes to which class `x` is taken, by the pairs from number `from` on, and says where those of the next class
/// begin.
fn add_class<A: Allocator>(
    turns: &mut ClassTurns<A>,
    pairs: &[(u32, u32)],
    from: usize,
    x: usize,
) -> Result<usize, Memory> {
    let first = small(turns.onto.len());
    turns.first.push(first)?;
    let mut last = None;
    for k in from..pairs.len() {
        let (class, onto) = pairs[k];
        if class as usize != x {
            return Ok(k);
        }
        if last != Some(onto) {
            turns.onto.push(onto)?;
        }
        last = Some(onto);
    }
    Ok(pairs.len())
}

/// Adds a row to the list: where the pairs say that a heap takes the classes.
fn add_row<A: Allocator>(
    turns: &mut ClassTurns<A>,
    count: usize,
    pairs: &[(u32, u32)],
) -> Result<(), Memory> {
    let mut from = 0;
    for x in 0..count {
        from = add_class(turns, pairs, from, x)?;
    }
    Ok(())
}

/// A list of where heaps take the classes. Nothing is promised of it.
fn made<A: Allocator + Copy>(
    alloc: A,
    p: &Presented<A>,
    l: &ClassLists<A>,
    s: &HeapNumbers<A>,
    f: &FineClasses<A>,
) -> Result<ClassTurns<A>, TablesFault>
    requires lists { AreLists p.now l.now }
    requires fine { AreFine p.now l.now f.now }
    requires firsts { AreFirsts l.now.classes }
    ensures fault { IfErr result (λ f. IsTrueOf p.now f) }
{
    let mut turns = ClassTurns {
        first: Vec::new(alloc),
        onto: Vec::new(alloc),
    };
    for g in 0..s.sizes.len() {
        let pairs = takes(alloc, p, l, s, f, g)?;
        add_row(&mut turns, l.classes.len(), &pairs)?;
    }
    let end = small(turns.onto.len());
    turns.first.push(end)?;
    Ok(turns)
}

/// Whether class `z` is seen to be in the list of the classes to which heap `g` takes class `x`.
fn does_turn<A: Allocator>(
    t: &LabelTables<A>,
    u: &ClassTurns<A>,
    x: usize,
    g: usize,
    z: usize,
) -> Option<bool>
    ensures { IfSome result (λ b. IsTrue b → DoesTurn t.now u.now x g z) }
{
    let cell = g.checked_mul(t.classes)?.checked_add(x)?;
    let from = *u.first.get(cell)? as usize;
    let to = *u.first.get(cell.checked_add(1)?)? as usize;
    for o in from..to {
        if *u.onto.get(o)? as usize == z {
            return Some(true);
        }
    }
    Some(false)
}

/// Whether the class to which heap `g` takes fine class `k` is in the list, if that is seen.
fn turned<A: Allocator>(
    p: &Presented<A>,
    l: &ClassLists<A>,
    s: &HeapNumbers<A>,
    f: &FineClasses<A>,
    t: &LabelTables<A>,
    u: &ClassTurns<A>,
    k: usize,
    g: usize,
) -> Option<bool>
    requires lists { AreLists p.now l.now }
    requires fine { AreFine p.now l.now f.now }
    requires firsts { AreFirsts l.now.classes }
    ensures { IfSome result (λ b. IsTrue b → IsTurned p.now l.now s.now f.now t.now u.now k g) }
{
    let z = taken(p, l, s, f, k, g)?;
    let x = class_of(l, f, k)?;
    does_turn(t, u, x, g, z)
}

/// Whether it is seen to be in the list.
fn is_turned<A: Allocator>(
    p: &Presented<A>,
    l: &ClassLists<A>,
    s: &HeapNumbers<A>,
    f: &FineClasses<A>,
    t: &LabelTables<A>,
    u: &ClassTurns<A>,
    k: usize,
    g: usize,
) -> bool
    requires lists { AreLists p.now l.now }
    requires fine { AreFine p.now l.now f.now }
    requires firsts { AreFirsts l.now.classes }
    ensures { IsTrue result → IsTurned p.now l.now s.now f.now t.now u.now k g }
{
    match turned(p, l, s, f, t, u, k, g) {
        Some(b) => b,
        None => false,
    }
}

/// The same of each heap.
fn are_heaps_turned<A: Allocator>(
    p: &Presented<A>,
    l: &ClassLists<A>,
    s: &HeapNumbers<A>,
    f: &FineClasses<A>,
    t: &LabelTables<A>,
    u: &ClassTurns<A>,
    k: usize,
) -> bool
    requires lists { AreLists p.now l.now }
    requires fine { AreFine p.now l.now f.now }
    requires firsts { AreFirsts l.now.classes }
    ensures { IsTrue result → (g : ℕ) → g < t.now.heaps → IsTurned p.now l.now s.now f.now t.now u.now k g }
{
    for g in 0..t.heaps {
        if !is_turned(p, l, s, f, t, u, k, g) {
            return false;
        }
    }
    true
}

/// The same of each fine class.
fn are_turned<A: Allocator>(
    p: &Presented<A>,
    l: &ClassLists<A>,
    s: &HeapNumbers<A>,
    f: &FineClasses<A>,
    t: &LabelTables<A>,
    u: &ClassTurns<A>,
) -> bool
    requires lists { AreLists p.now l.now }
    requires fine { AreFine p.now l.now f.now }
    requires firsts { AreFirsts l.now.classes }
    ensures { IsTrue result → (k g : ℕ) → k < length f.now.classes → g < t.now.heaps
        → IsTurned p.now l.now s.now f.now t.now u.now k g }
{
    for k in 0..f.classes.len() {
        if !are_heaps_turned(p, l, s, f, t, u, k) {
            return false;
        }
    }
    true
}

/// The classes to which heaps take others, seen on classes of a finer fold.
pub(crate) fn turns_of<A: Allocator + Copy>(
    alloc: A,
    p: &Presented<A>,
    l: &ClassLists<A>,
    s: &HeapNumbers<A>,
    t: &LabelTables<A>,
    fine: Vec<LetterCycle, A>,
) -> Result<ClassTurns<A>, TablesFault>
    requires lists { AreLists p.now l.now }
    ensures turned { IfOk result (λ u. AreTurned p.now l.now s.now t.now u) }
    ensures fault { IfErr result (λ f. IsTrueOf p.now f) }
{
    if !are_firsts(&l.classes) {
        return Err(TablesFault::Undecided);
    }
    let fine = fine_classes(alloc, p, l, fine)?;
    let turns = made(alloc, p, l, s, &fine)?;
    if are_turned(p, l, s, &fine, t, &turns) {
        Ok(turns)
    } else {
        Err(TablesFault::Undecided)
    }
}
