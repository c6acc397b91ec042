//! A search for weights of letters by which classes are settled. Nothing is promised of what it finds.
ghost use Rattle.std.specs.Prelude.{IfErr};
ghost use Rattle.presented_tables.specs.Faults.{IsTrueOf};

use allocation::Memory;
use class_tables::{ClassTables, UntoldPairs, is_unbounded};
use normal_forms::Exponents;
use presentations::LETTERS;
use presented_tables::{Presented, TablesFault, product};
use std::alloc::{Allocator, Global};

/// The weight of the first letter that runs on, if weights are guessed by what letters do far out.
const UNIT: u32 = 12;

/// How large exponents are that are taken for far ones.
const FAR: u16 = 60;

/// How many periods of a letter are taken at most.
const MOST_TIMES: u16 = 12;

/// So many weights of 1, but `more` for letters `i` and `j`.
fn single_weights<A: Allocator + Copy>(
    alloc: A,
    count: usize,
    i: usize,
    j: usize,
    more: u32,
) -> Result<Vec<u32, A>, Memory> {
    let mut weights = Vec::new(alloc);
    for k in 0..count {
        weights.push(if k == i || k == j { more } else { 1 })?;
    }
    Ok(weights)
}

/// The period of letter `y`, 1 if it has none.
fn period_of<A: Allocator>(p: &Presented<A>, y: usize) -> u16 {
    p.cycles.get(y).map_or(1, |cycle| cycle.period)
}

/// Words far along letter `x`: one, and what becomes of it with so many periods of letter `y` more.
fn far_words<A: Allocator>(
    p: &Presented<A>,
    x: usize,
    y: usize,
    times: u16,
) -> Option<(Exponents, Exponents)> {
    let mut far = [0; LETTERS];
    *far.get_mut(x)? = FAR;
    *far.get_mut(y)? = MOST_TIMES;
    let before = p.basis.normal_form(&far)?;
    let mut more = [0; LETTERS];
    *more.get_mut(y)? = period_of(p, y).checked_mul(times)?;
    let after = p.basis.normal_form(&product(&before, &more)?)?;
    Some((before, after))
}

/// The weight of letter `y` if so many periods of it, far along letter `x`, become some of letter `x`, or take some away:
/// twice as much then.
fn weight_beside<A: Allocator>(p: &Presented<A>, x: usize, y: usize, times: u16) -> Option<u32> {
    if x >= LETTERS {
        return None;
    }
    let (before, after) = far_words(p, x, y, times)?;
    if (0..LETTERS).any(|i| i != x && before[i] != after[i]) || before[x] == after[x] {
        return None;
    }
    let steps = (before[x].abs_diff(after[x]) as u32).checked_mul(UNIT)?;
    let letters = (period_of(p, y) as u32).checked_mul(times as u32)?;
    let weight = steps.checked_div(letters)?.max(1);
    Some(if after[x] < before[x] {
        weight * 2
    } else {
        weight
    })
}

/// The same for the least number of periods of which it is so.
fn first_weight<A: Allocator>(p: &Presented<A>, x: usize, y: usize) -> Option<u32> {
    (1..MOST_TIMES + 1).find_map(|times| weight_beside(p, x, y, times))
}

/// Weighs the letters that run on and have no weight yet by what they do beside letter `x`.
fn weigh_beside<A: Allocator>(p: &Presented<A>, x: usize, weights: &mut [u32]) {
    for y in 0..weights.len() {
        if weights[y] == 0 && is_unbounded(p.basis.rules(), y) {
            weights[y] = first_weight(p, x, y).unwrap_or(0);
        }
    }
}

/// Weights by what letters that run on do beside each other, far out; 1 for all others.
fn far_weights<A: Allocator + Copy>(alloc: A, p: &Presented<A>) -> Result<Vec<u32, A>, Memory> {
    let mut weights = Vec::new(alloc);
    for _ in 0..p.letters.len() {
        weights.push(0)?;
    }
    for x in 0..weights.len() {
        if weights[x] == 0 && is_unbounded(p.basis.rules(), x) {
            weights[x] = UNIT;
            weigh_beside(p, x, &mut weights);
        }
    }
    for weight in weights.iter_mut() {
        *weight = (*weight).max(1);
    }
    Ok(weights)
}

/// What may settle all classes: those that are told apart, and weights of letters with labels for the others.
#[derive(Drop)]
pub(crate) struct Settling<A: Allocator = Global> {
    pub(crate) untold: UntoldPairs<A>,
    pub(crate) weights: Vec<u32, A>,
    pub(crate) labels: Vec<u32, A>,
}

/// Weights of letters, and labels by which all classes are seen to be lowered.
#[derive(Drop)]
struct Lowering<A: Allocator = Global> {
    weights: Vec<u32, A>,
    labels: Vec<u32, A>,
}

/// The weights with such labels, if there are any.
fn lowering_by<A: Allocator + Copy>(
    alloc: A,
    p: &Presented<A>,
    v: &ClassTables<A>,
    untold: &UntoldPairs<A>,
    weights: Vec<u32, A>,
) -> Result<Option<Lowering<A>>, Memory> {
    match untold.lowered_by(alloc, p, v, &weights)? {
        Some(labels) => Ok(Some(Lowering { weights, labels })),
        None => Ok(None),
    }
}

/// Weights of 1 but 2 for one letter or two with such labels, if there are any.
fn doubled_weights<A: Allocator + Copy>(
    alloc: A,
    p: &Presented<A>,
    v: &ClassTables<A>,
    untold: &UntoldPairs<A>,
) -> Result<Option<Lowering<A>>, Memory> {
    for i in 0..p.letters.len() {
        for j in 0..i + 1 {
            let weights = single_weights(alloc, p.letters.len(), i, j, 2)?;
            let found = lowering_by(alloc, p, v, untold, weights)?;
            if found.is_some() {
                return Ok(found);
            }
        }
    }
    Ok(None)
}

/// Weights with such labels, if some are found.
fn lowering_for<A: Allocator + Copy>(
    alloc: A,
    p: &Presented<A>,
    v: &ClassTables<A>,
    untold: &UntoldPairs<A>,
) -> Result<Option<Lowering<A>>, Memory> {
    let single = single_weights(alloc, p.letters.len(), 0, 0, 1)?;
    let found = lowering_by(alloc, p, v, untold, single)?;
    if found.is_some() {
        return Ok(found);
    }
    let far = far_weights(alloc, p)?;
    let found = lowering_by(alloc, p, v, untold, far)?;
    if found.is_some() {
        return Ok(found);
    }
    doubled_weights(alloc, p, v, untold)
}

/// What may settle the classes, if it is found.
///
/// # Errors
///
/// `Limit`, if very many pairs of classes aren't told apart, and want of memory.
pub(crate) fn settling_for<A: Allocator + Copy>(
    alloc: A,
    p: &Presented<A>,
    v: &ClassTables<A>,
) -> Result<Option<Settling<A>>, TablesFault>
    ensures { IfErr result (λ f. IsTrueOf p.now f) }
{
    let untold = UntoldPairs::of(alloc, p, v)?;
    match lowering_for(alloc, p, v, &untold)? {
        Some(Lowering { weights, labels }) => Ok(Some(Settling {
            untold,
            weights,
            labels,
        })),
        None => Ok(None),
    }
}
