//! Finite monoids in which relations hold and another one doesn't, so that it doesn't follow from them.
ghost use Rattle.std.specs.Prelude.{◌≡◌, ◌<◌, ◌≤◌, ◌+◌, ◌++◌, IsTrue, IfOk, length, take, drop};
ghost use Rattle.presentations.specs.declared.TheConstants.{LETTERS};
ghost use Rattle.relations.specs.Bases.{IsIrredundant, FollowsNot};
ghost use Rattle.relations.specs.Presented.{AreRelatedWords};

use crate::checking::{hold, value};
use crate::dividing::{Quotient, quotient_of};
use crate::finding::{MOST, STEPS};
use crate::listing::are_below;
use crate::relating::related_words;
use crate::rewriting::{Rules, completed};
use allocation::Memory;
use presentations::{LETTERS, Relation, Word};
use std::alloc::Allocator;

/// Whether the relations hold in the monoid and the other one doesn't.
fn separates<A: Allocator>(
    letters: usize,
    quotient: &Quotient<A>,
    others: &[Relation],
    relation: &Relation,
) -> bool
    requires { letters ≤ LETTERS }
    ensures { IsTrue result
        → AreRelatedWords letters others.now relation.now.left relation.now.right → ⊥ }
{
    let (table, elements) = (&quotient.table, quotient.elements.as_slice());
    if elements.len() != letters || !are_below(table.order(), elements) {
        return false;
    }
    if !hold(table, elements, others) {
        return false;
    }
    let left = value(table, elements, &relation.left);
    let right = value(table, elements, &relation.right);
    if left == right {
        return false;
    }
    true
}

/// Whether the monoid of the divisors of this word separates both words of the relation.
fn is_separated<A: Allocator + Copy>(
    alloc: A,
    letters: usize,
    others: &[Relation],
    rules: &Rules<A>,
    relation: &Relation,
    word: &Word,
) -> Result<bool, Memory>
    requires { letters ≤ LETTERS }
    ensures { IfOk result (λ separated. IsTrue separated
        → AreRelatedWords letters others.now relation.now.left relation.now.right → ⊥) }
{
    let multiples = related_words(alloc, letters, others, word)?;
    match quotient_of(alloc, letters, rules, multiples.as_slice())? {
        Some(quotient) => Ok(separates(letters, &quotient, others, relation)),
        None => Ok(false),
    }
}

/// The relations but number `k`.
fn all_but<A: Allocator>(
    alloc: A,
    relations: &[Relation],
    k: usize,
) -> Result<Vec<Relation, A>, Memory>
    requires { k < length relations.now }
    ensures { IfOk result (λ others. others.items ≡ take k relations.now ++ drop (k + 1) relations.now) }
{
    let mut others: Vec<Relation, A> = Vec::new(alloc);
    others.extend_from_slice(&relations[..k])?;
    others.extend_from_slice(&relations[k + 1..])?;
    Ok(others)
}

/// The relations, and for each letter of another one that its next power is that which stands there.
fn with_cuts<A: Allocator + Copy>(
    alloc: A,
    letters: usize,
    relations: &[Relation],
    relation: &Relation,
) -> Result<Vec<Relation, A>, Memory>
    requires { letters ≤ LETTERS }
{
    let mut all = relations.to_vec(alloc)?;
    for i in 0..letters {
        let most = relation.left[i].max(relation.right[i]);
        if most > 0 && most < u8::MAX {
            let mut left = [0u8; LETTERS];
            let mut right = [0u8; LETTERS];
            left[i] = most + 1;
            right[i] = most;
            all.push(Relation { left, right })?;
        }
    }
    Ok(all)
}

/// Whether the monoid of the others separates both words of the relation, if the powers of its letters
/// are cut off.
fn is_separated_by_cuts<A: Allocator + Copy>(
    alloc: A,
    letters: usize,
    others: &[Relation],
    relation: &Relation,
) -> Result<bool, Memory>
    requires { letters ≤ LETTERS }
    ensures { IfOk result (λ separated. IsTrue separated
        → AreRelatedWords letters others.now relation.now.left relation.now.right → ⊥) }
{
    let all = with_cuts(alloc, letters, others, relation)?;
    let rules = completed(alloc, letters, all.as_slice(), MOST, STEPS)?;
    match quotient_of(alloc, letters, &rules, &[])? {
        Some(quotient) => Ok(separates(letters, &quotient, others, relation)),
        None => Ok(false),
    }
}

/// Whether it is shown that relation `k` doesn't follow from the others.
fn is_free<A: Allocator + Copy>(
    alloc: A,
    letters: usize,
    relations: &[Relation],
    k: usize,
) -> Result<bool, Memory>
    requires letters { letters ≤ LETTERS }
    requires k_in { k < length relations.now }
    ensures { IfOk result (λ free. IsTrue free → FollowsNot letters relations.now k) }
{
    let relation = &relations[k];
    let others = all_but(alloc, relations, k)?;
    let others = others.as_slice();
    let rules = completed(alloc, letters, others, MOST, STEPS)?;
    if is_separated(alloc, letters, others, &rules, relation, &relation.left)? {
        return Ok(true);
    }
    if is_separated(alloc, letters, others, &rules, relation, &relation.right)? {
        return Ok(true);
    }
    let separated = is_separated_by_cuts(alloc, letters, others, relation)?;
    Ok(separated)
}

/// Whether it is shown that no relation follows from the others.
pub fn are_irredundant<A: Allocator + Copy>(
    alloc: A,
    letters: usize,
    relations: &[Relation],
) -> Result<bool, Memory>
    requires { letters ≤ LETTERS }
    ensures { IfOk result (λ free. IsTrue free → IsIrredundant letters relations.now) }
{
    for k in 0..relations.len() {
        if !is_free(alloc, letters, relations, k)? {
            return Ok(false);
        }
    }
    Ok(true)
}
