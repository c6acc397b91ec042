//! Letters that occur, and their least powers that come back.
ghost use Rattle.std.specs.Prelude.{◌≡◌, ◌≢◌, ◌<◌, ◌≤◌, ◌↔◌, ℕ, IfOk, IfSome, IfNone, OnErr, Err, IsTrue, MatchBool, length};
ghost use Rattle.presentations.specs.declared.TheConstants.{LETTERS};
ghost use Rattle.presentations.specs.Words.{occurs, letters_of};
ghost use Rattle.presentations.specs.Powers.{IsPowerOf, IsPowerRelation, IsLeastPower, AreBounded, IsUnbounded, IsAboveLimit, lower_of};
ghost use Rattle.presentations.specs.Boxes.{size_of};
ghost use Rattle.presentations.specs.Merging.{letters_in, IsBox};

use crate::axes::Axis;
use crate::fault::PresFault;
use crate::read::Relation;
use crate::{LETTERS, Word};
use std::alloc::Allocator;

/// Whether the letter stands in some relation.
fn occurs(relations: &[Relation], letter: u8) -> bool
    requires { letter < LETTERS }
    ensures { result ≡ occurs relations.now letter }
{
    for relation in relations {
        if relation.left[letter as usize] > 0 || relation.right[letter as usize] > 0 {
            return true;
        }
    }
    false
}

/// Whether no other letter stands in the word.
fn is_power(word: &Word, letter: u8) -> bool
    requires { letter < LETTERS }
    ensures { IsTrue result ↔ IsPowerOf word.now letter }
{
    for i in 0..LETTERS {
        if i != letter as usize && word[i] > 0 {
            return false;
        }
    }
    true
}

/// The larger and the smaller exponent, where the relation is one between two different powers of
/// the letter.
fn power_of(relation: &Relation, letter: u8) -> Option<(usize, usize)>
    requires { letter < LETTERS }
    ensures some { IfSome result (λ p. IsPowerRelation relation.now letter p.0 p.1 × (p.0 < 256)) }
    ensures none { IfNone result ((most back : ℕ) → IsPowerRelation relation.now letter most back
        → ⊥) }
{
    if !is_power(&relation.left, letter) || !is_power(&relation.right, letter) {
        return None;
    }
    let left = relation.left[letter as usize] as usize;
    let right = relation.right[letter as usize] as usize;
    if left < right {
        return Some((right, left));
    }
    if right < left {
        return Some((left, right));
    }
    None
}

/// The pair with the smaller first number, where there are two.
fn lower(least: Option<(usize, usize)>, found: Option<(usize, usize)>) -> Option<(usize, usize)>
    ensures { result ≡ lower_of least found }
{
    match (least, found) {
        (Some(before), Some(after)) => {
            if before.0 <= after.0 {
                Some(before)
            } else {
                Some(after)
            }
        }
        (Some(before), None) => Some(before),
        (None, after) => after,
    }
}

/// The least larger exponent of a relation between two different powers of the letter, and the
/// smaller exponent.
fn least_power(relations: &[Relation], letter: u8) -> Option<(usize, usize)>
    requires { letter < LETTERS }
    ensures { IsLeastPower relations.now letter (length relations.now) result }
{
    let mut least: Option<(usize, usize)> = None;
    for relation in relations {
        least = lower(least, power_of(relation, letter));
    }
    least
}

/// Whether some letter that occurs has no relation between two different powers of it.
fn is_unbounded(relations: &[Relation]) -> bool
    ensures { MatchBool result (IsUnbounded relations.now) (AreBounded relations.now) }
{
    for letter in 0..LETTERS as u8 {
        if occurs(relations, letter) && least_power(relations, letter).is_none() {
            return true;
        }
    }
    false
}

/// The axes of all letters that occur, in the order of the alphabet, and how many vectors their box
/// has.
pub fn axes_of<A: Allocator>(
    alloc: A,
    relations: &[Relation],
    limit: u32,
) -> Result<(Vec<Axis, A>, usize), PresFault>
    ensures is_box { IfOk result (λ r. IsBox r.0.items relations.now) }
    ensures size { IfOk result (λ r. (r.1 ≡ size_of r.0.items) × (r.1 ≤ limit)) }
    ensures count { IfOk result (λ r. length r.0.items ≤ LETTERS) }
    ensures letters { IfOk result (λ r. letters_in r.0.items ≡ letters_of relations.now) }
    ensures within { IfOk result (λ r. IsAboveLimit relations.now limit → ⊥) }
    ensures unbounded { (result ≡ Err PresFault.Unbounded) ↔ IsUnbounded relations.now }
    ensures limit { (result ≡ Err PresFault.Limit) → IsAboveLimit relations.now limit }
    ensures not_text { OnErr result (result ≢ Err PresFault.Text) }
{
    if is_unbounded(relations) {
        return Err(PresFault::Unbounded);
    }
    if limit == 0 {
        return Err(PresFault::Limit);
    }
    let mut axes = Vec::new(alloc);
    let mut size = 1usize;
    for letter in 0..LETTERS as u8 {
        if occurs(relations, letter) {
            let Some((most, back)) = least_power(relations, letter) else {
                return Err(PresFault::Unbounded);
            };
            if size * most > limit as usize {
                return Err(PresFault::Limit);
            }
            axes.push(Axis {
                letter,
                most,
                back,
                stride: size,
            })?;
            size *= most;
        }
    }
    Ok((axes, size))
}
