//! Relations of which none follows from the others.
ghost use Rattle.std.specs.Prelude.{◌≤◌};
ghost use Rattle.presentations.specs.declared.TheConstants.{LETTERS};

use crate::finding::{FEW, MOST, STEPS};
use crate::least::last_letter;
use crate::rewriting::{Rules, completed, is_same, learn, oriented, reduced};
use allocation::Memory;
use presentations::{LETTERS, Relation};
use std::alloc::Allocator;
use std::cmp::Reverse;

/// Whether the rules lead both words of the relation to one.
fn is_given<A: Allocator>(letters: usize, rules: &Rules<A>, relation: &Relation) -> bool
    requires { letters ≤ LETTERS }
{
    let left = reduced(letters, rules, &relation.left, STEPS);
    let right = reduced(letters, rules, &relation.right, STEPS);
    is_same(letters, &left, &right)
}

/// Looks at the rules from number `from` on for more, and answers how many were looked at.
fn close<A: Allocator>(letters: usize, rules: &mut Rules<A>, from: usize) -> Result<usize, Memory>
    requires { letters ≤ LETTERS }
{
    for j in from..MOST {
        if j >= rules.relations.len() {
            return Ok(j);
        }
        learn(letters, rules, j, STEPS)?;
    }
    Ok(MOST)
}

/// The relations that those before them don't give.
pub fn independent<A: Allocator + Copy>(
    alloc: A,
    letters: usize,
    relations: &[Relation],
) -> Result<Vec<Relation, A>, Memory>
    requires { letters ≤ LETTERS }
{
    let mut kept: Vec<Relation, A> = Vec::new(alloc);
    let mut rules = Rules::new(alloc);
    let mut looked = 0;
    for relation in relations {
        if !is_given(letters, &rules, relation) {
            kept.push(*relation)?;
            rules.push(oriented(letters, &relation.left, &relation.right))?;
            looked = close(letters, &mut rules, looked)?;
        }
    }
    Ok(kept)
}

/// The relations but number `skip`.
fn relations_but<A: Allocator>(
    alloc: A,
    relations: &[Relation],
    skip: usize,
) -> Result<Vec<Relation, A>, Memory> {
    let mut others: Vec<Relation, A> = Vec::new(alloc);
    for i in 0..relations.len() {
        if i != skip {
            others.push(relations[i])?;
        }
    }
    Ok(others)
}

/// The relations without those that the others give, the last ones first.
pub fn short<A: Allocator + Copy>(
    alloc: A,
    letters: usize,
    relations: Vec<Relation, A>,
) -> Result<Vec<Relation, A>, Memory>
    requires { letters ≤ LETTERS }
{
    let count = relations.len();
    let mut kept = relations;
    for k in 0..count {
        let i = count - 1 - k;
        if i < kept.len() {
            let relation = kept[i];
            let others = relations_but(alloc, kept.as_slice(), i)?;
            let rules = completed(alloc, letters, others.as_slice(), FEW, STEPS)?;
            if is_given(letters, &rules, &relation) {
                kept = others;
            }
        }
    }
    Ok(kept)
}

/// Puts relations in the order of the last letters of their left words, and those of one letter in the
/// order of the alphabet.
pub fn sort<A: Allocator>(relations: &mut Vec<Relation, A>) {
    relations.sort_unstable_by_key(|relation| {
        (last_letter(LETTERS, &relation.left), Reverse(relation.left))
    });
}
