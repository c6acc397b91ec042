//! Reading presentations: relations between words in the letters a to z.
ghost use Rattle.std.specs.Prelude.{◌≡◌, ◌+◌, ◌≤◌, ◌<◌, ◌⊎◌, ◌↔◌, ◌∷◌, ℕ, List, IfOk, IfSome, IfNone, IsTrue, OnErr, Err, length, drop};
ghost use Rattle.presentations.specs.declared.TheConstants.{LETTERS, LARGEST_EXPONENT};
ghost use Rattle.presentations.specs.Text.{IsPower, IsFactor, AreFewFactors, IsWord, IsRelation, SpellsPresentation};
ghost use Rattle.presentations.specs.Fronts.{IsFront, IsNoFront, EndsFactor, EndsWord, EndsRelation, EndsDigits, StartsWith};

use crate::fault::PresFault;
use crate::{LARGEST_EXPONENT, LETTERS, MOST_RELATIONS, Word};
use std::alloc::{Allocator, Global};
use std::marker::Model;

/// Two words with the same product, each as the exponents of a to z.
#[derive(Clone, Copy)]
pub struct Relation {
    pub left: Word,
    pub right: Word,
}

/// Relations between words.
#[derive(Drop)]
pub struct Presentation<A: Allocator = Global> {
    relations: Vec<Relation, A>,
}

impl<A: Allocator> Model for Presentation<A> {
    ghost use Rattle.std.specs.Prelude.{List};
    ghost use Rattle.presentations.specs.declared.read.Relation.{Relation};

    ghost Value = { List Relation };

    ghost view = { λ p. p.relations.items };
}

impl<A: Allocator> Presentation<A> {
    /// The presentation of these relations.
    pub fn new(relations: Vec<Relation, A>) -> Presentation<A>
        ensures { result ≡ relations.items }
    {
        Presentation { relations }
    }

    /// Reads 1 to `MOST_RELATIONS` relations `word=word` joined by one space. A word is `1` or
    /// letters, each alone or with `^n`, n from 2 to `LARGEST_EXPONENT`; no letter's exponents come
    /// to more than that in a word.
    pub fn read(alloc: A, text: &[u8]) -> Result<Presentation<A>, PresFault>
        ensures spelled { IfOk result (λ p. (q : List Relation) → SpellsPresentation text.now q
            ↔ (p ≡ q)) }
        ensures text { (result ≡ Err PresFault.Text) → (q : List Relation)
            → SpellsPresentation text.now q → ⊥ }
        ensures only { OnErr result ((result ≡ Err PresFault.Text)
            ⊎ (result ≡ Err PresFault.Memory)) }
    {
        let mut relations = Vec::new(alloc);
        let mut at = 0;
        for _turn in 0..MOST_RELATIONS {
            let Some((relation, end)) = relation_at(text, at) else {
                return Err(PresFault::Text);
            };
            relations.push(relation)?;
            if end == text.len() {
                return Ok(Presentation { relations });
            }
            if !is_byte(text, end, b' ') {
                return Err(PresFault::Text);
            }
            at = end + 1;
        }
        Err(PresFault::Text)
    }

    /// The relations, in their order.
    pub fn relations(&self) -> &[Relation]
        ensures { result.now ≡ self.now }
    {
        &self.relations
    }
}

/// A relation that begins at `at`, and where it ends.
fn relation_at(text: &[u8], at: usize) -> Option<(Relation, usize)>
    requires { at ≤ length text.now }
    ensures some { IfSome result
        (λ r. IsFront IsRelation EndsRelation (drop at text.now) r.0 (drop r.1 text.now)) }
    ensures none { IfNone result (IsNoFront IsRelation EndsRelation (drop at text.now)) }
    ensures within { IfSome result (λ r. r.1 ≤ length text.now) }
{
    let (left, middle) = word_at(text, at)?;
    if !is_byte(text, middle, b'=') {
        return None;
    }
    let (right, end) = word_at(text, middle + 1)?;
    Some((Relation { left, right }, end))
}

/// A word that begins at `at`, as exponents, and where it ends.
fn word_at(text: &[u8], at: usize) -> Option<(Word, usize)>
    requires { at ≤ length text.now }
    ensures some { IfSome result
        (λ r. IsFront IsWord EndsWord (drop at text.now) r.0 (drop r.1 text.now)) }
    ensures none { IfNone result (IsNoFront IsWord EndsWord (drop at text.now)) }
    ensures within { IfSome result (λ r. r.1 ≤ length text.now) }
{
    if is_byte(text, at, b'1') {
        return Some(([0; LETTERS], at + 1));
    }
    let (exponents, end) = factors_at(text, at)?;
    if end == at {
        None
    } else {
        Some((exponents, end))
    }
}

/// All factors from `at` on, as exponents, and where they end.
fn factors_at(text: &[u8], at: usize) -> Option<(Word, usize)>
    requires { at ≤ length text.now }
    ensures some { IfSome result
        (λ r. IsFront AreFewFactors EndsWord (drop at text.now) r.0 (drop r.1 text.now)) }
    ensures none { IfNone result (IsNoFront AreFewFactors EndsWord (drop at text.now)) }
    ensures within { IfSome result (λ r. (at ≤ r.1) × (r.1 ≤ length text.now)) }
{
    let mut exponents = [0u8; LETTERS];
    let mut end = at;
    while let Some((letter, power, next)) = factor_at(text, end) {
        let whole = exponents[letter as usize] as u16 + power as u16;
        if whole > LARGEST_EXPONENT as u16 {
            return None;
        }
        exponents[letter as usize] = whole as u8;
        end = next;
    }
    Some((exponents, end))
}

/// A factor that begins at `at`: its letter, its exponent, and where it ends.
fn factor_at(text: &[u8], at: usize) -> Option<(u8, u8, usize)>
    requires { at ≤ length text.now }
    ensures some { IfSome result
        (λ f. IsFront IsFactor EndsFactor (drop at text.now) (f.0, f.1) (drop f.2 text.now)) }
    ensures none { IfNone result (IsNoFront IsFactor EndsFactor (drop at text.now)) }
    ensures within { IfSome result (λ f. (f.0 < LETTERS) × (f.1 ≤ LARGEST_EXPONENT) × (at < f.2)
        × (f.2 ≤ length text.now)) }
{
    let letter = letter_at(text, at)?;
    if !is_byte(text, at + 1, b'^') {
        return Some((letter, 1, at + 1));
    }
    let (power, end) = power_at(text, at + 2)?;
    Some((letter, power, end))
}

/// A number from 2 to `LARGEST_EXPONENT` without leading zeros that begins at `at`, and where it ends.
fn power_at(text: &[u8], at: usize) -> Option<(u8, usize)>
    requires { at ≤ length text.now }
    ensures some { IfSome result
        (λ p. IsFront IsPower EndsFactor (drop at text.now) p.0 (drop p.1 text.now)) }
    ensures none { IfNone result (IsNoFront IsPower EndsFactor (drop at text.now)) }
    ensures within { IfSome result (λ p. (p.0 ≤ LARGEST_EXPONENT) × (at < p.1) × (p.1 ≤ length text.now)) }
{
    let first = digit_at(text, at)?;
    if first == 0 {
        return None;
    }
    let Some(second) = digit_at(text, at + 1) else {
        return if first < 2 {
            None
        } else {
            Some((first, at + 1))
        };
    };
    let power = 10 * first + second;
    if power > LARGEST_EXPONENT || digit_at(text, at + 2).is_some() {
        return None;
    }
    Some((power, at + 2))
}

/// The digit at `at`.
fn digit_at(text: &[u8], at: usize) -> Option<u8>
    ensures some { IfSome result (λ d. (d < 10) × (at < length text.now)
        × (drop at text.now ≡ (48 + d) ∷ drop (at + 1) text.now)) }
    ensures none { IfNone result (EndsDigits (drop at text.now)) }
{
    if at < text.len() && text[at].is_ascii_digit() {
        Some(text[at] - b'0')
    } else {
        None
    }
}

/// The letter at `at`: 0 for a to 25 for z.
fn letter_at(text: &[u8], at: usize) -> Option<u8>
    ensures some { IfSome result (λ l. (l < LETTERS) × (at < length text.now)
        × (drop at text.now ≡ (97 + l) ∷ drop (at + 1) text.now)) }
    ensures none { IfNone result ((l : ℕ) (tail : List ℕ) → l < LETTERS
        → drop at text.now ≡ (97 + l) ∷ tail → ⊥) }
{
    if at < text.len() && text[at].is_ascii_lowercase() {
        Some(text[at] - b'a')
    } else {
        None
    }
}

/// Whether this byte stands at `at`.
fn is_byte(text: &[u8], at: usize, byte: u8) -> bool
    ensures value { IsTrue result ↔ StartsWith byte (drop at text.now) }
    ensures within { IsTrue result → at < length text.now }
    ensures behind { IsTrue result → drop at text.now ≡ byte ∷ drop (at + 1) text.now }
{
    at < text.len() && text[at] == byte
}
