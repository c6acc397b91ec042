//! Words rewritten by rules: relations used from their left word to their right one.
ghost use Rattle.std.specs.Prelude.{◌≡◌, ◌<◌, ◌≤◌, ◌↔◌, ◌⊎◌, ◌++◌, ◌∷◌, [], ℕ, IsTrue, IfSome, IfOk, All, length, slice_index, vec_len};
ghost use Rattle.presentations.specs.declared.TheConstants.{LETTERS};
ghost use Rattle.relations.specs.Bases.{Precedes};
ghost use Rattle.relations.specs.Presented.{AreRelatedWords, IsRewritten};

use allocation::Memory;
use presentations::{LETTERS, Relation, Word};
use std::alloc::{Allocator, Global};

/// The letters that stand in the word, a bit for each.
fn letters_in(word: &Word) -> u32 {
    let mut letters = 0u32;
    for i in 0..LETTERS {
        if word[i] > 0 {
            letters |= 1 << i;
        }
    }
    letters
}

/// Rules, and which letters stand in the left word of each: by these most rules are passed over.
#[derive(Drop)]
pub struct Rules<A: Allocator = Global> {
    pub relations: Vec<Relation, A>,
    letters: Vec<u32, A>,
}

impl<A: Allocator> Rules<A> {
    /// Adds a rule.
    pub(crate) fn push(&mut self, rule: Relation) -> Result<(), Memory>
        ensures { IfOk result
            (λ _. self.new.relations.items ≡ self.old.relations.items ++ rule ∷ []) }
    {
        self.relations.push(rule)?;
        self.letters.push(letters_in(&rule.left))?;
        Ok(())
    }

    /// Whether the left word of rule `k` is in the word, in which these letters don't stand.
    fn fits(&self, letters: usize, k: usize, lacking: u32, word: &Word) -> bool
        requires letters { letters ≤ LETTERS }
        requires k_in { k < vec_len self.now.relations }
    {
        if k < self.letters.len() && self.letters[k] & lacking != 0 {
            return false;
        }
        fits(letters, &self.relations[k].left, word)
    }
}

impl<A: Allocator + Copy> Rules<A> {
    /// No rules.
    pub(crate) fn new(alloc: A) -> Rules<A>
        ensures { result.relations.items ≡ [] }
    {
        Rules {
            relations: Vec::new(alloc),
            letters: Vec::new(alloc),
        }
    }
}

/// The word with the rule's right word in place of its left one, where the left one is in it and no
/// exponent gets above `u8::MAX`.
pub fn rewritten(letters: usize, rule: &Relation, word: &Word) -> Option<Word>
    requires { letters ≤ LETTERS }
    ensures { IfSome result (IsRewritten letters rule.now word.now) }
{
    let mut changed = *word;
    for i in 0..letters {
        let (have, left, right) = (word[i], rule.left[i], rule.right[i]);
        if have < left || have - left > u8::MAX - right {
            return None;
        }
        changed[i] = have - left + right;
    }
    Some(changed)
}

/// Whether the left word is in the word. The last letters, which are the rarest, are looked at first.
pub fn fits(letters: usize, left: &Word, word: &Word) -> bool
    requires { letters ≤ LETTERS }
{
    for k in 0..letters {
        let i = letters - 1 - k;
        if left[i] > word[i] {
            return false;
        }
    }
    true
}

/// The word rewritten once, by the first rule that can.
fn step<A: Allocator>(letters: usize, rules: &Rules<A>, word: &Word) -> Option<Word>
    requires { letters ≤ LETTERS }
    ensures { IfSome result (AreRelatedWords letters rules.now.relations.items word.now) }
{
    let lacking = !letters_in(word);
    for k in 0..rules.relations.len() {
        if !rules.fits(letters, k, lacking, word) {
            continue;
        }
        if let Some(changed) = rewritten(letters, &rules.relations[k], word) {
            return Some(changed);
        }
    }
    None
}

/// The word rewritten until no rule can, or `steps` times.
pub fn reduced<A: Allocator>(letters: usize, rules: &Rules<A>, word: &Word, steps: u32) -> Word
    requires { letters ≤ LETTERS }
    ensures { AreRelatedWords letters rules.now.relations.items word.now result }
{
    let mut reduced = *word;
    for _step in 0..steps {
        let Some(changed) = step(letters, rules, &reduced) else {
            return reduced;
        };
        reduced = changed;
    }
    reduced
}

/// Whether the first letters have the same exponents.
pub fn is_same(letters: usize, v: &Word, w: &Word) -> bool
    requires { letters ≤ LETTERS }
    ensures { IsTrue result
        ↔ ((i : ℕ) → i < letters → slice_index v.now i ≡ slice_index w.now i) }
{
    for i in 0..letters {
        if v[i] != w[i] {
            return false;
        }
    }
    true
}

/// Whether the first word comes before the second one: by fewer letters in all, and of as many, by
/// more of the first letter of which one has more.
pub fn comes_before(letters: usize, v: &Word, w: &Word) -> bool
    requires { letters ≤ LETTERS }
    ensures { IsTrue result → Precedes letters v.now w.now }
{
    let mut less = 0u32;
    let mut more = 0u32;
    for i in 0..letters {
        less += v[i] as u32;
        more += w[i] as u32;
    }
    if less != more {
        return less < more;
    }
    for i in 0..letters {
        if v[i] != w[i] {
            return v[i] > w[i];
        }
    }
    false
}

/// The rule between two words, to the one that comes first.
pub fn oriented(letters: usize, v: &Word, w: &Word) -> Relation
    requires { letters ≤ LETTERS }
    ensures { ((result.left ≡ v.now) × (result.right ≡ w.now))
        ⊎ ((result.left ≡ w.now) × (result.right ≡ v.now)) }
{
    if comes_before(letters, v, w) {
        Relation {
            left: *w,
            right: *v,
        }
    } else {
        Relation {
            left: *v,
            right: *w,
        }
    }
}

/// The least word that both words are in.
fn join(letters: usize, v: &Word, w: &Word) -> Word
    requires { letters ≤ LETTERS }
{
    let mut join = *v;
    for i in 0..letters {
        if v[i] < w[i] {
            join[i] = w[i];
        }
    }
    join
}

/// Whether no letter stands in both words.
fn is_apart(letters: usize, v: &Word, w: &Word) -> bool
    requires { letters ≤ LETTERS }
{
    for i in 0..letters {
        if v[i] > 0 && w[i] > 0 {
            return false;
        }
    }
    true
}

/// The rule that two rules give where both can rewrite one word: between what they make of the least
/// such word, each rewritten as far as it goes.
fn overlap<A: Allocator>(
    letters: usize,
    rules: &Rules<A>,
    i: usize,
    j: usize,
    steps: u32,
) -> Option<Relation>
    requires letters { letters ≤ LETTERS }
    requires i_in { i < vec_len rules.now.relations }
    requires j_in { j < vec_len rules.now.relations }
    ensures { IfSome result
        (λ r. AreRelatedWords letters rules.now.relations.items r.left r.right) }
{
    let (one, other) = (&rules.relations[i], &rules.relations[j]);
    if is_apart(letters, &one.left, &other.left) || is_needless(letters, rules, i, j) {
        return None;
    }
    let both = join(letters, &one.left, &other.left);
    let left = rewritten(letters, one, &both)?;
    let right = rewritten(letters, other, &both)?;
    let left = reduced(letters, rules, &left, steps);
    let right = reduced(letters, rules, &right, steps);
    if is_same(letters, &left, &right) {
        return None;
    }
    Some(oriented(letters, &left, &right))
}

/// Whether the least word that rules `i` and `j` rewrite is also rewritten by a rule before `j` that
/// has a smaller such word with `j`, or the same one and a smaller number: then what `i` and `j` give
/// follows from what the two give with that rule. Gebauer and Möller, On an installation of
/// Buchberger's algorithm.
fn is_needless<A: Allocator>(letters: usize, rules: &Rules<A>, i: usize, j: usize) -> bool
    requires letters { letters ≤ LETTERS }
    requires i_in { i < vec_len rules.now.relations }
    requires j_in { j < vec_len rules.now.relations }
{
    let last = &rules.relations[j].left;
    let both = join(letters, &rules.relations[i].left, last);
    let lacking = !letters_in(&both);
    for k in 0..j {
        if k == i || !rules.fits(letters, k, lacking, &both) {
            continue;
        }
        let left = &rules.relations[k].left;
        if k < i || !is_same(letters, &join(letters, left, last), &both) {
            return true;
        }
    }
    false
}

/// Adds the rules that rule `j` gives with those before it.
pub fn learn<A: Allocator>(
    letters: usize,
    rules: &mut Rules<A>,
    j: usize,
    steps: u32,
) -> Result<(), Memory>
    requires letters { letters ≤ LETTERS }
    requires j_in { j < vec_len rules.old.relations }
    ensures { IfOk result
        (λ _. All (λ r. AreRelatedWords letters rules.old.relations.items r.left r.right)
        rules.new.relations.items) }
{
    for i in 0..j {
        if let Some(rule) = overlap(letters, rules, i, j, steps) {
            rules.push(rule)?;
        }
    }
    Ok(())
}

/// The relations as rules, and the rules that these give by twos, until there is none left or `most`
/// of them were looked at: Knuth and Bendix' completion, which for commutative monoids is
/// Buchberger's algorithm. Each rule is one that the relations give.
pub fn completed<A: Allocator + Copy>(
    alloc: A,
    letters: usize,
    relations: &[Relation],
    most: usize,
    steps: u32,
) -> Result<Rules<A>, Memory>
    requires { letters ≤ LETTERS }
    ensures { IfOk result (λ rules. All (λ r. AreRelatedWords letters relations.now r.left r.right)
        rules.relations.items) }
{
    let mut rules = Rules::new(alloc);
    for relation in relations {
        rules.push(oriented(letters, &relation.left, &relation.right))?;
    }
    for j in 0..most {
        if j >= rules.relations.len() {
            return Ok(rules);
        }
        learn(letters, &mut rules, j, steps)?;
    }
    Ok(rules)
}
