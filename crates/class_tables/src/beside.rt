//! Whether a heap and its options are in the portion beside the elements of a class.
ghost use Rattle.std.specs.Prelude.{◌≡◌, ◌≤◌, ℕ, List, IfSome, true, false, [], ◌∷◌, length};
ghost use Rattle.presentations.specs.declared.TheConstants.{LETTERS};
ghost use Rattle.heap_options.specs.Exact.{heaps_of};
ghost use Rattle.normal_forms.specs.Forms.{word_of};
ghost use Rattle.presented_claims.specs.Claims.{heap_word, IsElement};
ghost use Rattle.presented_tables.specs.Tested.{Says, SomeSays, NoneSays, AreWordsIn};
ghost use Rattle.presented_claims.specs.Folds.{AreFiner};
ghost use Rattle.class_tables.specs.Classes.{AreFolds, IsOfClass, HaveFold, AreSaid, AreBeside};

use crate::leading::lead;
use heap_options::{Left, options, options_are_exact};
use normal_forms::Exponents;
use presentations::LETTERS;
use presented_tables::{Beside, Presented, cycled_word, in_portion, product};
use presented_text::LetterCycle;
use std::alloc::Allocator;

/// The word of heap `n`, which is that of nothing if it has none.
pub(crate) fn heap_word<A: Allocator>(p: &Presented<A>, n: u64) -> Exponents
    ensures { result ≡ heap_word p.now n }
{
    match p.word(n) {
        Some(word) => word,
        None => [0; LETTERS],
    }
}

/// The word of what is left of a heap, if there is room.
fn left_word<A: Allocator>(p: &Presented<A>, left: Left) -> Option<Exponents>
    requires { AreWordsIn p.now }
    ensures { IfSome result (λ w. w ≡ word_of LETTERS (heap_word p.now) (heaps_of left)) }
{
    match left {
        Left::Nothing => Some([0; LETTERS]),
        Left::One(a) => Some(heap_word(p, a)),
        Left::Two(a, b) => product(&heap_word(p, a), &heap_word(p, b)),
        Left::Three(a, b, c) => {
            product(
                &heap_word(p, a),
                &product(&heap_word(p, b), &heap_word(p, c))?,
            )
        }
    }
}

/// The fold of the elements of the class `q` times the word, if they are seen to have one.
pub(crate) fn led_fold<A: Allocator>(
    p: &Presented<A>,
    tops: &[LetterCycle],
    folds: &[LetterCycle],
    q: &Exponents,
    word: &Exponents,
) -> Option<Exponents>
    requires tops { AreFolds p.now tops.now }
    requires folds { AreFolds p.now folds.now }
    requires class { IsElement p.now q.now }
    ensures { IfSome result (λ t. HaveFold p.now folds.now tops.now q.now word.now t) }
{
    let _rules = p.basis.rules();
    let led = lead(p, tops, folds, &[], q, word)?;
    Some(cycled_word(tops, &led.to))
}

/// Whether the elements of the class `q` are in the portion, times the word: all of them or none.
fn says_word<A: Allocator>(
    p: &Presented<A>,
    tops: &[LetterCycle],
    folds: &[LetterCycle],
    q: &Exponents,
    word: &Exponents,
) -> Option<bool>
    requires tops { AreFolds p.now tops.now }
    requires finer { AreFiner tops.now p.now.cycles }
    requires folds { AreFolds p.now folds.now }
    requires class { IsElement p.now q.now }
    ensures { IfSome result (λ b. AreSaid p.now folds.now q.now word.now b) }
{
    let _rules = p.basis.rules();
    let led = lead(p, tops, folds, &[], q, word)?;
    Some(in_portion(p, &led.to))
}

/// Whether the heap is in the portion, beside the elements of the class.
fn says_heap<A: Allocator>(
    p: &Presented<A>,
    tops: &[LetterCycle],
    folds: &[LetterCycle],
    q: &Exponents,
    n: u64,
) -> Option<bool>
    requires tops { AreFolds p.now tops.now }
    requires finer { AreFiner tops.now p.now.cycles }
    requires folds { AreFolds p.now folds.now }
    requires class { IsElement p.now q.now }
    requires words { AreWordsIn p.now }
    ensures { IfSome result (λ b. (x : List ℕ) → IsOfClass p.now folds.now q.now x → Says p.now x (n ∷ []) b) }
{
    says_word(p, tops, folds, q, &heap_word(p, n))
}

/// Whether what is left of a heap is, beside them.
fn says_left<A: Allocator>(
    p: &Presented<A>,
    tops: &[LetterCycle],
    folds: &[LetterCycle],
    q: &Exponents,
    left: Left,
) -> Option<bool>
    requires tops { AreFolds p.now tops.now }
    requires finer { AreFiner tops.now p.now.cycles }
    requires folds { AreFolds p.now folds.now }
    requires class { IsElement p.now q.now }
    requires words { AreWordsIn p.now }
    ensures { IfSome result (λ b. (x : List ℕ) → IsOfClass p.now folds.now q.now x → Says p.now x (heaps_of left) b) }
{
    says_word(p, tops, folds, q, &left_word(p, left)?)
}

/// Whether some option of the heap is, beside them.
fn says_option<A: Allocator>(
    p: &Presented<A>,
    tops: &[LetterCycle],
    folds: &[LetterCycle],
    q: &Exponents,
    n: u64,
) -> Option<bool>
    requires tops { AreFolds p.now tops.now }
    requires finer { AreFiner tops.now p.now.cycles }
    requires folds { AreFolds p.now folds.now }
    requires class { IsElement p.now q.now }
    requires words { AreWordsIn p.now }
    ensures some { IfSome result (λ b. b ≡ true → (x : List ℕ) → IsOfClass p.now folds.now q.now x → SomeSays p.now x n) }
    ensures none { IfSome result (λ b. b ≡ false → (x : List ℕ) → IsOfClass p.now folds.now q.now x → NoneSays p.now x n) }
{
    options_are_exact();
    for left in options(&p.code, n) {
        if says_left(p, tops, folds, q, left)? {
            return Some(true);
        }
    }
    Some(false)
}

/// What heap `n` does beside the elements of the class.
pub(crate) fn heap_beside<A: Allocator>(
    p: &Presented<A>,
    tops: &[LetterCycle],
    folds: &[LetterCycle],
    q: &Exponents,
    n: u64,
) -> Option<Beside>
    requires tops { AreFolds p.now tops.now }
    requires finer { AreFiner tops.now p.now.cycles }
    requires folds { AreFolds p.now folds.now }
    requires class { IsElement p.now q.now }
    requires words { AreWordsIn p.now }
    ensures { IfSome result (λ b. AreBeside p.now folds.now q.now n b) }
{
    let own = says_heap(p, tops, folds, q, n)?;
    let option = says_option(p, tops, folds, q, n)?;
    if own {
        if option {
            return Some(Beside::Both);
        }
        return Some(Beside::Good);
    }
    if option {
        return Some(Beside::Good);
    }
    Some(Beside::Bad)
}
