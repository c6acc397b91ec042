//! What a compact certificate leaves out, and that it follows from what it says: definitions, their
//! laws, and how it is made.
//!
//! A compact certificate says of its table the rows of the elements that heaps have, and no
//! separators. In an accepted certificate every other row is that of its key's product, and each
//! separator is the least element that tells its pair apart.
//!
//! | Folder | What stands there |
//! |---|---|
//! | `specs/Rows` | the first rows, and those made of them by keys |
//! | `specs/Separators` | the least element that tells a pair apart |
//! | `specs/Compact` | what follows, what is left out, and how it is put back |
//! | `specs/Flat`, `specs/Lanes` | rows, and contexts, that lie one behind the other |
//! | `src/` | the laws, each the contract of a function that does nothing; rows and separators made |
#![tactic(auto)]

pub mod products;
pub mod separators;

ghost use Rattle.std.specs.Prelude.{◌≡◌, ◌↔◌, ◌+◌, ◌≤◌, ◌<◌, ℕ, List, true, length, All};
ghost use Rattle.misere_theory.specs.Quotients.{Claim};
ghost use Rattle.misere_theory.specs.Certificates.{Certificate, InRanges, Accepted, phi_at, key_of, pairs_from, TellsApart, LeastApart, IsHeapOf};
ghost use Rattle.compact_certificates.specs.Separators.{separator_of, separators_of, with_separators};
ghost use Rattle.compact_certificates.specs.Rows.{firsts_of};
ghost use Rattle.compact_certificates.specs.Compact.{HasTable, IsExpandable, Follows, IsCompact, compacted, expanded, is_expandable};

/// A certificate in its ranges has a key for each element above 0, and a row for each element.
pub fn certificates_in_ranges_have_tables()
    ensures { (c : Certificate) → InRanges c → HasTable c }
{}

/// Of an accepted certificate all follows that a compact text leaves out, and the first elements
/// are those above 0 that heaps have.
pub fn accepted_certificates_follow()
    ensures follow { (c : Certificate) → Accepted c → Follows c }
    ensures heaps { (c : Certificate) (h : ℕ) → Accepted c → phi_at c h ≤ firsts_of c.words }
    ensures firsts { (c : Certificate) (e : ℕ) → Accepted c → 0 < e → e ≤ firsts_of c.words
        → (h : ℕ) × IsHeapOf c h × (phi_at c h ≡ e) }
{}

/// What is left out of a certificate of which it follows, as of each accepted one, comes back, and
/// what is left is compact.
pub fn what_follows_comes_back()
    ensures back { (c : Certificate) → HasTable c → Follows c → expanded (compacted c) ≡ c }
    ensures compact { (c : Certificate) → HasTable c → Follows c → IsCompact (compacted c) }
    ensures accepted { (c : Certificate) → Accepted c → expanded (compacted c) ≡ c }
{}

/// What is made of a compact certificate has its whole table and separators, all of it follows, and
/// without it the compact certificate is left.
pub fn what_is_made_follows()
    ensures table { (c : Certificate) → IsCompact c → HasTable (expanded c) }
    ensures apart { (c : Certificate) → IsCompact c
        → (length (expanded c).apart ≡ length (pairs_from 0 c.order))
        × All (λ x. x < c.order) (expanded c).apart }
    ensures follows { (c : Certificate) → IsCompact c → Follows (expanded c) }
    ensures again { (c : Certificate) → IsCompact c → compacted (expanded c) ≡ c }
{}

/// No two certificates say the same: if what is left out follows of both, and what they say else is
/// equal, they are one.
pub fn compact_certificates_tell_all()
    ensures { (c d : Certificate) → HasTable c → HasTable d → Follows c → Follows d
        → compacted c ≡ compacted d → c ≡ d }
{}

/// A test of the heaps' elements and the keys says whether all rows can be made of the first ones.
pub fn expandable_certificates_are_told()
    ensures { (c : Certificate) → length c.words + 1 ≡ c.order
        → (is_expandable c ≡ true) ↔ IsExpandable c }
{}

/// The separator of a pair is the least element that tells it apart, and 0 if none does.
pub fn separators_are_the_least()
    ensures least { (c : Claim) (p : ℕ × ℕ) (z : ℕ) → LeastApart c p z → separator_of c p ≡ z }
    ensures none { (c : Claim) (p : ℕ × ℕ) → ((z : ℕ) → z < c.order → TellsApart c p z → ⊥)
        → separator_of c p ≡ 0 }
{}

/// Separators follow from the order, the products of elements and the portion, and a certificate's
/// do whatever separators stand there.
pub fn separators_follow()
    ensures follow { (c d : Claim) → c.order ≡ d.order
        → ((x y : ℕ) → x < c.order → y < c.order → c.times x y ≡ d.times x y)
        → ((x : ℕ) → c.portion x ≡ d.portion x)
        → separators_of c ≡ separators_of d }
    ensures whatever { (c : Certificate) (other : List ℕ)
        → with_separators (record c { apart = other }) ≡ with_separators c }
{}
