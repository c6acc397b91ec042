//! Laws of certificates: what their faults exclude, what makes one accepted, and which answers are
//! true of it.

ghost use Rattle.std.specs.Prelude.{◌≡◌, ◌⊎◌, ◌↔◌, ◌<◌, ◌≤◌, ◌+◌, ◌-◌, ◌*◌, ◌^◌, List, ℕ, true, false, length, All};
ghost use Rattle.misere_theory.specs.declared.TheConstants.{LARGEST_FIRST_ORDER, LARGEST_SECOND_ORDER, MOST_SECOND_ENTRIES, LARGEST_PART};
ghost use Rattle.misere_theory.specs.Certificates.{Certificate, IsHeapOf, kind_of, certificate_bound, format_of, phi_at, times_of, IsSpelled, claim_of, InRanges, Canonical, Accepted};
ghost use Rattle.misere_theory.specs.Faults.{WordFault, OrderFault, PeriodFault, ApartFault};
ghost use Rattle.misere_theory.specs.Games.{is_octal, IsHeap, IsHeapUpTo, IsPosition};
ghost use Rattle.misere_theory.specs.Pairs.{Pair, IsClosed, KeptObey, ElementsObey, heap_bound};
ghost use Rattle.misere_theory.specs.Quotients.{Monoid, Represents, RuleFails, value};
ghost use Rattle.misere_theory.specs.Verdicts.{Fault, HasFault, Verdict, IsAllowed};
ghost use Rattle.misere_theory.specs.Verdicts.Verdict.{Yes, No, Outcome, Limit};

/// The three laws, tested at all elements, make the table of a certificate in its ranges a
/// commutative monoid.
pub fn tested_tables_are_monoids()
    ensures { (c : Certificate)
        → InRanges c
        → ((x : ℕ) → x < c.order → times_of c 0 x ≡ x)
        → ((x y : ℕ) → x < c.order → y < c.order → times_of c x y ≡ times_of c y x)
        → ((x y z : ℕ) → x < c.order → y < c.order → z < c.order
        → times_of c (times_of c x y) z ≡ times_of c x (times_of c y z))
        → Monoid c.order (times_of c) }
{}

/// A certificate in its ranges is canonical exactly where it has none of the faults 3 to 6.
pub fn faultless_certificates_are_canonical()
    ensures canonical { (c : Certificate)
        → InRanges c
        → (WordFault c → ⊥)
        → (OrderFault c → ⊥)
        → (PeriodFault c → ⊥)
        → (ApartFault c → ⊥)
        → Canonical c }
    ensures no_word_fault { (c : Certificate) → InRanges c → Canonical c → WordFault c → ⊥ }
    ensures no_order_fault { (c : Certificate) → InRanges c → Canonical c → OrderFault c → ⊥ }
    ensures no_period_fault { (c : Certificate) → InRanges c → Canonical c → PeriodFault c → ⊥ }
    ensures no_apart_fault { (c : Certificate) → InRanges c → Canonical c → ApartFault c → ⊥ }
{}

/// A certificate in its ranges has no fault exactly where it is canonical and its table a
/// commutative monoid.
pub fn faultless_certificates_are_canonical_monoids()
    ensures both { (c : Certificate)
        → InRanges c
        → ((fault : Fault) → HasFault c fault → ⊥)
        → Monoid c.order (times_of c) × Canonical c }
    ensures none { (c : Certificate)
        → InRanges c
        → Monoid c.order (times_of c)
        → Canonical c
        → (fault : Fault) → HasFault c fault → ⊥ }
{}

/// The position that an element's keys spell has the element as its value, and each element's keys
/// spell one.
pub fn keys_spell_positions()
    ensures some { (c : Certificate) → Canonical c → (e : ℕ) → e < c.order
        → (X : List ℕ) × IsSpelled c e X }
    ensures value { (c : Certificate) (e : ℕ) (X : List ℕ)
        → InRanges c
        → Monoid c.order (times_of c)
        → Canonical c
        → e < c.order
        → IsSpelled c e X
        → IsPosition (IsHeapOf c) X × (value (claim_of c) X ≡ e) }
{}

/// A number that serves as a period for as many heaps in a row as the period from start on serves
/// for all heaps from start on.
pub fn periods_show_at_once()
    ensures { (c : Certificate) (r : ℕ)
        → InRanges c
        → ((n : ℕ) → c.start ≤ n → n < c.start + c.period → phi_at c (r + n) ≡ phi_at c n)
        → (n : ℕ) → c.start ≤ n → phi_at c (r + n) ≡ phi_at c n }
{}

/// What a checker tests of a certificate makes it accepted.
pub fn tested_certificates_are_accepted()
    ensures { (c : Certificate) (kept : List Pair)
        → InRanges c
        → Monoid c.order (times_of c)
        → Canonical c
        → IsClosed c.code (claim_of c) (IsHeapUpTo (certificate_bound c)) kept
        → KeptObey (claim_of c) kept
        → ElementsObey c.code (claim_of c) (IsHeapUpTo (certificate_bound c))
        → Accepted c }
{}

/// A canonical certificate of a monoid is accepted exactly where the rule fails at no position; so
/// it is accepted, or the rule fails at a position.
pub fn accepted_certificates_obey_the_rule()
    ensures obeys { (c : Certificate) → Accepted c
        → (X : List ℕ) → IsPosition (IsHeapOf c) X → RuleFails c.code (claim_of c) X → ⊥ }
    ensures accepted { (c : Certificate)
        → InRanges c
        → Monoid c.order (times_of c)
        → Canonical c
        → ((X : List ℕ) → IsPosition (IsHeapOf c) X → RuleFails c.code (claim_of c) X → ⊥)
        → Accepted c }
    ensures either { (c : Certificate)
        → InRanges c
        → Monoid c.order (times_of c)
        → Canonical c
        → Accepted c
        ⊎ ((X : List ℕ) × IsPosition (IsHeapOf c) X × RuleFails c.code (claim_of c) X) }
{}

/// Accepted certificates get Yes or Limit; canonical ones of a monoid that isn't the quotient
/// Outcome or Limit; a certificate with a fault its first fault alone; and no certificate gets
/// Limit where the limit is order * 2 ^ order or more.
pub fn true_answers_are_few()
    ensures accepted { (c : Certificate) (limit : ℕ) (answer : Verdict)
        → Accepted c
        → IsAllowed c limit answer
        → (answer ≡ Yes) ⊎ (answer ≡ Limit) }
    ensures wrong { (c : Certificate) (limit : ℕ) (answer : Verdict)
        → InRanges c
        → Monoid c.order (times_of c)
        → Canonical c
        → (Represents (IsHeapOf c) c.code (claim_of c) → ⊥)
        → IsAllowed c limit answer
        → ((X : List ℕ) × (answer ≡ Outcome X)) ⊎ (answer ≡ Limit) }
    ensures faulty { (c : Certificate) (fault : Fault) (limit other : ℕ) (answer : Verdict)
        → InRanges c
        → IsAllowed c limit (No fault)
        → IsAllowed c other answer
        → answer ≡ No fault }
    ensures within { (c : Certificate) (limit : ℕ)
        → InRanges c
        → c.order * 2 ^ c.order ≤ limit
        → IsAllowed c limit Limit → ⊥ }
{}

/// A code has one accepted certificate of each kind at most: a full one, and for each last heap a
/// partial one.
pub fn accepted_certificates_are_unique()
    ensures one { (c d : Certificate) → Accepted c → Accepted d → c.code ≡ d.code
        → kind_of c ≡ kind_of d → c ≡ d }
    ensures full { (c d : Certificate) → Accepted c → Accepted d → c.code ≡ d.code
        → 1 ≤ c.period → 1 ≤ d.period → c ≡ d }
{}

/// An accepted certificate is the misère quotient: a full one that of the whole game of its code, a
/// partial one that of the heaps below its start.
pub fn accepted_certificates_are_quotients()
    ensures full { (c : Certificate) → Accepted c → 1 ≤ c.period
        → Represents IsHeap c.code (claim_of c) }
    ensures partial { (c : Certificate) → Accepted c → c.period ≡ 0
        → Represents (IsHeapUpTo (c.start - 1)) c.code (claim_of c) }
{}

/// What the kind of a certificate says of its heaps and its bound.
pub fn kinds_are_told_by_the_period()
    ensures full { (c : Certificate) → 1 ≤ c.period → (kind_of c ≡ 0)
        × (certificate_bound c ≡ heap_bound c.code (length c.code - 1) c.start c.period) }
    ensures partial { (c : Certificate) → InRanges c → c.period ≡ 0 → (kind_of c ≡ c.start - 1)
        × (0 < kind_of c) × (kind_of c ≤ LARGEST_PART) × (certificate_bound c ≡ c.start - 1) }
    ensures written { (c : Certificate) → InRanges c → (h : ℕ) → 1 ≤ h
        → h < c.start + c.period → IsHeapOf c h }
    ensures bounded { (c : Certificate) → (h : ℕ) → IsHeapUpTo (certificate_bound c) h
        → IsHeapOf c h }
{}

/// The third format is that of orders or entries above the second format's; of the others the first
/// is that of octal codes, of orders up to its largest and of full certificates alone, and the second
/// that of all else.
pub fn formats_are_told_by_the_numbers()
    ensures first { (c : Certificate) → (format_of c ≡ 1)
        ↔ ((is_octal c.code ≡ true) × (c.order ≤ LARGEST_FIRST_ORDER)
        × (c.start + c.period ≤ MOST_SECOND_ENTRIES + 1) × (1 ≤ c.period)) }
    ensures second { (c : Certificate) → (format_of c ≡ 2)
        ↔ ((c.order ≤ LARGEST_SECOND_ORDER) × (c.start + c.period ≤ MOST_SECOND_ENTRIES + 1)
        × ((is_octal c.code ≡ false) ⊎ ((LARGEST_FIRST_ORDER < c.order) ⊎ (c.period ≡ 0)))) }
    ensures third { (c : Certificate) → (format_of c ≡ 3)
        ↔ ((LARGEST_SECOND_ORDER < c.order)
        ⊎ (MOST_SECOND_ENTRIES + 1 < c.start + c.period)) }
{}
