//! Whether a quotient is one of Nim's.
ghost use Rattle.std.specs.Prelude.{◌≡◌, ◌≢◌, ◌<◌, ◌≤◌, ◌+◌, ◌^◌, ◌↔◌, ◌||◌, ◌==◌, ℕ, true, IsTrue, IfSome, IfNone};
ghost use Rattle.misere_theory.specs.declared.TheConstants.{LARGEST_ORDER};
ghost use Rattle.misere_theory.specs.Certificates.{claim_of};
ghost use Rattle.monoid_table.specs.Grids.{times_in};
ghost use Rattle.certificate.specs.Fields.{grid_of};
ghost use Rattle.descriptions.specs.Described.{TellsTame};
ghost use Rattle.descriptions.specs.Tame.{IsTameBy, is_in_group};

use answers::Certified;
use monoid_table::Table;

/// Whether x is the identity or a, or in the group of e.
fn is_in_group(table: &Table, a: u16, e: u16, x: u16) -> bool
    requires e_in { e < table.now.order }
    requires x_in { x < table.now.order }
    ensures { result ≡ is_in_group table.now a e x }
{
    x == 0 || x == a || table.times(x, x) == e && table.times(e, x) == x
}

/// Whether each element is the identity or a, or in the group of e.
fn are_in_group(table: &Table, a: u16, e: u16) -> bool
    requires { e < table.now.order }
    ensures { IsTrue result
        ↔ ((x : ℕ) → x < table.now.order → is_in_group table.now a e x ≡ true) }
{
    for x in 0..table.order() {
        if !is_in_group(table, a, e, x) {
            return false;
        }
    }
    true
}

/// Whether x is one of the two.
fn is_either(x: u16, a: u16, e: u16) -> bool
    ensures { result ≡ ((x == a) || (x == e)) }
{
    x == a || x == e
}

/// Whether the portion is a and e.
fn is_portion(certified: &Certified, a: u16, e: u16) -> bool
    ensures { IsTrue result ↔ ((x : ℕ) → x < certified.now.order
        → (claim_of certified.now).portion x ≡ ((x == a) || (x == e))) }
{
    for x in 0..certified.cert().order() {
        if certified.holds(x) != is_either(x, a, e) {
            return false;
        }
    }
    true
}

/// Whether a and e show that the quotient is tame.
fn is_tame_by(certified: &Certified, table: &Table, a: u16, e: u16) -> bool
    requires table { table.now ≡ grid_of certified.now }
    requires a_in { a < certified.now.order }
    requires e_in { e < certified.now.order }
    ensures { IsTrue result ↔ IsTameBy certified.now a e }
{
    if a == 0 || e == 0 || a == e || table.times(a, a) != 0 || table.times(a, e) == e {
        return false;
    }
    is_portion(certified, a, e) && are_in_group(table, a, e)
}

/// Whether some e shows so with this a.
fn is_tame_with(certified: &Certified, table: &Table, a: u16) -> bool
    requires table { table.now ≡ grid_of certified.now }
    requires a_in { a < certified.now.order }
    ensures { IsTrue result ↔ ((e : ℕ) × IsTameBy certified.now a e) }
{
    for e in 0..certified.cert().order() {
        if is_tame_by(certified, table, a, e) {
            return true;
        }
    }
    false
}

/// Whether some elements show so.
fn has_group(certified: &Certified, table: &Table) -> bool
    requires { table.now ≡ grid_of certified.now }
    ensures { IsTrue result ↔ ((a : ℕ) × (e : ℕ) × IsTameBy certified.now a e) }
{
    for a in 0..certified.cert().order() {
        if is_tame_with(certified, table, a) {
            return true;
        }
    }
    false
}

/// The number n from 2 on with 2^n + 2 elements.
pub fn exponent(order: u16) -> Option<u16>
    requires { order ≤ LARGEST_ORDER }
    ensures some { IfSome result (λ n. (2 ≤ n) × (order ≡ 2 ^ n + 2)) }
    ensures none { IfNone result ((n : ℕ) → 2 ≤ n → order ≢ 2 ^ n + 2) }
{
    let mut power = 4;
    for n in 2..12u16 {
        if order == power + 2 {
            return Some(n);
        }
        power *= 2;
    }
    None
}

/// Whether the two elements of a quotient of order 2 are those of T_1.
fn is_first(certified: &Certified, table: &Table) -> bool
    requires table { table.now ≡ grid_of certified.now }
    requires two { certified.now.order ≡ 2 }
    ensures { IsTrue result ↔ ((times_in table.now 1 1 ≡ 0)
        × ((x : ℕ) → x < 2 → (claim_of certified.now).portion x ≡ (x == 1))) }
{
    table.times(1, 1) == 0 && !certified.holds(0) && certified.holds(1)
}

/// The number n where the quotient is T_n.
pub fn tame(certified: &Certified, table: &Table) -> Option<u16>
    requires { table.now ≡ grid_of certified.now }
    ensures { TellsTame certified.now result }
{
    if certified.cert().order() == 2 {
        return if is_first(certified, table) {
            Some(1)
        } else {
            None
        };
    }
    if !has_group(certified, table) {
        return None;
    }
    exponent(certified.cert().order())
}
