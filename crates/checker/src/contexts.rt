//! For each element those that take it into the portion.
ghost use Rattle.std.specs.Prelude.{◌≡◌, ◌<◌, ◌≤◌, ◌*◌, ℕ, IfOk, true, false};
ghost use Rattle.std.specs.FinSet as set;
ghost use Rattle.misere_theory.specs.Certificates.{claim_of, times_of};
ghost use Rattle.answers.specs.Portions.{IsPortion};
ghost use Rattle.check_machine.specs.Closings.{AreContexts};
ghost use Rattle.check_machine.specs.Turns.{tells_apart};

use crate::lawful_certificate::LawfulCertificate;
use crate::lines::set_of;
use allocation::{Memory, SmallAllocator};
use element_sets::LaneSet;

/// The elements that take x into the portion.
fn context<const LANES: usize, A: SmallAllocator>(
    certificate: &LawfulCertificate<A>,
    inside: &LaneSet<LANES>,
    x: u16,
) -> LaneSet<LANES>
    requires fits { certificate.now.order ≤ 64 * LANES }
    requires portion { IsPortion certificate.now inside.now }
    requires element { x < certificate.now.order }
    ensures each { (y : ℕ) → set.contains result y ≡ true → (y < certificate.now.order)
        × ((claim_of certificate.now).portion (times_of certificate.now x y) ≡ true) }
    ensures all { (y : ℕ) → y < certificate.now.order
        → (claim_of certificate.now).portion (times_of certificate.now x y) ≡ true
        → set.contains result y ≡ true }
{
    let mut all = LaneSet::new();
    for y in 0..certificate.order() {
        if !inside.contains(certificate.times(x, y)) {
            continue;
        }
        all.insert(y);
    }
    all
}

/// For each element those that take it into the portion.
pub fn contexts<const LANES: usize, A: SmallAllocator + Copy>(
    alloc: A,
    certificate: &LawfulCertificate<A>,
) -> Result<Vec<LaneSet<LANES>, A>, Memory>
    requires fits { certificate.now.order ≤ 64 * LANES }
    requires few { LANES ≤ 64 }
    ensures { IfOk result (λ all. AreContexts certificate.now all.items) }
{
    let inside = set_of(certificate.portion());
    let mut all = Vec::new(alloc);
    for x in 0..certificate.order() {
        all.push(context(certificate, &inside, x))?;
    }
    Ok(all)
}

/// The least element that takes exactly one of x and y into the portion, or the order.
pub fn least_apart<const LANES: usize, A: SmallAllocator>(
    certificate: &LawfulCertificate<A>,
    contexts: &[LaneSet<LANES>],
    x: u16,
    y: u16,
) -> u16
    requires contexts { AreContexts certificate.now contexts.now }
    requires x_in { x < certificate.now.order }
    requires y_in { y < certificate.now.order }
    ensures within { result ≤ certificate.now.order }
    ensures below { (z : ℕ) → z < result → tells_apart certificate.now x y z ≡ false }
    ensures tells { result < certificate.now.order
        → tells_apart certificate.now x y result ≡ true }
{
    contexts[x as usize].first_apart(&contexts[y as usize], certificate.order())
}
