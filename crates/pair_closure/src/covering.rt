//! When a pair covers another.
ghost use Rattle.std.specs.Prelude.{◌≡◌};
ghost use Rattle.transition_algebra.specs.Pairs as covering;

use element_sets::LaneSet;
use transition_algebra::Pair;

/// The same value, some of the options' values, and one at least where there is one.
pub(crate) fn covers<const LANES: usize>(x: &Pair<LaneSet<LANES>>, y: &Pair<LaneSet<LANES>>) -> bool
    ensures { result ≡ covering.covers x.now y.now }
{
    x.value == y.value
        && x.options.subset(&y.options)
        && (y.options.is_empty() || !x.options.is_empty())
}
