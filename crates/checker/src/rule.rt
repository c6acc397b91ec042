//! The local rule at a pair.
ghost use Rattle.std.specs.Prelude.{◌⊎◌, IsTrue};
ghost use Rattle.check_machine.specs.Rules.{Obeys, Breaks};

use element_sets::LaneSet;
use transition_algebra::Pair;

/// Whether the pair obeys the rule, but for options in the portion of a value in the portion.
pub fn obeys<const LANES: usize>(inside: &LaneSet<LANES>, pair: &Pair<LaneSet<LANES>>) -> bool
    ensures yes { IsTrue result → Obeys inside.now pair.now }
    ensures no { IsTrue result ⊎ Breaks inside.now pair.now }
{
    if inside.contains(pair.value) {
        !pair.options.is_empty()
    } else {
        pair.options.is_empty() || pair.options.meets(inside)
    }
}
