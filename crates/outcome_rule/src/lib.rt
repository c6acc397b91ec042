//! Whether the rule of misère outcomes fails at a position, by whatever says of positions that they are P: the elements of a
//! table, triples, normal forms.
//!
//! | File | What stands there |
//! |---|---|
//! | `src/says` | what says of positions whether they are P |
//! | `src/glance` | what a look at options finds |
//! | `src/looking` | a look at the options of one heap |
//! | `src/rule` | the rule at a position |
//! | `specs/Looks` | what is found is so |
#![tactic(auto)]

mod glance;
mod looking;
mod rule;
mod says;

pub use rule::rule_fails_at;
pub use says::SaysOutcomes;
