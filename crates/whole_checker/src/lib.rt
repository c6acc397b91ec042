//! The third headline: a text of a whole game in which one heap may rule all others is checked, and a yes is
//! right of each position, of any number of heaps of any size.
//!
//! The rule of misère outcomes is tested at positions by triples, and one at which a claim breaks it is searched for.
#![tactic(auto)]

mod checking;
mod game;
mod laws;
mod ranks;
mod reached;
mod rule;
mod search;
mod triples;

pub use checking::{check_whole, judge_whole, makes_all};
pub use game::WholeGame;
pub use laws::broken_rules_show_wrong_claims;
pub use rule::rule_fails_at;
pub use search::failing_position;
