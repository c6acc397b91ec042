//! The commands that make certificates: `solve`, from a code; `solve --infinite`, the whole game or the presentation of
//! a part whose quotient is infinite; `certify`, from a table in a numbering of one's own, or from a presentation; and
//! `series`, how many elements the quotients of the first heaps of a game have.
#![tactic(auto)]

mod certifying;
mod given;
mod laws;
mod lines;
mod making;
mod many;
mod orders;
mod presented;
mod reasons;
mod saying;
mod search;
mod searches;
mod series_lines;
mod series_saying;
mod solving;
mod still;
mod telling;
mod told;

pub use certifying::certify;
pub use given::LARGEST_TABLE;
pub use laws::still_heaps_have_one_class;
pub use many::{solve_lines, solve_many};
pub use requests::SolveBounds;
pub use saying::{present_infinite_bytes, solve_infinite, solve_infinite_bytes};
pub use searches::{Proposing, Searched, Searches};
pub use series_saying::{series, series_by};
pub use solving::{certificate_by, solve, solve_by, solve_bytes};
pub use telling::{ToldTable, certify_bytes};
