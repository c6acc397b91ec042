//! The commands that print quotients: `show`, line by line; `describe`, as the literature prints them; `compare`, whether
//! two are isomorphic as bipartite monoids; and `present`, the monoid of a presentation.
#![tactic(auto)]

mod alike;
mod comparing;
mod describing;
mod lines;
mod operands;
mod presenting;
mod searches;
mod showing;
mod structures;
mod tables;
mod texts;

pub use comparing::{MOST_LISTS, compare};
pub use describing::describe;
pub use descriptions::Form;
pub use operands::Operand;
pub use showing::show;
pub use tables::present;
