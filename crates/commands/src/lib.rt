//! What the program does for each request: what is said is printed, or it tells why nothing is. `ended` is the whole run:
//! the program's words in, and the status that it ends with.
#![tactic(auto)]

mod carrying_out;
mod ending;
mod running;
mod whole_run;

pub use ending::ended;
pub use running::run_plan;
pub use whole_run::run;
