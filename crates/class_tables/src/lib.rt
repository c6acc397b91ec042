//! Tables of a presentation by classes of its elements, of which there may be infinitely many: beside a word, all elements
//! of a class become elements of one class, and one normal form for each letter that runs on shows it.
#![tactic(auto)]

mod beside;
mod choosing;
mod classes;
mod folding;
mod leading;
mod listing;
mod lists;
mod marks;
mod placing;
mod powers;
mod raising;
mod rows;
mod separating;
mod splitting;
mod steps;
mod tables;
mod thresholds;
mod turning;
mod untold;
mod weighing;

pub use choosing::{near_labels, telling_labels};
pub use classes::ListedWords;
pub use lists::{ClassLists, Folds, Thresholds};
pub use powers::is_unbounded;
pub use raising::{folds_for, thresholds_for};
pub use tables::{ClassTables, class_tables_of, test_presented};
pub use untold::UntoldPairs;
