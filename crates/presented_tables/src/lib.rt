//! Tables of a presentation: its elements, products and heaps in numbers, for the test of kept positions.
//!
//! A search lists the standard words. A proved test sees that the list is closed under letters, so that it has each
//! element, and makes of it the tables of labels: products, heaps, and beside which elements a heap is bad.
#![tactic(auto)]

mod acting;
mod answer;
mod beside;
mod elements;
mod fault;
mod heaps;
mod idle;
mod listing;
mod numbers;
mod portion;
mod presentation;
mod products;
mod reached;
mod rows;
mod says;
mod standing;
mod weights;
mod within;

pub use answer::{PresentedTables, tables_of};
pub use beside::Beside;
pub use elements::ListedElements;
pub use fault::TablesFault;
pub use heaps::{has_option, heap_that_leaves};
pub use numbers::{HeapNumbers, numbers_of};
pub use portion::{cycled_word, in_portion};
pub use presentation::Presented;
pub use products::product;
pub use weights::weights as heap_weights;
pub use within::{is_in, test_within};
