//! The check of a presentation as a certificate: a yes says that it is the misère quotient of its heaps.
//!
//! Where there are infinitely many elements, kept positions and contexts are tested by classes of elements, of which there
//! are finitely many (`by_classes`). Of a whole game, whose words of heaps repeat, finitely many heaps are tested
//! (`whole_presentations`).
#![tactic(auto)]

mod breaking;
mod by_classes;
mod checking;
mod quotient;
mod unrolling;
mod weights;
mod whole_presentations;

pub use by_classes::{is_endless, present_by_classes};
pub use checking::check_presented;
pub use quotient::PresentedQuotient;
pub use unrolling::{Unrolled, roll, unroll};
pub use whole_presentations::{
    enough_heaps_show_all, longer_lists_keep_the_form, whole_games_have_their_parts,
    whole_lists_name_all_heaps,
};
