//! The commands that ask quotients of positions: `play`, the element of a position, all winning moves in one, and what tells
//! two apart; by finite quotients, those of whole games, and presentations.
#![tactic(auto)]

mod answer_lines;
mod asking;
mod lines;
mod many;
mod playing;
mod quotients;
mod telling;
mod valuing;
mod wins;

pub use answer_lines::answer_text;
pub use asking::{Question, ask, said_in};
pub use many::{lines_said, play_lines};
pub use playing::position_of;
pub use telling::apart;
pub use wins::MOST_LOOKS;
