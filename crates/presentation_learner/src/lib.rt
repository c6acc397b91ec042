//! A search for the presentation of a misère quotient from a code alone, which learns the relations.
//!
//! Nothing is promised of what is found. It is a text, which a check accepts or refuses.
//!
//! # The method
//!
//! Nothing is supposed of the quotient but that it has finitely many generators and relations, as each finitely
//! generated commutative monoid has.
//!
//! 1. The heaps of a part that have moves are generators, which come one after another. *Rules* of words of them are
//!    hypotheses. They lead to words that are lighter, or as light and before; so does each move. So positions have
//!    normal forms, and these have outcomes: those of play in which each option is brought to its normal form.
//! 2. Words are taken by their order. One that no left word divides goes down a tree of *contexts*, which are other
//!    words, to the one standard word that it may be (Kearns and Vazirani's discrimination tree). If no context tells
//!    the two apart, it is the left word of a new rule (Buchberger and Möller); else it is a new standard word.
//!    Exponents are bounded.
//! 3. Rules may contradict each other, or play: the moves of a position say another outcome than a rule that applies
//!    there. Such positions are looked for beside contexts, at critical pairs that don't join (Buchberger), and among
//!    those that no lighter position settles. Each is traced down, move by move and rule by rule, to one below which no
//!    contradiction is seen. There the rules that say another outcome than the moves are wrong. They go, and what was
//!    beside them becomes a context. Then words are taken anew, until nothing contradicts the rules.
//!    A contradiction that comes again though its rules went is traced down by both lists of rules, with these and
//!    without, to where outcomes begin to differ.
//! 4. Generators whose powers reach the bound may *run*, that is, have no power that is another word. Contexts with
//!    many more of them are tried, too.
//! 5. Rules become relations between letters by their order: words of letters are taken once more, and two are one if
//!    their normal forms are. The portion follows from the outcomes of normal forms, and cycles are shortened.
//!
//! # The modules, in the order of the search
//!
//! | Module | What it does |
//! |---|---|
//! | `part` | heaps, and what their moves leave |
//! | `heap_words`, `table` | words of generators, their order, and their numbers |
//! | `forms` | normal forms, and their outcomes |
//! | `contexts` | contexts with which rounds begin |
//! | `standard` | standard words, the tree of contexts, and new rules |
//! | `prefixes` | what contexts have in common |
//! | `faults`, `routes`, `joining`, `keeping` | contradictions, and which rules are wrong |
//! | `earlier`, `parting` | contradictions that come again |
//! | `rounds` | round by round, until nothing contradicts the rules |
//! | `lettering`, `portion` | letters, relations and portion |
//! | `learning` | generator by generator, and the text |
//! | `words`, `cycles`, `drafting` | words in order, least cycles, and the texts of presentations on the way |
#![tactic(auto)]

mod contexts;
mod cycles;
mod drafting;
mod earlier;
mod faults;
mod forms;
mod heap_words;
mod joining;
mod keeping;
mod learning;
mod lettering;
mod part;
mod parting;
mod portion;
mod prefixes;
mod rounds;
mod routes;
mod standard;
mod table;
mod words;

pub use cycles::shortened;
pub use drafting::{FoundLines, drafted};
pub use learning::Learner;
pub use part::Scope;
pub use words::{
    ONE, exponent, is_in, is_reducible_at, last_letter, lengthened, order, with_exponent,
};
