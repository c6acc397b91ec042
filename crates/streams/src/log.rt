//! A log that only clauses read.
ghost use Rattle.std.specs.Prelude.{◌≡◌, [], ◌∷◌};

use crate::chain::Chain;
use std::marker::Model;
use std::mem;
use std::snapshot::Snapshot;

/// All that was noted, the latest first, which only clauses read: it takes no bytes.
#[derive(Drop)]
pub struct Log<T> {
    noted: Snapshot<Chain<T>>,
}

impl<T> Model for Log<T> {
    ghost use Rattle.std.specs.Prelude.{List};

    ghost Value = { List T };

    ghost use Rattle.streams.specs.Entries.{entries};

    ghost view = { λ log. entries log.noted.value };
}

impl<T> Log<T> {
    /// Nothing was noted yet.
    pub fn new() -> Log<T>
        ensures { result ≡ [] }
    {
        Log {
            noted: Snapshot::of(&Chain::Empty),
        }
    }

    /// One entry more.
    pub fn note(&mut self, entry: &T)
        ensures { self.new ≡ entry.now ∷ self.old }
    {
        let before = mem::replace(&mut self.noted, Snapshot::of(&Chain::Empty));
        self.noted = Snapshot::of(&Chain::Noted(Snapshot::of(entry), before));
    }
}
