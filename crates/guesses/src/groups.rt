//! Groups of sampled positions.
use allocation::Memory;
use positions::{Outcome, Position};
use std::alloc::Global;

/// The letters of the kinds of heaps.
pub(crate) const ALPHABET: &[u8] = b"abcdefghijklmnopqrstuvwxyz";

/// What is known of the outcomes of a position beside each context.
pub(crate) type Row = Vec<Option<Outcome>>;

/// The first position found of a group.
#[derive(Drop)]
pub(crate) struct Member {
    pub position: Position,
    /// The kinds of its heaps, as letters.
    pub word: Vec<u8>,
    /// Its outcomes.
    pub row: Row,
}

/// Positions of which no two are alike, and what a heap more makes of them.
#[derive(Drop)]
pub(crate) struct Groups {
    /// A position of each group.
    pub members: Vec<Member>,
    /// The group of each heap, from 1.
    pub heaps: Vec<usize>,
    /// The heaps that are like no product of smaller ones. The kinds of heaps are these.
    pub kinds: Vec<u64>,
    /// The group of each group with a heap of each kind more, one group's behind the other's.
    pub with: Vec<usize>,
}

/// The position of these heaps.
pub(crate) fn position_of(alloc: Global, heaps: &[u64]) -> Result<Position, Memory> {
    let mut position = Position::new(alloc);
    for heap in heaps {
        if 0 < *heap && *heap <= positions::LARGEST_HEAP {
            position.push(*heap)?;
        }
    }
    Ok(position)
}

/// A word and a letter behind it.
fn lengthened(alloc: Global, word: &[u8], letter: u8) -> Result<Vec<u8>, Memory> {
    let mut longer = Vec::new(alloc);
    longer.extend_from_slice(word)?;
    longer.push(letter)?;
    Ok(longer)
}

impl Groups {
    /// There is none yet.
    pub fn new(alloc: Global) -> Groups {
        Groups {
            members: Vec::new(alloc),
            heaps: Vec::new(alloc),
            kinds: Vec::new(alloc),
            with: Vec::new(alloc),
        }
    }

    /// The first group with these outcomes.
    pub fn find(&self, row: &[Option<Outcome>]) -> Option<usize> {
        self.members.iter().position(|known| agree(&known.row, row))
    }

    /// The group of a group with a heap of a kind more, where it was found.
    pub fn with(&self, at: usize, k: usize) -> Option<usize> {
        let place = self.kinds.len().saturating_mul(at).saturating_add(k);
        self.with.get(place).copied()
    }

    /// The position of a group with a heap of a kind more.
    pub fn longer_position(
        &self,
        alloc: Global,
        at: usize,
        k: usize,
    ) -> Result<Option<Position>, Memory> {
        let (Some(shorter), Some(kind)) = (self.members.get(at), self.kinds.get(k)) else {
            return Ok(None);
        };
        let heap = position_of(alloc, &[*kind])?;
        let longer = shorter.position.add(&heap)?;
        Ok(Some(longer))
    }

    /// The word of a group with the letter of a kind more.
    pub fn longer_word(
        &self,
        alloc: Global,
        at: usize,
        k: usize,
    ) -> Result<Option<Vec<u8>>, Memory> {
        match (self.members.get(at), ALPHABET.get(k)) {
            (Some(shorter), Some(letter)) => Ok(Some(lengthened(alloc, &shorter.word, *letter)?)),
            _ => Ok(None),
        }
    }

    /// Adds a group, of a group's position with a heap of a kind more, and answers its number.
    pub fn add_longer(
        &mut self,
        alloc: Global,
        at: usize,
        k: usize,
        position: Position,
        row: Row,
    ) -> Result<Option<usize>, Memory> {
        match self.longer_word(alloc, at, k)? {
            Some(word) => {
                let group = self.members.len();
                self.members.push(Member {
                    position,
                    word,
                    row,
                })?;
                Ok(Some(group))
            }
            None => Ok(None),
        }
    }
}

/// Whether two rows have the same outcomes, as far as they are known.
fn agree(x: &[Option<Outcome>], y: &[Option<Outcome>]) -> bool {
    x.iter().zip(y).all(|(a, b)| match (*a, *b) {
        (Some(p), Some(q)) => p == q,
        _ => true,
    })
}
