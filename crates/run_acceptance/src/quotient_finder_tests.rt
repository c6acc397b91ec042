//! Proposers that lie, that learn nothing and that give nothing, and what a search tells them.
ghost use Rattle.std.specs.Prelude.{◌≡◌};

use crate::certificates::{OF_0_3, OF_0_75, PART_OF_0_75, RIGHT_UP_TO_8, is_spelled};
use crate::rows::{Row, count_held};
use allocation::Memory;
use checker::Refusal;
use octal_code::Code;
use quotient_finder::{GaveUp, History, Limits, Proposer, find};
use std::alloc::Global;

/// The code that the proposers are asked for.
const ASKED: &[u8] = b"0.75";

/// What a proposer answers when it is asked.
#[derive(Clone, Copy)]
enum Habit {
    /// This text, each time.
    Always(&'static str),
    /// So many zeros, and one more each time.
    Longer(usize),
    /// No draft.
    Never,
    /// Want of memory.
    Wanting,
}

const RIGHT: Habit = Habit::Always(OF_0_75);

/// The quotient of another code.
const OTHER: Habit = Habit::Always(OF_0_3);

/// The quotient of a part of 0.75.
const PART: Habit = Habit::Always(PART_OF_0_75);

/// A claim about 0.75 that is wrong from heap 9 on.
const WRONG: Habit = Habit::Always(RIGHT_UP_TO_8);

/// A proposer of one habit, which counts what it is asked and told. Asked for another code, it
/// drafts its counts.
#[derive(Drop)]
struct Counting {
    alloc: Global,
    habit: Habit,
    asked: u8,
    told: u8,
    last: u8,
    history: History,
}

impl Counting {
    fn draft(&self) -> Result<Option<Vec<u8>>, Memory> {
        match self.habit {
            Habit::Always(text) => Ok(Some(text.as_bytes().to_vec(self.alloc)?)),
            Habit::Longer(n) => Ok(Some(vec![in self.alloc; b'0'; n]?)),
            Habit::Never => Ok(None),
            Habit::Wanting => Err(Memory),
        }
    }

    fn reply(&mut self, code: &Code) -> Result<Option<Vec<u8>>, Memory>
        ensures { self.new.history ≡ self.old.history }
    {
        if code.digit(1) != 7 {
            return Ok(Some(vec![in self.alloc; self.asked, self.told, self.last]?));
        }
        self.asked = self.asked.saturating_add(1);
        let draft = self.draft();
        if let Habit::Longer(n) = self.habit {
            self.habit = Habit::Longer(n.saturating_add(1));
        }
        draft
    }
}

impl Proposer for Counting {
    ghost history = { λ c. c.history.events };

    fn propose(&mut self, code: &Code) -> Result<Option<Vec<u8>>, Memory> {
        let reply = self.reply(code);
        self.history.asked(&reply);
        reply
    }

    fn learn(&mut self, refusal: &Refusal) -> Result<(), Memory> {
        self.history.told(refusal);
        self.told = self.told.saturating_add(1);
        self.last = refusal.number();
        Ok(())
    }
}

/// Adds a proposer of this habit.
fn put_proposer(
    alloc: Global,
    proposers: &mut Vec<Box<dyn Proposer>>,
    habit: Habit,
) -> Result<(), Memory> {
    let counting = Counting {
        alloc,
        habit,
        asked: 0,
        told: 0,
        last: 0,
        history: History::new(),
    };
    proposers.push(Box::new(alloc, counting)?)?;
    Ok(())
}

/// Adds proposers of these habits.
fn put_proposers(
    alloc: Global,
    proposers: &mut Vec<Box<dyn Proposer>>,
    habits: &[Habit],
) -> Result<(), Memory> {
    for habit in habits {
        put_proposer(alloc, proposers, *habit)?;
    }
    Ok(())
}

/// How often a proposer was asked and told, and the number that it was told last.
type Counts = [u8; 3];

/// Whether the counts are reported.
fn are_reported(report: &Option<Vec<u8>>, counts: &Counts) -> bool {
    match report {
        Some(told) => told.as_slice() == counts.as_slice(),
        None => false,
    }
}

/// Whether these are a proposer's counts.
fn has_counted(proposer: &mut Box<dyn Proposer>, report: &Code, counts: &Counts) -> bool {
    match proposer.propose(report) {
        Ok(told) => are_reported(&told, counts),
        Err(_) => false,
    }
}

/// Whether these are the counts of the proposers, one after the other.
fn each_has_counted(
    proposers: &mut Vec<Box<dyn Proposer>>,
    report: &Code,
    counts: &[Counts],
) -> bool {
    for (proposer, wanted) in proposers.iter_mut().zip(counts) {
        if !has_counted(proposer, report, wanted) {
            return false;
        }
    }
    true
}

/// Whether these are the proposers' counts.
fn have_counted(proposers: &mut Vec<Box<dyn Proposer>>, counts: &[Counts]) -> bool {
    match Code::read(b"0.1") {
        Ok(report) => {
            proposers.len() == counts.len() && each_has_counted(proposers, &report, counts)
        }
        Err(_) => false,
    }
}

/// Whether a search through the proposers ends so: that it finds the quotient of 0.75, or why it
/// gives up.
fn ends_so(
    alloc: Global,
    code: &Code,
    proposers: &mut Vec<Box<dyn Proposer>>,
    limits: Limits,
    end: Result<bool, GaveUp>,
) -> bool {
    match find(alloc, code, 0, proposers, limits) {
        Ok(certified) => end == Ok(is_spelled(alloc, certified.cert(), OF_0_75)),
        Err(why) => end == Err(why),
    }
}

/// The habits of proposers, the rounds and the members of a check, how a search through them ends,
/// and their counts.
struct Searched(
    &'static [Habit],
    (u32, u32),
    Result<bool, GaveUp>,
    &'static [Counts],
);

/// Whether a search through these proposers ends as in the row, with the counts of the row.
fn searches(alloc: Global, proposers: &mut Vec<Box<dyn Proposer>>, row: &Searched) -> bool {
    let Searched(_, (rounds, members), end, counts) = *row;
    let limits = Limits { rounds, members };
    match Code::read(ASKED) {
        Ok(code) => {
            ends_so(alloc, &code, proposers, limits, end) && have_counted(proposers, counts)
        }
        Err(_) => false,
    }
}

impl Row for Searched {
    fn holds(&self, alloc: Global) -> bool {
        let mut proposers: Vec<Box<dyn Proposer>> = Vec::new(alloc);
        put_proposers(alloc, &mut proposers, self.0).is_ok()
            && searches(alloc, &mut proposers, self)
    }
}

/// The members of most checks.
const MEMBERS: u32 = 100000;

static ROWS: [Searched; 15] = [
    Searched(&[], (0, MEMBERS), Err(GaveUp::Empty), &[]),
    Searched(&[], (3, MEMBERS), Err(GaveUp::Empty), &[]),
    Searched(&[RIGHT], (0, MEMBERS), Err(GaveUp::Rounds), &[[0, 0, 0]]),
    Searched(&[WRONG], (3, MEMBERS), Err(GaveUp::Rounds), &[[3, 3, 7]]),
    Searched(
        &[Habit::Never],
        (3, MEMBERS),
        Err(GaveUp::Empty),
        &[[1, 0, 0]],
    ),
    Searched(
        &[Habit::Never],
        (1, MEMBERS),
        Err(GaveUp::Empty),
        &[[1, 0, 0]],
    ),
    Searched(
        &[WRONG, Habit::Never],
        (3, MEMBERS),
        Err(GaveUp::Rounds),
        &[[3, 3, 7], [3, 0, 0]],
    ),
    Searched(
        &[Habit::Wanting],
        (3, MEMBERS),
        Err(GaveUp::Memory),
        &[[1, 0, 0]],
    ),
    Searched(
        &[Habit::Longer(5_000_000)],
        (2, MEMBERS),
        Err(GaveUp::Rounds),
        &[[2, 2, 1]],
    ),
    Searched(&[OTHER], (2, MEMBERS), Err(GaveUp::Rounds), &[[2, 0, 0]]),
    Searched(
        &[Habit::Always("x"), OTHER, RIGHT, WRONG],
        (2, MEMBERS),
        Ok(true),
        &[[1, 1, 1], [1, 0, 0], [1, 0, 0], [0, 0, 0]],
    ),
    Searched(&[PART], (2, MEMBERS), Err(GaveUp::Rounds), &[[2, 0, 0]]),
    Searched(&[RIGHT], (1, MEMBERS), Ok(true), &[[1, 0, 0]]),
    Searched(&[RIGHT], (2, 8), Err(GaveUp::Rounds), &[[2, 2, 8]]),
    Searched(&[OTHER], (2, 2), Err(GaveUp::Rounds), &[[2, 2, 8]]),
];

/// Whether the reasons have their numbers.
fn are_numbered() -> bool {
    GaveUp::Rounds.number() == 1 && GaveUp::Empty.number() == 2 && GaveUp::Memory.number() == 9
}

#[test]
fn finds_or_gives_up(rt: HostRuntime) {
    assert!(rt; count_held(rt.alloc(), &ROWS) == 15 && are_numbered());
}

/// Whether one round of these proposers, asked for the heaps 1 to `heaps` of 0.75, finds the
/// certificate of the text, or where it is empty all rounds are spent.
fn finds_a_part(alloc: Global, heaps: u64, habits: &[Habit], text: &str) -> bool {
    let mut proposers: Vec<Box<dyn Proposer>> = Vec::new(alloc);
    let limits = Limits {
        rounds: 1,
        members: MEMBERS,
    };
    let Ok(code) = Code::read(ASKED) else {
        return false;
    };
    if put_proposers(alloc, &mut proposers, habits).is_err() {
        return false;
    }
    match find(alloc, &code, heaps, &mut proposers, limits) {
        Ok(certified) => is_spelled(alloc, certified.cert(), text),
        Err(why) => text.is_empty() && why == GaveUp::Rounds,
    }
}

#[test]
fn finds_the_kind_that_is_asked(rt: HostRuntime) {
    let alloc = rt.alloc();
    assert!(rt; finds_a_part(alloc, 8, &[RIGHT, PART], PART_OF_0_75));
    assert!(rt; finds_a_part(alloc, 0, &[PART, RIGHT], OF_0_75));
    assert!(rt; finds_a_part(alloc, 7, &[RIGHT, PART], "") && finds_a_part(alloc, 9, &[PART], ""));
}
