//! A worked script of two clients at a desk, with each growth refused in turn.
use crate::certificates::{OF_0_75, RIGHT_UP_TO_8};
use crate::comparing::bound;
use allocation::SmallAllocator;
use desk::{Client, Desk, Event, Reply, Step, read_script};
use devices::Ration;
use player::{Answer, Outcome};
use positions::Left;
use std::alloc::Global;

/// The second client's certificate is right up to heap 8 alone.
const SCRIPT: &[u8] =
    b"open 1 c.mqc 2048\nopen 2 d.mqc 2048\nwork 1 1 0\nwork 2 1 1000000\nask 1 1 1\n\
work 1 1 1000000\nask 1 1 1 9\nplay 1 1 10\nask 2 1 1\ndrop 2 1\nwork 2 1 5\n";

/// What a client is told: of a refusal and of a fault its number, and of a winning move the heap
/// and what is left of it.
#[derive(Clone, Copy, PartialEq, Eq)]
enum Said {
    Opened(u8),
    Going,
    Yes,
    No(u8),
    Dropped,
    Outcome(Outcome),
    Wins(u64, Left),
    Refused(u8),
    Other,
}

static REPLIES: [Said; 11] = [
    Said::Opened(1),
    Said::Opened(1),
    Said::Going,
    Said::No(7),
    Said::Refused(22),
    Said::Yes,
    Said::Outcome(Outcome::P),
    Said::Wins(10, Left::Two(2, 6)),
    Said::Refused(22),
    Said::Dropped,
    Said::Refused(21),
];

fn told<A: SmallAllocator>(reply: Reply<'_, A>) -> Said {
    match reply {
        Reply::Opened(number) => Said::Opened(number),
        Reply::Going => Said::Going,
        Reply::Yes(_) => Said::Yes,
        Reply::No(refusal) => Said::No(refusal.number()),
        Reply::Dropped => Said::Dropped,
        Reply::Outcome(outcome) => Said::Outcome(outcome),
        Reply::Answer(Answer::Wins(winning)) => Said::Wins(winning.heap, winning.left),
        Reply::Answer(_) => Said::Other,
        Reply::Refused(fault) => Said::Refused(fault.number()),
    }
}

/// What a step asks for.
#[derive(Clone, Copy, PartialEq, Eq)]
enum Kind {
    Open,
    Work,
    Ask,
    Drop,
}

/// The client of a step, and what it asks for.
fn kind_of<A: SmallAllocator>(step: &Step<'_, A>) -> (u8, Kind) {
    match step {
        Step::Open { client, .. } => (*client, Kind::Open),
        Step::Work { client, .. } => (*client, Kind::Work),
        Step::Drop { client, .. } => (*client, Kind::Drop),
        Step::Ask { client, .. } => (*client, Kind::Ask),
        Step::Play { client, .. } => (*client, Kind::Ask),
    }
}

/// What is asked to open the file, if there is memory for its bytes.
fn opening<A: SmallAllocator + Copy>(alloc: A, file: &str, limit: u32) -> Option<Event<A>> {
    let text = if file == "c.mqc" {
        OF_0_75
    } else {
        RIGHT_UP_TO_8
    };
    match text.as_bytes().to_vec(alloc) {
        Ok(bytes) => Some(Event::Open(bytes, limit)),
        Err(_) => None,
    }
}

/// What the step asks of the desk, if there is memory for the bytes of the file.
fn event_of<A: SmallAllocator + Copy>(alloc: A, step: Step<'_, A>) -> Option<Event<A>> {
    match step {
        Step::Open { file, limit, .. } => opening(alloc, file, limit),
        Step::Work { job, units, .. } => Some(Event::Work(job, units)),
        Step::Drop { job, .. } => Some(Event::Drop(job)),
        Step::Ask { job, position, .. } => Some(Event::Ask(job, position)),
        Step::Play { job, position, .. } => Some(Event::Play(job, position)),
    }
}

/// What the client is told at the event.
fn told_at<A: SmallAllocator + Copy>(desk: &mut Desk<A>, client: u8, event: Event<A>) -> Said {
    match Client::new(client) {
        Some(client) => told(desk.step(client, event)),
        None => Said::Other,
    }
}

/// What the client is told of the step.
fn take<A: SmallAllocator + Copy>(
    alloc: A,
    desk: &mut Desk<A>,
    client: u8,
    step: Step<'_, A>,
) -> Said {
    match event_of(alloc, step) {
        Some(event) => told_at(desk, client, event),
        None => Said::Other,
    }
}

/// The client to whom a growth was refused, 0 before that, and whether it has a job.
#[derive(Clone, Copy)]
struct Want {
    client: u8,
    has_job: bool,
}

/// What the client in want is told.
fn told_in_want(kind: Kind, has_job: bool) -> Said {
    match kind {
        Kind::Open => Said::Refused(9),
        _ if !has_job => Said::Refused(21),
        Kind::Work => Said::No(9),
        Kind::Ask => Said::Refused(22),
        Kind::Drop => Said::Dropped,
    }
}

impl Want {
    /// What the client is told of its step, if this is its reply in ample memory: the same, unless a
    /// growth was refused to it. Then its job isn't opened, or ends for want of memory and keeps its
    /// number.
    fn wanted(&mut self, client: u8, kind: Kind, reply: Said, has_refused: bool) -> Said {
        if self.client == 0 && has_refused {
            self.client = client;
        }
        if self.client != client {
            return reply;
        }
        let said = told_in_want(kind, self.has_job);
        self.has_job = self.has_job && (kind == Kind::Work || kind == Kind::Ask);
        said
    }
}

/// The memory of a desk, of which a growth may be refused, and ample memory for what steps hold.
#[derive(Clone, Copy)]
struct Room<'a> {
    ample: &'a Ration<Global>,
    ration: &'a Ration<Global>,
}

/// Whether the client is told of the step what is wanted, if this is its reply in ample memory.
fn is_told<'a>(
    room: Room<'a>,
    desk: &mut Desk<&'a Ration<Global>>,
    want: &mut Want,
    step: Step<'_, &'a Ration<Global>>,
    reply: Said,
) -> bool {
    let (client, kind) = kind_of(&step);
    let said = take(room.ample, desk, client, step);
    said == want.wanted(client, kind, reply, room.ration.has_refused())
}

/// Whether all are told what is wanted.
fn are_told<'a>(
    room: Room<'a>,
    desk: &mut Desk<&'a Ration<Global>>,
    steps: Vec<Step<'_, &'a Ration<Global>>, &'a Ration<Global>>,
) -> bool {
    let mut want = Want {
        client: 0,
        has_job: true,
    };
    let mut are_so = steps.len() == REPLIES.len();
    for (step, reply) in steps.into_iter().zip(&REPLIES) {
        are_so &= is_told(room, desk, &mut want, step, *reply);
    }
    are_so
}

/// Whether a desk answers the script so.
fn is_answered(room: Room<'_>) -> bool {
    let mut desk = Desk::new(room.ration);
    match read_script(room.ample, SCRIPT) {
        Ok(steps) => are_told(room, &mut desk, steps),
        Err(_) => false,
    }
}

/// Whether the script is answered so where the growth of this number is refused, and whether it
/// was.
fn answers_with(alloc: Global, refused: u64) -> (bool, bool) {
    let (ample, ration) = (Ration::new(alloc, 0), Ration::new(alloc, refused));
    let is_answered = is_answered(Room {
        ample: &ample,
        ration: &ration,
    });
    (is_answered, ration.has_refused())
}

/// The first growth that the script doesn't need, if it is answered so at each before, and else 0.
fn first_not_needed(alloc: Global) -> u64 {
    for n in 1..10000u64 {
        match answers_with(alloc, n) {
            (true, false) => return n,
            (true, true) => {}
            _ => return 0,
        }
    }
    0
}

#[test]
fn answers_the_worked_script_in_want_of_memory(rt: HostRuntime) {
    bound(&rt, "growths", first_not_needed(rt.alloc()), 21, 10000);
}
