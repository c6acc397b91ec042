//! The desk.
use crate::client::{Client, PLACES};
use crate::deed::Deed;
use crate::event::Event;
use crate::jobs::{certified_at, free_number, give_up_at, nobody, open_at, show_at, work_at};
use crate::reply::{Reply, StepFault};
use crate::saying::{answer_deed, outcome_deed};
use crate::slot::Slot;
use allocation::SmallAllocator;
use checker::{Certified, Job, Refusal};
use positions::Position;
use std::alloc::Global;
use std::marker::Model;

/// The jobs of the clients, seen as the machine's state. Open jobs of the same bytes and
/// limit share one check, so the desk takes the memory of its different checks.
#[derive(Drop)]
pub struct Desk<A: SmallAllocator = Global> {
    alloc: A,
    places: [Option<Slot>; PLACES],
    cores: Vec<Option<Job<A>>, A>,
    memory: Refusal<A>,
}

impl<A: SmallAllocator> Model for Desk<A> {
    ghost use Rattle.std.specs.Prelude.{◌≡◌, List, Option};
    ghost use Rattle.answers.specs.ByteVerdicts.{refused};
    ghost use Rattle.answers.specs.ByteVerdicts.ByteVerdict.{Memory};
    ghost use Rattle.checker.specs.JobViews.{JobView};
    ghost use Rattle.desk.specs.Desks.{IsDesk, jobs_in};

    ghost Value = { List (Option JobView) };

    ghost view = { λ d. jobs_in d.places d.cores.items };

    ghost invariant = { λ d. IsDesk d.places d.cores.items × (refused d.memory ≡ Memory) };
}

impl<A: SmallAllocator + Copy> Desk<A> {
    ghost use Rattle.std.specs.Prelude.{◌≡◌, ℕ, None};
    ghost use Rattle.std.specs.Borrow.{sem};
    ghost use Rattle.std.specs.Io.BufRead.{Rests};
    ghost use Rattle.check_machine.specs.Turns.{cost, verdict};
    ghost use Rattle.desk.specs.contracts.desk.Desk.{the_row};
    ghost use Rattle.desk.specs.Machine.{Step};
    ghost use Rattle.desk.specs.Machine.Event.{Open, Work, Drop, Ask, Play};
    ghost use Rattle.desk.specs.Desks.{state_of, IsStep, IsServed};
    ghost use Rattle.desk.specs.Deeds.{meant};
    ghost use Rattle.desk.specs.Replies.{event_of, reply_of};

    /// A desk without jobs. It takes no memory.
    pub fn new(alloc: A) -> Desk<A>
        ensures { (client number : ℕ) → state_of result client number ≡ None }
    {
        Desk {
            alloc,
            places: nobody(),
            cores: Vec::new(alloc),
            memory: Refusal::Memory,
        }
    }

    /// One step of a client: a step of the machine. It acts on one job of that client, and every
    /// other client's jobs stay. Only `Open` and `Work` may take memory, and not where another job
    /// of the same bytes and limit, which memory wasn't wanting to, is as far. Want of it in `Work`
    /// ends that job alone, and its reply is a refusal of the number 9 from then on.
    pub fn step(&mut self, client: Client, event: Event<A>) -> Reply<'_, A>
        ensures* step { sem 𝓛 (Rests (the_row A.row A.Allocator) self.entry
            (λ new. Step cost verdict (state_of self.old)
            (record { client = client; event = event_of event }) (reply_of result)
            (state_of new))) }
    {
        let deed = self.act(client, event);
        self.reply(client, deed)
    }

    /// Does what the client asks.
    fn act(&mut self, client: Client, event: Event<A>) -> Deed
        ensures { IsStep self.old client (event_of event) (meant (state_of self.new client) result)
            self.new }
    {
        match event {
            Event::Open(bytes, limit) => self.open(client, bytes, limit),
            Event::Work(number, units) => self.work(client, number, units),
            Event::Drop(number) => self.give_up(client, number),
            Event::Ask(number, position) => self.ask(client, number, &position),
            Event::Play(number, position) => self.play(client, number, &position),
        }
    }

    /// Opens a job.
    fn open(&mut self, client: Client, bytes: Vec<u8, A>, limit: u32) -> Deed
        ensures { IsStep self.old client (Open bytes.items limit)
            (meant (state_of self.new client) result) self.new }
    {
        let Some(number) = free_number(&self.places, client) else {
            return Deed::Refused(StepFault::Full);
        };
        let Some(place) = client.place(number) else {
            return Deed::Refused(StepFault::Full);
        };
        match open_at(
            &mut self.places,
            &mut self.cores,
            self.alloc,
            place,
            bytes,
            limit,
        ) {
            Ok(()) => return Deed::Opened(number),
            Err(_) => return Deed::Refused(StepFault::Memory),
        }
    }

    /// Works a job.
    fn work(&mut self, client: Client, number: u8, units: u64) -> Deed
        ensures { IsStep self.old client (Work number units)
            (meant (state_of self.new client) result) self.new }
    {
        if let Some(place) = client.place(number) {
            work_at(&mut self.places, &mut self.cores, place, units);
        }
        Deed::Shown(number)
    }

    /// Gives a job up.
    fn give_up(&mut self, client: Client, number: u8) -> Deed
        ensures { IsStep self.old client (Drop number) (meant (state_of self.new client) result)
            self.new }
    {
        let Some(place) = client.place(number) else {
            return Deed::Refused(StepFault::NoJob);
        };
        if !give_up_at(&mut self.places, &mut self.cores, place) {
            return Deed::Refused(StepFault::NoJob);
        }
        Deed::Dropped
    }

    /// Asks a job for the outcome of a position.
    fn ask(&self, client: Client, number: u8, position: &Position<A>) -> Deed
        ensures { IsServed (state_of self.now client) (Ask number position.now)
            (meant (state_of self.now client) result) }
    {
        match self.certified(client, number) {
            Ok(certified) => outcome_deed(certified, position),
            Err(fault) => Deed::Refused(fault),
        }
    }

    /// Asks a job what to play in a position.
    fn play(&self, client: Client, number: u8, position: &Position<A>) -> Deed
        ensures { IsServed (state_of self.now client) (Play number position.now)
            (meant (state_of self.now client) result) }
    {
        match self.certified(client, number) {
            Ok(certified) => answer_deed(certified, position),
            Err(fault) => Deed::Refused(fault),
        }
    }
}

impl<A: SmallAllocator> Desk<A> {
    ghost use Rattle.std.specs.Prelude.{◌≡◌};
    ghost use Rattle.desk.specs.Desks.{state_of};
    ghost use Rattle.desk.specs.Deeds.{meant, Certifies};
    ghost use Rattle.desk.specs.Replies.{reply_of};

    /// The certificate of a job that has ended with yes.
    fn certified(&self, client: Client, number: u8) -> Result<&Certified<A>, StepFault>
        ensures { Certifies (state_of self.now client number) result }
    {
        match client.place(number) {
            Some(place) => certified_at(&self.places, &self.cores, place),
            None => Err(StepFault::NoJob),
        }
    }

    /// The reply to what was done.
    fn reply(&self, client: Client, deed: Deed) -> Reply<'_, A>
        ensures { reply_of result ≡ meant (state_of self.now client) deed }
    {
        match deed {
            Deed::Opened(number) => Reply::Opened(number),
            Deed::Shown(number) => self.show(client, number),
            Deed::Dropped => Reply::Dropped,
            Deed::Outcome(outcome) => Reply::Outcome(outcome),
            Deed::Answer(answer) => Reply::Answer(answer),
            Deed::Refused(fault) => Reply::Refused(fault),
        }
    }

    /// How a job stands.
    fn show(&self, client: Client, number: u8) -> Reply<'_, A>
        ensures { reply_of result ≡ meant (state_of self.now client) (Deed.Shown number) }
    {
        let Some(place) = client.place(number) else {
            return Reply::Refused(StepFault::NoJob);
        };
        show_at(&self.places, &self.cores, &self.memory, place)
    }
}
