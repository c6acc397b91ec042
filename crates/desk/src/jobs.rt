//! What is done with jobs, by their places.
ghost use Rattle.std.specs.Prelude.{◌≡◌, ◌<◌, ℕ, None, Some, length, not, false, IsTrue, OnOk, OnErr};
ghost use Rattle.answers.specs.ByteVerdicts.{refused};
ghost use Rattle.answers.specs.ByteVerdicts.ByteVerdict.{Memory as no_memory};
ghost use Rattle.desk.specs.Machine.{fresh, is_free, least_free};
ghost use Rattle.desk.specs.Deeds.{shown_reply, Certifies};
ghost use Rattle.desk.specs.Replies.{reply_of};
ghost use Rattle.desk.specs.Desks.{IsDesk, IsWith, NoneAsFarIn, HaveWorked, jobs_in, job_in, slot_at, slots_of};

use crate::client::{Client, PLACES};
use crate::cores::{core_for, put};
use crate::reply::{Reply, StepFault};
use crate::slot::{Slot, Standing, furthest, go_on, is_held};
use allocation::{Memory, SmallAllocator};
use checker::{Certified, Job, Progress, Refusal, checks_end};

/// Places without a job.
pub(crate) fn nobody() -> [Option<Slot>; PLACES]
    ensures { (i : ℕ) → slot_at result i ≡ None }
{
    [None; PLACES]
}

/// The first number of the client's jobs that is free.
pub(crate) fn free_number(places: &[Option<Slot>; PLACES], client: Client) -> Option<u8>
    ensures { result ≡ least_free (slots_of places.now client) }
{
    if is_free(places, client, 1) {
        return Some(1);
    }
    if is_free(places, client, 2) {
        return Some(2);
    }
    if is_free(places, client, 3) {
        return Some(3);
    }
    if is_free(places, client, 4) {
        return Some(4);
    }
    None
}

/// Whether the client has no job of the number.
fn is_free(places: &[Option<Slot>; PLACES], client: Client, number: u8) -> bool
    ensures { result ≡ is_free (slots_of places.now client number) }
{
    match client.place(number) {
        Some(place) => places[place].is_none(),
        None => true,
    }
}

/// Opens a job at the place, which is free.
pub(crate) fn open_at<A: SmallAllocator + Copy>(
    places: &mut [Option<Slot>],
    cores: &mut Vec<Option<Job<A>>, A>,
    alloc: A,
    place: usize,
    bytes: Vec<u8, A>,
    limit: u32,
) -> Result<(), Memory>
    requires desk { IsDesk places.old cores.old.items }
    requires place { place < length places.old }
    requires free { slot_at places.old place ≡ None }
    ensures desk { IsDesk places.new cores.new.items }
    ensures ok { OnOk result
        (IsWith (jobs_in places.old cores.old.items) place (Some (fresh bytes.items limit))
        (jobs_in places.new cores.new.items)) }
    ensures first { OnErr result
        (NoneAsFarIn (jobs_in places.old cores.old.items) bytes.items limit 0) }
    ensures err { OnErr result
        (jobs_in places.new cores.new.items ≡ jobs_in places.old cores.old.items) }
{
    checks_end();
    let core = core_for(cores, alloc, bytes, limit)?;
    places[place] = Some(Slot {
        core,
        spent: 0,
        standing: Standing::Going,
    });
    Ok(())
}

/// Works the job of the place, if there is one.
pub(crate) fn work_at<A: SmallAllocator + Copy>(
    places: &mut [Option<Slot>],
    cores: &mut Vec<Option<Job<A>>, A>,
    place: usize,
    units: u64,
)
    requires desk { IsDesk places.old cores.old.items }
    requires place { place < length places.old }
    ensures desk { IsDesk places.new cores.new.items }
    ensures worked { HaveWorked (jobs_in places.old cores.old.items) place
        (job_in cores.old.items (slot_at places.old place)) units
        (jobs_in places.new cores.new.items) }
{
    let Some(slot) = places[place] else {
        return;
    };
    let Standing::Going = slot.standing else {
        return;
    };
    let most = furthest(places, slot.core);
    if let Some(core) = &mut cores[slot.core] {
        places[place] = Some(go_on(core, most, slot, units));
    }
}

/// Gives up the job of the place, and its core with the last job of it. Answers whether there was a
/// job.
pub(crate) fn give_up_at<A: SmallAllocator>(
    places: &mut [Option<Slot>],
    cores: &mut Vec<Option<Job<A>>, A>,
    place: usize,
) -> bool
    requires desk { IsDesk places.old cores.old.items }
    requires place { place < length places.old }
    ensures desk { IsDesk places.new cores.new.items }
    ensures free { result ≡ not (is_free (slot_at places.old place)) }
    ensures jobs { IsTrue result
        → IsWith (jobs_in places.old cores.old.items) place None
        (jobs_in places.new cores.new.items) }
    ensures same { (result ≡ false)
        → jobs_in places.new cores.new.items ≡ jobs_in places.old cores.old.items }
{
    let Some(slot) = places[place] else {
        return false;
    };
    places[place] = None;
    if !is_held(places, slot.core) {
        put(cores, slot.core, None);
    }
    true
}

/// The certificate of the job of the place, which has ended with yes.
pub(crate) fn certified_at<'a, A: SmallAllocator>(
    places: &[Option<Slot>],
    cores: &'a Vec<Option<Job<A>>, A>,
    place: usize,
) -> Result<&'a Certified<A>, StepFault>
    requires desk { IsDesk places.now cores.now.items }
    requires place { place < length places.now }
    ensures { Certifies (job_in cores.now.items (slot_at places.now place)) result }
{
    let Some(slot) = places[place] else {
        return Err(StepFault::NoJob);
    };
    let Standing::Ended = slot.standing else {
        return Err(StepFault::NotCertified);
    };
    match &cores[slot.core] {
        Some(core) => match core.progress() {
            Progress::Yes(certified) => Ok(certified),
            Progress::No(_) => Err(StepFault::NotCertified),
            Progress::Going => Err(StepFault::NotCertified),
        },
        None => Err(StepFault::NoJob),
    }
}

/// How the job of the place stands.
pub(crate) fn show_at<'a, A: SmallAllocator>(
    places: &[Option<Slot>],
    cores: &'a Vec<Option<Job<A>>, A>,
    memory: &'a Refusal<A>,
    place: usize,
) -> Reply<'a, A>
    requires desk { IsDesk places.now cores.now.items }
    requires memory { refused memory.now ≡ no_memory }
    requires place { place < length places.now }
    ensures { reply_of result ≡ shown_reply (job_in cores.now.items (slot_at places.now place)) }
{
    let Some(slot) = places[place] else {
        return Reply::Refused(StepFault::NoJob);
    };
    match slot.standing {
        Standing::Going => Reply::Going,
        Standing::OutOfMemory => Reply::No(memory),
        Standing::Ended => match &cores[slot.core] {
            Some(core) => match core.progress() {
                Progress::Yes(certified) => Reply::Yes(certified),
                Progress::No(refusal) => Reply::No(refusal),
                Progress::Going => Reply::Going,
            },
            None => Reply::Refused(StepFault::NoJob),
        },
    }
}
