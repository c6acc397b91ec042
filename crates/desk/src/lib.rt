//! Many checks in progress at once: the jobs of several clients, one step at a time.
//!
//! What a client is told depends on its own steps alone, but for want of memory:
//! `own_calls_decide`. Open jobs of the same bytes and limit share one check, and each has a count
//! of units of its own.
//!
//! A script is lines that each spell one step of a client (`script`).
#![tactic(auto)]

mod client;
mod cores;
mod deed;
mod desk;
mod event;
mod fault;
mod jobs;
mod laws;
mod line;
mod reply;
mod saying;
mod script;
mod slot;
mod step;
mod tail;

pub use client::{Client, MOST_CLIENTS, MOST_JOBS, PLACES};
pub use desk::Desk;
pub use event::Event;
pub use fault::ScriptFault;
pub use laws::{own_calls_decide, steps_are_the_clients_own};
pub use reply::{Reply, StepFault};
pub use script::read_script;
pub use step::{LARGEST_CLIENT, LARGEST_JOB, Step};
