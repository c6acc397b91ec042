//! One step of a script at the desk.
ghost use Rattle.std.specs.Prelude.{◌≡◌, IfErr, IfOk, string_bytes};
ghost use Rattle.desk.specs.Desks.{state_of};
ghost use Rattle.desk.specs.Replies.{event_of};
ghost use Rattle.desk.specs.Steps.{IsClient, client_of};
ghost use Rattle.desk.specs.Views.{step_of};
ghost use Rattle.desk_command.specs.Calls.{IsCall, call};
ghost use Rattle.desk_command.specs.Scripts.{Takes};
ghost use Rattle.desk_command.specs.Stops.{IsStepCause};

use crate::lines::reply_line;
use crate::stop::{DeskStop, read_front};
use desk::{Client, Desk, Event, Step};
use std::alloc::Global;
use streams::Folder;

/// Whose step it is, and what is asked: a file is read now.
fn asked_by<'a, F: Folder>(folder: &mut F, step: Step<'a>) -> Result<(Client, Event), DeskStop<'a>>
    requires { IsClient (client_of (step_of step)) }
    ensures asked { IfOk result
        (λ asked. IsCall (F.files folder.old) (step_of step.entry)
        (call asked.0 (event_of asked.1))) }
    ensures kept { F.files folder.new ≡ F.files folder.old }
    ensures succeeds { IfOk result (λ _. F.failed_reads folder.new ≡ F.failed_reads folder.old) }
    ensures stops { IfErr result
        (IsStepCause (step_of step.entry) (F.failed_reads folder.old) (F.failed_reads folder.new)) }
{
    match step {
        Step::Open {
            client,
            file,
            limit,
        } => {
            let bytes = read_front(folder, file)?;
            Ok((Client::numbered(client), Event::Open(bytes, limit)))
        }
        Step::Work { client, job, units } => Ok((
            Client::numbered(client),
            Event::Work(job, units),
        )),
        Step::Drop { client, job } => Ok((Client::numbered(client), Event::Drop(job))),
        Step::Ask {
            client,
            job,
            position,
        } => Ok((Client::numbered(client), Event::Ask(job, position))),
        Step::Play {
            client,
            job,
            position,
        } => Ok((Client::numbered(client), Event::Play(job, position))),
    }
}

/// Takes the step at the desk, and gives the line of its reply.
pub(crate) fn take_step<'a, F: Folder>(
    alloc: Global,
    desk: &mut Desk,
    step: Step<'a>,
    folder: &mut F,
) -> Result<String, DeskStop<'a>>
    requires { IsClient (client_of (step_of step)) }
    ensures line { IfOk result
        (λ t. Takes (F.files folder.old) (step_of step.entry) (state_of desk.old)
        (state_of desk.new) (string_bytes t)) }
    ensures kept { F.files folder.new ≡ F.files folder.old }
    ensures succeeds { IfOk result (λ _. F.failed_reads folder.new ≡ F.failed_reads folder.old) }
    ensures stops { IfErr result
        (IsStepCause (step_of step.entry) (F.failed_reads folder.old) (F.failed_reads folder.new)) }
{
    let (client, event) = asked_by(folder, step)?;
    let line = reply_line(alloc, desk.step(client, event))?;
    Ok(line)
}
