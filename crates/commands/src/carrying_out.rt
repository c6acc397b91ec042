//! Plans carried out.
ghost use Rattle.std.specs.Prelude.{◌≡◌, Some, false, IfOk, IfErr, OnErr, option_map};
ghost use Rattle.catalogue_command.specs.Tasks.{Leaves};
ghost use Rattle.command_results.specs.Stops.{stop_status};
ghost use Rattle.commands.specs.Causes.{IsCause, describes, failed, reads_input, runs_script, takes_files};
ghost use Rattle.commands.specs.Responses.{RespondsWith, Says, file_written};
ghost use Rattle.description_commands.specs.Described.{form_of};
ghost use Rattle.requests.specs.Requests.{request_of};

use catalogue_command::act;
use command_results::{Noted, Said, Stop};
use description_commands::{compare, describe, present, show};
use descriptions::Form;
use given_quotients::check;
use position_commands::{Question, apart, ask, play_lines};
use requests::Plan;
use solve_command::{certify, series, solve, solve_infinite, solve_lines, solve_many};
use std::alloc::Global;
use streams::{Folder, Source};
use verdict_commands::{
    explain, infinite, play_infinite, play_infinite_lines, show_infinite, tail, verify,
};

/// The form of relations that is asked for.
fn form_of(basis: bool) -> Form
    ensures { result ≡ form_of basis }
{
    if basis { Form::Basis } else { Form::Short }
}

/// What is said of what is planned, which is no script, and told beside it. Every file stays as it
/// is but the one that the plan writes where it ends well; standard input and the files are left
/// alone by the plans that don't read them, and by words that are refused.
pub(crate) fn carry_out<'a, F: Folder, S: Source>(
    alloc: Global,
    plan: Plan<'a>,
    folder: &mut F,
    input: &mut S,
) -> Result<Noted, Stop<'a>>
    requires no_script { runs_script (Some (request_of plan)) ≡ false }
    ensures responds { IfOk result
        (λ n. RespondsWith (S.left input.old) (F.files folder.old) (F.files folder.new)
        (request_of plan.entry) n.said.text.items n.said.succeeds
        (option_map (λ line. line.now) n.note)) }
    ensures leaves { IfOk result
        (λ n. Leaves (file_written (request_of plan.entry) n.said.succeeds) (F.files folder.old)
        (F.files folder.new)) }
    ensures kept { OnErr result (F.files folder.new ≡ F.files folder.old) }
    ensures stops { IfErr result (IsCause (S.left input.old) (request_of plan.entry)
        (failed F.Folder S.Source folder.old input.old)
        (failed F.Folder S.Source folder.new input.new)) }
    ensures usage { IfErr result (λ stop. stop_status stop ≡ 2 → folder.new ≡ folder.old) }
    ensures input { reads_input (Some (request_of plan.entry)) ≡ false → input.new ≡ input.old }
    ensures folder { takes_files (Some (request_of plan.entry)) ≡ false → folder.new ≡ folder.old }
{
    if let Plan::Describe {
        file,
        output,
        basis,
        limit,
    } = plan
    {
        return describe(alloc, file, limit, form_of(basis), output, folder, input);
    }
    match say(alloc, plan, folder, input) {
        Ok(said) => Ok(Noted::plain(said)),
        Err(stop) => Err(stop),
    }
}

/// What is said of what is planned, which is no script and no description.
fn say<'a, F: Folder, S: Source>(
    alloc: Global,
    plan: Plan<'a>,
    folder: &mut F,
    input: &mut S,
) -> Result<Said, Stop<'a>>
    requires no_script { runs_script (Some (request_of plan)) ≡ false }
    requires no_description { describes (Some (request_of plan)) ≡ false }
    ensures says { IfOk result
        (λ s. Says (S.left input.old) (F.files folder.old) (F.files folder.new)
        (request_of plan.entry) s.text.items s.succeeds) }
    ensures leaves { IfOk result
        (λ s. Leaves (file_written (request_of plan.entry) s.succeeds) (F.files folder.old)
        (F.files folder.new)) }
    ensures kept { OnErr result (F.files folder.new ≡ F.files folder.old) }
    ensures stops { IfErr result (IsCause (S.left input.old) (request_of plan.entry)
        (failed F.Folder S.Source folder.old input.old)
        (failed F.Folder S.Source folder.new input.new)) }
    ensures usage { IfErr result (λ stop. stop_status stop ≡ 2 → folder.new ≡ folder.old) }
    ensures input { reads_input (Some (request_of plan.entry)) ≡ false → input.new ≡ input.old }
    ensures folder { takes_files (Some (request_of plan.entry)) ≡ false → folder.new ≡ folder.old }
{
    match plan {
        Plan::Check { file, limit } => check(alloc, file, limit, folder, input),
        Plan::Verify { file, limit } => verify(alloc, file, limit, folder, input),
        Plan::Explain { file } => explain(alloc, file, folder, input),
        Plan::Show { file, limit } => show(alloc, file, limit, folder, input),
        Plan::Tail { file, limit } => tail(alloc, file, limit, folder, input),
        Plan::Play {
            file,
            position,
            limit,
        } => ask(alloc, Question::Play, file, position, limit, folder, input),
        Plan::PlayLines { file, limit } => play_lines(alloc, file, limit, folder, input),
        Plan::Wins {
            file,
            position,
            limit,
        } => ask(alloc, Question::Wins, file, position, limit, folder, input),
        Plan::Value {
            file,
            position,
            limit,
        } => ask(alloc, Question::Value, file, position, limit, folder, input),
        Plan::Apart {
            file,
            first,
            second,
            limit,
        } => apart(alloc, file, first, second, limit, folder, input),
        Plan::Compare {
            first,
            second,
            limit,
        } => compare(alloc, first, second, limit, folder, input),
        Plan::Certify { file, limit } => certify(alloc, file, limit, folder, input),
        Plan::Infinite { file } => infinite(alloc, file, folder, input),
        Plan::ShowInfinite { file, layout } => show_infinite(alloc, file, layout, folder, input),
        Plan::PlayInfinite { file, position } => {
            play_infinite(alloc, file, position, folder, input)
        }
        Plan::PlayInfiniteLines { file } => play_infinite_lines(alloc, file, folder, input),
        Plan::Present { text } => present(alloc, text),
        Plan::Solve { code, bounds } => solve(alloc, code, bounds),
        Plan::SolveMany { codes, bounds } => solve_many(alloc, &codes, bounds),
        Plan::SolveLines { bounds } => solve_lines(alloc, bounds, input),
        Plan::SolveInfinite {
            code,
            heaps,
            presented,
        } => solve_infinite(alloc, code, heaps, presented),
        Plan::Series { code, bounds } => series(alloc, code, bounds),
        Plan::Catalogue { file, task, limit } => act(alloc, folder, file, task, limit),
        Plan::Describe { .. } | Plan::Desk { .. } => unreachable!(),
    }
}
