//! What `catalogue` asks for with its arguments.
ghost use Rattle.std.specs.Prelude.{◌≡◌, None, Some, false, IfOk, IfErr, codes};
ghost use Rattle.command_line.specs.Plans.{TaskHasNumbersWithin};
ghost use Rattle.command_line.specs.Refusals.{Answers, IsMistake};
ghost use Rattle.command_line.specs.Requests.{arguments_of, asks_for_more, catalogue, catalogue_conflicts, is_set};
ghost use Rattle.command_line.specs.Requests.{task_in};
ghost use Rattle.requests.specs.Requests.{catalogue_request_of};

use crate::arguments::{flag, needed, number, value};
use crate::faults::{Exclusion, UsageFault};
use crate::numbers::Quantity;
use clap::ArgMatches;
use requests::{CatalogueTask, Plan};

/// What is asked of a catalogue where no table is.
fn entries_task<'a>(given: &ArgMatches<'a>) -> Result<CatalogueTask<'a>, UsageFault>
    requires table { is_set (codes "table") (arguments_of given.now) ≡ false }
    requires json { is_set (codes "json") (arguments_of given.now) ≡ false }
    ensures task { IfOk result (λ task. task_in (arguments_of given.now)
        ≡ Some (catalogue_request_of task)) }
    ensures numbers { IfOk result TaskHasNumbersWithin }
    ensures apart { IfOk result (λ _. catalogue_conflicts (arguments_of given.now) ≡ false) }
    ensures none { IfErr result (λ _. task_in (arguments_of given.now) ≡ None) }
    ensures mistake { IfErr result (IsMistake catalogue (arguments_of given.now)) }
{
    let is_new = flag(given, "new");
    let salvages = flag(given, "salvage");
    let migrates = flag(given, "migrate");
    let heaps = value(given, "heaps");
    match (
        is_new,
        salvages,
        migrates,
        value(given, "add"),
        value(given, "get"),
        heaps,
    ) {
        (false, false, false, None, None, None) => Ok(CatalogueTask::Print),
        (true, false, false, None, None, None) => Ok(CatalogueTask::New),
        (false, false, false, Some(certificate), None, None) => Ok(CatalogueTask::Add(certificate)),
        (true, false, false, Some(certificate), None, None) => {
            Ok(CatalogueTask::NewWith(certificate))
        }
        (false, false, false, None, Some(code), _) => {
            let heaps = number(given, Quantity::Part)?;
            Ok(CatalogueTask::Get { code, heaps })
        }
        (false, true, false, None, None, None) => Ok(CatalogueTask::Salvage),
        (false, false, true, None, None, None) => Ok(CatalogueTask::Migrate),
        _ => Err(UsageFault::Exclusive(Exclusion::Catalogue)),
    }
}

/// Whether a task is asked for besides a table.
fn asks_for_more(given: &ArgMatches<'_>) -> bool
    ensures { result ≡ asks_for_more (arguments_of given.now) }
{
    flag(given, "new")
        || flag(given, "salvage")
        || flag(given, "migrate")
        || value(given, "add").is_some()
        || value(given, "get").is_some()
        || value(given, "heaps").is_some()
}

/// What is asked of a catalogue.
fn catalogue_task<'a>(given: &ArgMatches<'a>) -> Result<CatalogueTask<'a>, UsageFault>
    ensures task { IfOk result (λ task. task_in (arguments_of given.now)
        ≡ Some (catalogue_request_of task)) }
    ensures numbers { IfOk result TaskHasNumbersWithin }
    ensures apart { IfOk result (λ _. catalogue_conflicts (arguments_of given.now) ≡ false) }
    ensures none { IfErr result (λ _. task_in (arguments_of given.now) ≡ None) }
    ensures mistake { IfErr result (IsMistake catalogue (arguments_of given.now)) }
{
    match (flag(given, "table"), flag(given, "json")) {
        (false, false) => entries_task(given),
        (true, json) if !asks_for_more(given) => Ok(CatalogueTask::Table { json }),
        _ => Err(UsageFault::Exclusive(Exclusion::Catalogue)),
    }
}

pub fn catalogue_plan<'a>(given: &ArgMatches<'a>) -> Result<Plan<'a>, UsageFault>
    ensures { Answers catalogue (arguments_of given.now) result }
{
    let file = needed(given, "file")?;
    let task = catalogue_task(given)?;
    let limit = number(given, Quantity::Limit)?;
    Ok(Plan::Catalogue { file, task, limit })
}
