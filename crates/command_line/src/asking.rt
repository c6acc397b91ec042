//! What each command asks for with its arguments.
ghost use Rattle.std.specs.Prelude.{◌≡◌, ◌≢◌, None, Some, false, IfOk, IfErr, codes, is_some, option_map};
ghost use Rattle.command_line.specs.Plans.{HasNumbersWithin};
ghost use Rattle.command_line.specs.Refusals.{Answers, IsMistake, IsMistakeIn, conflicts_in};
ghost use Rattle.command_line.specs.Requests.{arguments_of, certify, check, compare, describe, describe_conflicts, desk, explain, infinite, is_relational, is_set, layout_conflicts, layout_in, output_in, play};
ghost use Rattle.command_line.specs.Requests.{relational_conflicts, relational_in};
ghost use Rattle.command_line.specs.Requests.{apart, present, request_in, show, tail, value, verify};
ghost use Rattle.command_line.specs.Requests.{explain_conflicts, word_given, word_in, word_request_of};
ghost use Rattle.command_line.specs.Wanted.{IsAskedIn};
ghost use Rattle.requests.specs.Requests.{request_of};

use crate::arguments::{flag, named_by, needed, number, value};
use crate::faults::{Exclusion, UsageFault};
use crate::keeping::catalogue_plan;
use crate::numbers::Quantity;
use crate::solving::{series_plan, solve_plan};
use crate::wanted::{Asked, ExplainedWord};
use clap::ArgMatches;
use requests::{Layout, Output, Plan};
use std::alloc::Global;

fn check_plan<'a>(given: &ArgMatches<'a>) -> Result<Plan<'a>, UsageFault>
    ensures { Answers check (arguments_of given.now) result }
{
    let file = named_by(value(given, "file"));
    let limit = number(given, Quantity::Limit)?;
    Ok(Plan::Check { file, limit })
}

fn verify_plan<'a>(given: &ArgMatches<'a>) -> Result<Plan<'a>, UsageFault>
    ensures { Answers verify (arguments_of given.now) result }
{
    let file = named_by(value(given, "file"));
    let limit = number(given, Quantity::Limit)?;
    Ok(Plan::Verify { file, limit })
}

fn show_plan<'a>(given: &ArgMatches<'a>) -> Result<Plan<'a>, UsageFault>
    ensures { Answers show (arguments_of given.now) result }
{
    let file = named_by(Some(needed(given, "file")?));
    let limit = number(given, Quantity::Limit)?;
    Ok(Plan::Show { file, limit })
}

fn tail_plan<'a>(given: &ArgMatches<'a>) -> Result<Plan<'a>, UsageFault>
    ensures { Answers tail (arguments_of given.now) result }
{
    let file = named_by(Some(needed(given, "file")?));
    let limit = number(given, Quantity::Limit)?;
    Ok(Plan::Tail { file, limit })
}

/// What is to be printed of a quotient by its relations, where it is asked for by none of `--gap-table`, `--structure`
/// and `--presentation`.
fn relational(given: &ArgMatches<'_>) -> Result<Output, UsageFault>
    requires table { is_set (codes "gap-table") (arguments_of given.now) ≡ false }
    requires structure { is_set (codes "structure") (arguments_of given.now) ≡ false }
    requires presentation { is_set (codes "presentation") (arguments_of given.now) ≡ false }
    ensures output { IfOk result (λ o. relational_in (arguments_of given.now) ≡ Some o) }
    ensures apart { IfOk result (λ _. relational_conflicts (arguments_of given.now) ≡ false) }
    ensures none { IfErr result (λ _. relational_in (arguments_of given.now) ≡ None) }
    ensures mistake { IfErr result (IsMistake describe (arguments_of given.now)) }
{
    match (
        flag(given, "latex"),
        flag(given, "relations"),
        flag(given, "json"),
        flag(given, "singular"),
        flag(given, "gap"),
    ) {
        (false, false, false, false, false) => Ok(Output::Description),
        (true, false, false, false, false) => Ok(Output::Latex),
        (false, true, false, false, false) => Ok(Output::Relations),
        (false, false, true, false, false) => Ok(Output::Json),
        (false, false, false, true, false) => Ok(Output::Singular),
        (false, false, false, false, true) => Ok(Output::Gap),
        (true, true, false, false, false) => { Err(UsageFault::Exclusive(Exclusion::Description)) }
        _ => Err(UsageFault::Exclusive(Exclusion::Outputs)),
    }
}

/// Whether something is asked for that is printed by the relations.
fn is_relational(given: &ArgMatches<'_>) -> bool
    ensures { result ≡ is_relational (arguments_of given.now) }
{
    flag(given, "latex")
        || flag(given, "relations")
        || flag(given, "json")
        || flag(given, "singular")
        || flag(given, "gap")
}

/// What is to be printed of a quotient.
fn output(given: &ArgMatches<'_>) -> Result<Output, UsageFault>
    ensures output { IfOk result (λ o. output_in (arguments_of given.now) ≡ Some o) }
    ensures apart { IfOk result (λ _. describe_conflicts (arguments_of given.now) ≡ false) }
    ensures none { IfErr result (λ _. output_in (arguments_of given.now) ≡ None) }
    ensures mistake { IfErr result (IsMistake describe (arguments_of given.now)) }
{
    match (
        flag(given, "gap-table"),
        flag(given, "structure"),
        flag(given, "presentation"),
        is_relational(given),
    ) {
        (false, false, false, _) => relational(given),
        (true, false, false, false) => Ok(Output::GapTable),
        (false, true, false, false) => Ok(Output::Structure),
        (false, false, true, false) => Ok(Output::Presentation),
        _ => Err(UsageFault::Exclusive(Exclusion::Outputs)),
    }
}

fn describe_plan<'a>(given: &ArgMatches<'a>) -> Result<Plan<'a>, UsageFault>
    ensures { Answers describe (arguments_of given.now) result }
{
    let file = named_by(value(given, "file"));
    let output = output(given)?;
    let basis = flag(given, "basis");
    let limit = number(given, Quantity::Limit)?;
    Ok(Plan::Describe {
        file,
        output,
        basis,
        limit,
    })
}

fn play_plan<'a>(given: &ArgMatches<'a>) -> Result<Plan<'a>, UsageFault>
    ensures { Answers play (arguments_of given.now) result }
{
    let file = named_by(Some(needed(given, "file")?));
    let position = needed(given, "position")?;
    let limit = number(given, Quantity::Limit)?;
    match (position, flag(given, "all"), file) {
        ("-", true, _) => Err(UsageFault::Exclusive(Exclusion::All)),
        ("-", false, Some(file)) => Ok(Plan::PlayLines { file, limit }),
        ("-", false, None) => Err(UsageFault::Exclusive(Exclusion::Play)),
        (position, true, file) => Ok(Plan::Wins {
            file,
            position,
            limit,
        }),
        (position, false, file) => Ok(Plan::Play {
            file,
            position,
            limit,
        }),
    }
}

fn value_plan<'a>(given: &ArgMatches<'a>) -> Result<Plan<'a>, UsageFault>
    ensures { Answers value (arguments_of given.now) result }
{
    let file = named_by(Some(needed(given, "file")?));
    let position = needed(given, "position")?;
    let limit = number(given, Quantity::Limit)?;
    Ok(Plan::Value {
        file,
        position,
        limit,
    })
}

fn apart_plan<'a>(given: &ArgMatches<'a>) -> Result<Plan<'a>, UsageFault>
    ensures { Answers apart (arguments_of given.now) result }
{
    let file = named_by(Some(needed(given, "file")?));
    let first = needed(given, "first")?;
    let second = needed(given, "second")?;
    let limit = number(given, Quantity::Limit)?;
    Ok(Plan::Apart {
        file,
        first,
        second,
        limit,
    })
}

fn compare_plan<'a>(given: &ArgMatches<'a>) -> Result<Plan<'a>, UsageFault>
    ensures { Answers compare (arguments_of given.now) result }
{
    let first = named_by(Some(needed(given, "first")?));
    let second = named_by(Some(needed(given, "second")?));
    let limit = number(given, Quantity::Limit)?;
    match (first, second) {
        (None, None) => Err(UsageFault::Exclusive(Exclusion::Compare)),
        (first, second) => Ok(Plan::Compare {
            first,
            second,
            limit,
        }),
    }
}

fn certify_plan<'a>(given: &ArgMatches<'a>) -> Result<Plan<'a>, UsageFault>
    ensures { Answers certify (arguments_of given.now) result }
{
    let file = named_by(Some(needed(given, "file")?));
    let limit = number(given, Quantity::Limit)?;
    Ok(Plan::Certify { file, limit })
}

/// Whether a code or a position is given, so that no file is explained.
fn explain_conflicts(given: &ArgMatches<'_>) -> bool
    ensures { result ≡ explain_conflicts (arguments_of given.now) }
{
    value(given, "code").is_some() || value(given, "position").is_some()
}

fn explain_plan<'a>(given: &ArgMatches<'a>) -> Result<Plan<'a>, UsageFault>
    ensures { Answers explain (arguments_of given.now) result }
{
    if explain_conflicts(given) {
        return Err(UsageFault::Exclusive(Exclusion::Explain));
    }
    let file = named_by(value(given, "file"));
    Ok(Plan::Explain { file })
}

/// The code or the position that is explained, if one of them is given, and no file.
fn word_given<'a>(given: &ArgMatches<'a>) -> Option<ExplainedWord<'a>>
    ensures { option_map word_request_of result ≡ word_given (arguments_of given.now) }
{
    match (
        value(given, "file"),
        value(given, "code"),
        value(given, "position"),
    ) {
        (None, Some(code), None) => Some(ExplainedWord::Code(code)),
        (None, None, Some(position)) => Some(ExplainedWord::Position(position)),
        _ => None,
    }
}

/// The word that the command of this name explains with its arguments.
fn command_word<'a>(name: &str, given: &ArgMatches<'a>) -> Option<ExplainedWord<'a>>
    ensures { option_map word_request_of result
        ≡ word_in (Some (name.now, arguments_of given.now)) }
{
    match name {
        "explain" => word_given(given),
        _ => None,
    }
}

fn present_plan<'a>(given: &ArgMatches<'a>) -> Result<Plan<'a>, UsageFault>
    ensures { Answers present (arguments_of given.now) result }
{
    let text = needed(given, "text")?;
    Ok(Plan::Present { text })
}

fn desk_plan<'a>(given: &ArgMatches<'a>) -> Result<Plan<'a>, UsageFault>
    ensures { Answers desk (arguments_of given.now) result }
{
    let script = needed(given, "script")?;
    Ok(Plan::Desk { script })
}

/// How an infinite quotient is to be printed, if it is.
fn layout(given: &ArgMatches<'_>) -> Result<Option<Layout>, UsageFault>
    ensures layout { IfOk result (λ l. layout_in (arguments_of given.now) ≡ Some l) }
    ensures apart { IfOk result (λ _. layout_conflicts (arguments_of given.now) ≡ false) }
    ensures shows { IfOk result (λ l. is_set (codes "show") (arguments_of given.now) ≡ is_some l) }
    ensures none { IfErr result (λ _. layout_in (arguments_of given.now) ≡ None) }
    ensures mistake { IfErr result (IsMistake infinite (arguments_of given.now)) }
{
    match (
        flag(given, "show"),
        flag(given, "latex"),
        flag(given, "json"),
    ) {
        (false, false, false) => Ok(None),
        (true, false, false) => Ok(Some(Layout::Lines)),
        (true, true, false) => Ok(Some(Layout::Latex)),
        (true, false, true) => Ok(Some(Layout::Json)),
        _ => Err(UsageFault::Exclusive(Exclusion::Layout)),
    }
}

fn infinite_plan<'a>(given: &ArgMatches<'a>) -> Result<Plan<'a>, UsageFault>
    ensures { Answers infinite (arguments_of given.now) result }
{
    let file = named_by(Some(needed(given, "file")?));
    match (layout(given)?, value(given, "position"), file) {
        (None, None, file) => Ok(Plan::Infinite { file }),
        (Some(layout), None, file) => Ok(Plan::ShowInfinite { file, layout }),
        (None, Some("-"), Some(file)) => Ok(Plan::PlayInfiniteLines { file }),
        (None, Some("-"), None) => Err(UsageFault::Exclusive(Exclusion::Play)),
        (None, Some(position), file) => Ok(Plan::PlayInfinite { file, position }),
        (Some(_), Some(_), _) => Err(UsageFault::Exclusive(Exclusion::Infinite)),
    }
}

/// The plan that the command of this name asks for with its arguments.
fn command_plan<'a>(
    alloc: Global,
    name: &str,
    given: &ArgMatches<'a>,
) -> Result<Plan<'a>, UsageFault>
    ensures asked { IfOk result (λ plan. request_in (Some (name.now, arguments_of given.now))
        ≡ Some (request_of plan)) }
    ensures numbers { IfOk result HasNumbersWithin }
    ensures apart { IfOk result (λ _. conflicts_in (Some (name.now, arguments_of given.now))
        ≡ false) }
    ensures nothing { IfErr result (λ fault. fault ≢ UsageFault.Memory
        → request_in (Some (name.now, arguments_of given.now)) ≡ None) }
    ensures fault { IfErr result (λ fault. fault ≢ UsageFault.Memory
        → IsMistakeIn (Some (name.now, arguments_of given.now)) fault) }
{
    match name {
        "check" => check_plan(given),
        "solve" => solve_plan(alloc, given),
        "series" => series_plan(given),
        "show" => show_plan(given),
        "describe" => describe_plan(given),
        "play" => play_plan(given),
        "compare" => compare_plan(given),
        "certify" => certify_plan(given),
        "explain" => explain_plan(given),
        "present" => present_plan(given),
        "catalogue" => catalogue_plan(given),
        "desk" => desk_plan(given),
        "infinite" => infinite_plan(given),
        "tail" => tail_plan(given),
        "verify" => verify_plan(given),
        "value" => value_plan(given),
        "apart" => apart_plan(given),
        _ => Err(UsageFault::Incomplete),
    }
}

/// What the command of this name asks for with its arguments.
pub(crate) fn command_asked<'a>(
    alloc: Global,
    name: &str,
    given: &ArgMatches<'a>,
) -> Result<Asked<'a>, UsageFault>
    ensures asked { IfOk result (IsAskedIn (Some (name.now, arguments_of given.now))) }
    ensures nothing { IfErr result (λ fault. fault ≢ UsageFault.Memory
        → (request_in (Some (name.now, arguments_of given.now)) ≡ None)
        × (word_in (Some (name.now, arguments_of given.now)) ≡ None)) }
    ensures fault { IfErr result (λ fault. fault ≢ UsageFault.Memory
        → IsMistakeIn (Some (name.now, arguments_of given.now)) fault) }
{
    if let Some(word) = command_word(name, given) {
        return Ok(Asked::Word(word));
    }
    match command_plan(alloc, name, given) {
        Ok(plan) => Ok(Asked::Plan(plan)),
        Err(fault) => Err(fault),
    }
}
