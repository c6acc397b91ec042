//! What `solve` and `series` ask for with their arguments.
ghost use Rattle.std.specs.Prelude.{◌≡◌, ◌∷◌, [], None, Some, false, IfOk, IfErr, ℕ, codes, map};
ghost use Rattle.clap.specs.Words.{all_of, first_of};
ghost use Rattle.command_line.specs.Numbers.{IsWithin};
ghost use Rattle.command_line.specs.Plans.{AimsWithin, AreWithin, HasNumbersWithin};
ghost use Rattle.command_line.specs.Refusals.{Answers, IsMistake};
ghost use Rattle.command_line.specs.Requests.{arguments_of, is_deep};
ghost use Rattle.command_line.specs.Requests.{aim_in, bounds_in, order_by, order_in, search, search_conflicts, series, solve, solve_with};
ghost use Rattle.command_line.specs.Requests.{asks_for_finite, asks_for_infinite, has_several, infinite_search, infinite_search_conflicts};
ghost use Rattle.requests.specs.Requests.{request_of};
ghost use Rattle.requests.specs.Requests.Request.{SolveMany};

use crate::arguments::{codes_given, flag, is_input, needed, number, value};
use crate::faults::{Exclusion, UsageFault};
use crate::numbers::Quantity;
use clap::ArgMatches;
use requests::{Aim, PartsBounds, Plan, SolveBounds};
use std::alloc::Global;

/// The heaps that a search is to aim at.
fn aim(given: &ArgMatches<'_>) -> Result<Aim, UsageFault>
    ensures aim { IfOk result (λ a. aim_in (arguments_of given.now) ≡ Some a) }
    ensures apart { IfOk result (λ _. search_conflicts (arguments_of given.now) ≡ false) }
    ensures within { (order : ℕ)
        → IsWithin (order_by (is_deep (arguments_of given.now))
        (first_of (codes "partial") (arguments_of given.now))
        (first_of (codes "furthest") (arguments_of given.now))) order
        → IfOk result (λ a. AimsWithin a order) }
    ensures none { IfErr result (λ _. aim_in (arguments_of given.now) ≡ None) }
    ensures mistake { IfErr result (IsMistake search (arguments_of given.now)) }
{
    match (
        value(given, "heaps"),
        flag(given, "deep"),
        flag(given, "any"),
        value(given, "partial"),
        value(given, "furthest"),
        value(given, "order"),
    ) {
        (_, false, false, None, None, _) => {
            let heaps = number(given, Quantity::Heaps)?;
            Ok(Aim::Whole { heaps })
        }
        (None, true, false, None, None, _) => Ok(Aim::Deep),
        (None, false, true, None, None, _) => Ok(Aim::Any),
        (None, false, false, Some(_), None, _) => {
            let last = number(given, Quantity::Last)?;
            Ok(Aim::Part { last })
        }
        (None, false, false, None, Some(_), None) => Ok(Aim::Furthest),
        _ => Err(UsageFault::Exclusive(Exclusion::Solve)),
    }
}

/// Whether as many heaps are to be looked at as in a deep search.
fn is_deep(given: &ArgMatches<'_>) -> bool
    ensures { result ≡ is_deep (arguments_of given.now) }
{
    flag(given, "deep") || flag(given, "any")
}

/// How many elements are allowed.
fn order(given: &ArgMatches<'_>) -> Result<u32, UsageFault>
    ensures order { IfOk result (λ n. order_in (arguments_of given.now) ≡ Some n) }
    ensures within { IfOk result
        (IsWithin (order_by (is_deep (arguments_of given.now))
        (first_of (codes "partial") (arguments_of given.now))
        (first_of (codes "furthest") (arguments_of given.now)))) }
    ensures none { IfErr result (λ _. order_in (arguments_of given.now) ≡ None) }
    ensures mistake { IfErr result (IsMistake search (arguments_of given.now)) }
{
    match (
        value(given, "furthest"),
        value(given, "partial"),
        is_deep(given),
    ) {
        (Some(_), _, _) => number(given, Quantity::Furthest),
        (None, Some(_), _) => number(given, Quantity::PartOrder),
        (None, None, true) => number(given, Quantity::DeepOrder),
        (None, None, false) => number(given, Quantity::Order),
    }
}

/// How far a search is to go.
fn bounds(given: &ArgMatches<'_>) -> Result<SolveBounds, UsageFault>
    ensures bounds { IfOk result (λ b. bounds_in (arguments_of given.now) ≡ Some b) }
    ensures apart { IfOk result (λ _. search_conflicts (arguments_of given.now) ≡ false) }
    ensures within { IfOk result AreWithin }
    ensures none { IfErr result (λ _. bounds_in (arguments_of given.now) ≡ None) }
    ensures mistake { IfErr result (IsMistake search (arguments_of given.now)) }
{
    let limit = number(given, Quantity::Limit)?;
    let rounds = number(given, Quantity::Rounds)?;
    let aim = aim(given)?;
    let order = order(given)?;
    Ok(SolveBounds {
        limit,
        rounds,
        order,
        aim,
        tells_why: flag(given, "why"),
    })
}

/// The plan for one code; `-` stands for those of standard input.
fn code_plan<'a>(code: &'a str, bounds: SolveBounds) -> Plan<'a>
    ensures asked { Some (request_of result) ≡ solve_with (code.entry.now ∷ []) (Some bounds) }
    ensures within { AreWithin bounds → HasNumbersWithin result }
{
    match code {
        "-" => Plan::SolveLines { bounds },
        code => Plan::Solve { code, bounds },
    }
}

/// The plan for several codes.
fn codes_plan<'a>(
    alloc: Global,
    codes: &[&'a str],
    bounds: SolveBounds,
) -> Result<Plan<'a>, UsageFault>
    ensures asked { IfOk result
        (λ p. request_of p ≡ SolveMany (map (λ c. c.now) codes.now) bounds) }
    ensures within { AreWithin bounds → IfOk result HasNumbersWithin }
    ensures memory { IfErr result (λ fault. fault ≡ UsageFault.Memory) }
{
    match codes.to_vec(alloc) {
        Ok(codes) => Ok(Plan::SolveMany { codes, bounds }),
        Err(_) => Err(UsageFault::Memory),
    }
}

/// The plan of a search for finite quotients.
fn search_plan<'a>(alloc: Global, given: &ArgMatches<'a>) -> Result<Plan<'a>, UsageFault>
    ensures { Answers search (arguments_of given.now) result }
{
    let bounds = bounds(given)?;
    match codes_given(given) {
        None => Err(UsageFault::Incomplete),
        Some([]) => Err(UsageFault::Incomplete),
        Some([code]) => Ok(code_plan(code, bounds)),
        Some(codes) => codes_plan(alloc, codes, bounds),
    }
}

/// Whether more than one code was given.
fn has_several(given: &ArgMatches<'_>) -> bool
    ensures { result ≡ has_several (all_of (codes "code") (arguments_of given.now)) }
{
    match codes_given(given) {
        None => false,
        Some([]) => false,
        Some([_]) => false,
        Some(_) => true,
    }
}

/// Whether an option was given that a search for finite quotients takes alone.
fn asks_for_finite(given: &ArgMatches<'_>) -> bool
    ensures { result ≡ asks_for_finite (arguments_of given.now) }
{
    flag(given, "deep")
        || flag(given, "any")
        || value(given, "partial").is_some()
        || value(given, "furthest").is_some()
        || value(given, "rounds").is_some()
        || value(given, "order").is_some()
        || value(given, "limit").is_some()
}

/// Whether a search for an infinite quotient is meant.
fn asks_for_infinite(given: &ArgMatches<'_>) -> bool
    ensures { result ≡ asks_for_infinite (arguments_of given.now) }
{
    flag(given, "infinite") || flag(given, "presented")
}

/// Whether what was given excludes `--infinite`, or `--presented` is given without it.
fn infinite_search_conflicts(given: &ArgMatches<'_>) -> bool
    ensures { result ≡ infinite_search_conflicts (arguments_of given.now) }
{
    !flag(given, "infinite")
        || is_input(value(given, "code"))
        || has_several(given)
        || asks_for_finite(given)
}

/// The plan of a search for an infinite quotient.
fn infinite_search_plan<'a>(given: &ArgMatches<'a>) -> Result<Plan<'a>, UsageFault>
    ensures { Answers infinite_search (arguments_of given.now) result }
{
    if infinite_search_conflicts(given) {
        return Err(UsageFault::Exclusive(Exclusion::SolveInfinite));
    }
    let code = needed(given, "code")?;
    let heaps = number(given, Quantity::SeriesLast)?;
    let presented = flag(given, "presented");
    Ok(Plan::SolveInfinite {
        code,
        heaps,
        presented,
    })
}

pub fn solve_plan<'a>(alloc: Global, given: &ArgMatches<'a>) -> Result<Plan<'a>, UsageFault>
    ensures { Answers solve (arguments_of given.now) result }
{
    if asks_for_infinite(given) {
        infinite_search_plan(given)
    } else {
        search_plan(alloc, given)
    }
}

pub fn series_plan<'a>(given: &ArgMatches<'a>) -> Result<Plan<'a>, UsageFault>
    ensures { Answers series (arguments_of given.now) result }
{
    let code = needed(given, "code")?;
    let limit = number(given, Quantity::Limit)?;
    let order = number(given, Quantity::DeepOrder)?;
    let heaps = number(given, Quantity::SeriesLast)?;
    let bounds = PartsBounds {
        limit,
        order,
        heaps,
    };
    Ok(Plan::Series { code, bounds })
}
