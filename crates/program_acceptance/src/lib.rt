//! Tests of checks, verdicts, playing, the desk, devices and files, by public names alone. What commands
//! print is in the rows of `tests/`.
#![tactic(auto)]

use allocation::SmallAllocator;
use checker::Job;

#[cfg(test)]
mod certificates;
#[cfg(test)]
mod checks;
#[cfg(test)]
mod comparing;
#[cfg(test)]
mod cyclic;
#[cfg(test)]
mod desk_growths_tests;
#[cfg(test)]
mod desk_tests;
#[cfg(test)]
mod desk_time_tests;
#[cfg(test)]
mod desk_want_tests;
#[cfg(test)]
mod devices_tests;
#[cfg(test)]
mod failing_files_tests;
#[cfg(test)]
mod folders_tests;
#[cfg(test)]
mod games_tests;
#[cfg(test)]
mod growths;
#[cfg(test)]
mod player_tests;
#[cfg(test)]
mod scripts;
#[cfg(test)]
mod units_tests;
#[cfg(test)]
mod verdicts_tests;

/// Lets a job go. Tests let many go, and that what a stage of a check holds fits in memory is proved
/// here once.
pub fn let_go<A: SmallAllocator + Copy>(job: Job<A>) {
    drop(job)
}
