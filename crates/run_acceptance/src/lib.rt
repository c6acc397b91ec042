//! Tests of the checks of whole games and presentations, of finding, of descriptions that come to a bound, and of calls of
//! files and streams that fail under the commands, by public names alone. There is nothing else here: a library's proof then
//! waits for no test. What commands print is in the rows of `tests/`.
#![tactic(auto)]

#[cfg(test)]
mod certificates;
#[cfg(test)]
mod claims_tests;
#[cfg(test)]
mod comparing;
#[cfg(test)]
mod failing_calls_tests;
#[cfg(test)]
mod kept_positions_tests;
#[cfg(test)]
mod presentation_finder_tests;
#[cfg(test)]
mod presented_checker_tests;
#[cfg(test)]
mod presented_tables_tests;
#[cfg(test)]
mod proposers_tests;
#[cfg(test)]
mod quotient_finder_tests;
#[cfg(test)]
mod relations_tests;
#[cfg(test)]
mod rows;
#[cfg(test)]
mod telling_tests;
