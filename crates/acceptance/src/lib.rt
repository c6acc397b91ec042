//! Tests of the crates below the checker, by their public names alone. There is nothing else here: a
//! library's proof then waits for no test.
#![tactic(auto)]

#[cfg(test)]
mod certificate_tests;
#[cfg(test)]
mod compact_certificates_tests;
#[cfg(test)]
mod comparing;
#[cfg(test)]
mod element_sets_tests;
#[cfg(test)]
mod growths;
#[cfg(test)]
mod guesses_tests;
#[cfg(test)]
mod large_closure_tests;
#[cfg(test)]
mod monoid_table_tests;
#[cfg(test)]
mod octal_code_tests;
#[cfg(test)]
mod outcome_search_tests;
#[cfg(test)]
mod pair_closure_tests;
#[cfg(test)]
mod periods_tests;
#[cfg(test)]
mod positions_tests;
#[cfg(test)]
mod presentations_tests;
#[cfg(test)]
mod ration_tests;
#[cfg(test)]
mod streams_tests;
#[cfg(test)]
mod texts;
#[cfg(test)]
mod third_format_lines_tests;
#[cfg(test)]
mod transition_algebra_tests;
