//! Tests of the libraries over their public names: calls that no line of text makes. What text shows are the cases of
//! `library_cases`.
#![tactic(auto)]

#[cfg(test)]
mod adding;
#[cfg(test)]
mod calls_tests;
#[cfg(test)]
mod examples_tests;
#[cfg(test)]
mod hooks_tests;
#[cfg(test)]
mod names_tests;
#[cfg(test)]
mod pieces_tests;
#[cfg(test)]
mod rules_tests;
#[cfg(test)]
mod values_tests;
