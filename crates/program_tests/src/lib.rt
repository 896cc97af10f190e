//! The program's words and texts, and its call `plain` over sources and sinks that fail at each place.
#![tactic(auto)]

#[cfg(test)]
mod given;
#[cfg(test)]
mod plain_tests;
#[cfg(test)]
mod texts;
#[cfg(test)]
mod words;
