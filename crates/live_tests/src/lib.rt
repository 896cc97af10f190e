//! Runs with threads by the call `live`: over lines that fail and lie at each place, over sockets, and at gates.
#![tactic(auto)]

#[cfg(test)]
mod given;
#[cfg(test)]
mod line_tests;
#[cfg(test)]
mod passes;
#[cfg(test)]
mod thread_tests;
#[cfg(test)]
mod two_lies;
