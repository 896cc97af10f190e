//! Frames as bytes: spelt and read, from a stream that was cut anywhere, and over lines.
#![tactic(auto)]

#[cfg(test)]
mod carriage;
#[cfg(test)]
mod encoding;
#[cfg(test)]
mod feed;
#[cfg(test)]
mod given;
#[cfg(test)]
mod lines;
