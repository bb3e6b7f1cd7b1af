//! Calls that are refused memory, and made again. `.ci/refusals` refuses each test each of its requests in turn, and reads
//! what it met.
#![tactic(auto)]

#[cfg(test)]
mod building;
#[cfg(test)]
mod compiling;
#[cfg(test)]
mod desks;
#[cfg(test)]
mod judging;
#[cfg(test)]
mod loading;
#[cfg(test)]
mod met;
#[cfg(test)]
mod runs;
