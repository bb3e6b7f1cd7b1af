//! What rows can't show of class models, populations and kinds: calls that no program makes, calls
//! after refused ones, numbers, and whether contents are equal.
#![tactic(auto)]

#[cfg(test)]
mod building;
#[cfg(test)]
mod calls;
#[cfg(test)]
mod kinds;
#[cfg(test)]
mod models;
#[cfg(test)]
mod shown;
