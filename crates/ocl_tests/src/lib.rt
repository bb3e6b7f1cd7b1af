//! What the rows of tests/ can't show of rules and commands. A machine begins anew, files are written again, inputs and outputs
//! fail, a budget is above the largest of the command line, other code uses the crates, and calls are made that no program makes.
#![tactic(auto)]

#[cfg(test)]
mod asked;
#[cfg(test)]
mod broken;
#[cfg(test)]
mod budgets;
#[cfg(test)]
mod codes;
#[cfg(test)]
mod desks;
#[cfg(test)]
mod long;
#[cfg(test)]
mod machines;
#[cfg(test)]
mod places;
#[cfg(test)]
mod readers;
#[cfg(test)]
mod reads;
#[cfg(test)]
mod reports;
#[cfg(test)]
mod sizes;
#[cfg(test)]
mod trees;
#[cfg(test)]
mod writers;
