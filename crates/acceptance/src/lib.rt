//! Tests that cross crates: scripts, histories and cores as texts, and the parts of a heap.
#![tactic(auto)]

#[cfg(test)]
mod commands;
#[cfg(test)]
mod cores;
#[cfg(test)]
mod fault;
#[cfg(test)]
mod heap_parts;
#[cfg(test)]
mod histories;
#[cfg(test)]
mod scripts;
#[cfg(test)]
mod told_entries;
#[cfg(test)]
mod yardstick_rows;
