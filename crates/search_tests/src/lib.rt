//! Tests of the search, from the events of a core to the rounds of a crew. Nothing stands on them.
#![tactic(auto)]

#[cfg(test)]
mod backups;
#[cfg(test)]
mod events;
#[cfg(test)]
mod numbers;
#[cfg(test)]
mod problems;
#[cfg(test)]
mod relaxed;
#[cfg(test)]
mod seeds;
#[cfg(test)]
mod table;
#[cfg(test)]
mod trials;
