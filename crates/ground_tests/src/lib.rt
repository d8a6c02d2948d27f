//! Tests of the group ground: ground problems of planning texts, their steps, and what is kept of
//! these. Nothing stands on them.
#![tactic(auto)]

#[cfg(test)]
mod choices;
#[cfg(test)]
mod grounded;
#[cfg(test)]
mod kept;
#[cfg(test)]
mod large;
#[cfg(test)]
mod limits;
#[cfg(test)]
mod refusals;
#[cfg(test)]
mod shown;
#[cfg(test)]
mod states;
#[cfg(test)]
mod steps;
#[cfg(test)]
mod texts;
