//! Tests of reading, writing, checking and merging certificates, as tables. Nothing stands on them.
#![tactic(auto)]

#[cfg(test)]
mod certificate_text;
#[cfg(test)]
mod merged;
#[cfg(test)]
mod refusal;
#[cfg(test)]
mod verdict;
