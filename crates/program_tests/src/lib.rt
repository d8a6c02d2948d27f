//! Tests of whole runs, of requests, of reports and of the outside. Nothing stands on them.
#![tactic(auto)]

#[cfg(test)]
mod adapters;
#[cfg(test)]
mod certificates;
#[cfg(test)]
mod cuts;
#[cfg(test)]
mod drawing;
#[cfg(test)]
mod effects;
#[cfg(test)]
mod examples;
#[cfg(test)]
mod failures;
#[cfg(test)]
mod gates;
#[cfg(test)]
mod limits;
#[cfg(test)]
mod lowers;
#[cfg(test)]
mod merging;
#[cfg(test)]
mod problems;
#[cfg(test)]
mod progress;
#[cfg(test)]
mod reasons;
#[cfg(test)]
mod reports;
#[cfg(test)]
mod requests;
#[cfg(test)]
mod runs;
#[cfg(test)]
mod searches;
#[cfg(test)]
mod servers;
#[cfg(test)]
mod service;
#[cfg(test)]
mod signal;
#[cfg(test)]
mod texts;
#[cfg(test)]
mod walks;
