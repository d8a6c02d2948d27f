//! Requests: what the words of a command line ask for, read by clap behind a test of their forms.

mod commands;
mod fault;
mod faults;
mod forms;
mod lexing;
mod parsing;
mod scanning;
mod standing;

pub(crate) use fault::Fault;
pub(crate) use faults::fault_of;
pub(crate) use parsing::{Parsed, parse};
