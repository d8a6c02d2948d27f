//! Greatest relaxed costs: by hand, and of problems that are drawn.

mod drawn;
mod draws;
mod fixpoint;
mod small;
mod values;
