// The ground layer: the answers that a call reads, and the step that it writes.
#![tactic(auto)]

pub mod bits;
pub mod kinds;
pub mod numbers;
pub mod reader;
pub mod step;
