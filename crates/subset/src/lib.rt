// The common subset, after subset/subset.rs and subset/message.rs. The broadcast and agreement instances are outside.
#![tactic(auto)]

pub mod subset;
pub mod words;
