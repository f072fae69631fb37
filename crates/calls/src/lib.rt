// A call of propose or message, after honey_badger/honey_badger.rs: its checks, its two runs and its commit.
#![tactic(auto)]

pub mod call;
pub mod checks;
pub mod operations;
pub mod refusal;
