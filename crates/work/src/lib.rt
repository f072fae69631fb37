// The run of a call beside the state, and the commit that writes what it came to, after honey_badger/honey_badger.rs.
#![tactic(auto)]

pub mod commit;
pub mod honey_badger;
