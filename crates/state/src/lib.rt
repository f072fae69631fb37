// The words of the engine's state, after params.rs and the fields of `HoneyBadger` in honey_badger.rs.
#![tactic(auto)]

pub mod lengths;
pub mod range;
pub mod schedule;
pub mod words;

// How frequently threshold encryption is used.
#[derive(Clone, Copy)]
pub enum EncryptionSchedule {
    Always,
    Never,
    EveryNthEpoch(u64),
    TickTock(u64, u64),
}
