// The encryption schedule, after `EncryptionSchedule` of honey_badger.rs, and its numbers.
ghost use Rattle.std.specs.Prelude.{◌≡◌};
ghost use Rattle.state.specs.Schedule.{schedule_of, use_on_epoch, schedule_ok, used_first, used_second};
ghost use Rattle.state.specs.Shape.{Divides};

use crate::EncryptionSchedule;
use steps::numbers::SCHEDULE_LIMIT;

// The kinds of a schedule: numbers, as the host gives them and keeps them in the state (docs/STATE.md).
pub const ALWAYS: u64 = 0;

pub const NEVER: u64 = 1;

pub const EVERY_NTH_EPOCH: u64 = 2;

pub const TICK_TOCK: u64 = 3;

// The numbers of a schedule, as the host gives them and the header keeps them.
#[derive(Clone, Copy)]
pub struct ScheduleNumbers {
    pub kind: u64,
    pub first: u64,
    pub second: u64,
}

impl ScheduleNumbers {
    // Whether the numbers are as their kind wants them. A sum that is no word is too large.
    #[tactic(auto, unfolding(crate::specs::Schedule::schedule_ok))]
    pub fn is_ok(self) -> bool
        ensures { result ≡ schedule_ok self.kind self.first self.second }
    {
        match self.kind {
            ALWAYS | NEVER => true,
            EVERY_NTH_EPOCH => (1..=SCHEDULE_LIMIT).contains(&self.first),
            TICK_TOCK => self
                .first
                .checked_add(self.second)
                .is_some_and(|sum| (1..=SCHEDULE_LIMIT).contains(&sum)),
            _ => false,
        }
    }

    // The numbers as the state holds them: 0 for one that the kind does not use.
    #[tactic(auto, unfolding(crate::specs::Schedule::used_first, crate::specs::Schedule::used_second))]
    pub fn used(self) -> ScheduleNumbers
        ensures { (result.kind ≡ self.kind) × (result.first ≡ used_first self.kind self.first) × (result.second ≡ used_second self.kind self.second) }
    {
        let (first, second) = match self.kind {
            ALWAYS | NEVER => (0, 0),
            EVERY_NTH_EPOCH => (self.first, 0),
            _ => (self.first, self.second),
        };
        ScheduleNumbers {
            kind: self.kind,
            first,
            second,
        }
    }
}

impl From<ScheduleNumbers> for EncryptionSchedule {
    ghost from_gives = { λ numbers schedule. schedule ≡ schedule_of numbers.kind numbers.first numbers.second };

    // A kind above the last reads as the last.
    #[tactic(auto, unfolding(crate::specs::Schedule::schedule_of))]
    fn from(numbers: ScheduleNumbers) -> EncryptionSchedule {
        match numbers.kind {
            ALWAYS => EncryptionSchedule::Always,
            NEVER => EncryptionSchedule::Never,
            EVERY_NTH_EPOCH => EncryptionSchedule::EveryNthEpoch(numbers.first),
            _ => EncryptionSchedule::TickTock(numbers.first, numbers.second),
        }
    }
}

impl EncryptionSchedule {
    // Whether contributions in this epoch are encrypted.
    #[tactic(auto, unfolding(crate::specs::Schedule::use_on_epoch))]
    pub fn use_on_epoch(self, epoch: u64) -> bool
        requires { Divides self }
        ensures { result ≡ use_on_epoch self epoch }
    {
        match self {
            EncryptionSchedule::Always => true,
            EncryptionSchedule::Never => false,
            EncryptionSchedule::EveryNthEpoch(n) => epoch % n == 0,
            EncryptionSchedule::TickTock(on, off) => epoch % (on + off) < on,
        }
    }
}
