// Create: the ten numbers in their ranges, and the state before any call.
ghost use Rattle.std.specs.Prelude.{◌≡◌, length};
ghost use Rattle.state.specs.State.{state_length};
ghost use Rattle.calls.specs.Refusals.{reply_of};
ghost use Rattle.engine.specs.Create.{numbers_ok, created, create_reply, create_state};
ghost use Rattle.engine.specs.Shape.{numbers_of};

use calls::refusal::Refusal;
use state::range::state_length;
use state::schedule::ScheduleNumbers;
use state::words::{
    AHEAD_AT, EPOCH_AT, FAULTY_AT, FIRST_NUMBER_AT, KEY_AT, NODES_AT, OWN_AT, PROFILE_AT,
    SCHEDULE_AT, SECOND_NUMBER_AT, STRATEGY_AT,
};
use steps::numbers::{AHEAD_LIMIT, LAST_EPOCH, NODE_LIMIT};

// The ten numbers, in the order of the interface.
#[derive(Clone, Copy)]
pub struct Numbers {
    pub nodes: u64,
    pub faulty: u64,
    pub ahead: u64,
    pub own: u64,
    pub key: u64,
    pub strategy: u64,
    pub epoch: u64,
    pub schedule: u64,
    pub first: u64,
    pub second: u64,
}

impl Numbers {
    // The schedule's numbers: three of the ten, so that a `From` would not say which.
    fn schedule_numbers(self) -> ScheduleNumbers
        ensures { (result.kind ≡ self.schedule) × (result.first ≡ self.first) × (result.second ≡ self.second) }
    {
        ScheduleNumbers {
            kind: self.schedule,
            first: self.first,
            second: self.second,
        }
    }

    // Whether the numbers are in their ranges. f is bounded before it is multiplied. Seven of the tests stand in `state::range` too: one
    // function over both would take nine numbers, which both would have to put together, and a definition between the two lists of
    // specs/, and is no plainer.
    pub fn are_ok(self) -> bool
        ensures { result ≡ numbers_ok (numbers_of self) }
    {
        let f = self.faulty;
        if NODE_LIMIT < f {
            return false;
        }
        let n = self.nodes;
        (1..=NODE_LIMIT).contains(&n)
            & (3 * f < n)
            & (self.ahead <= AHEAD_LIMIT)
            & (self.own <= n)
            & (self.key <= 1)
            & (self.strategy <= 1)
            & (self.epoch <= LAST_EPOCH)
            & self.schedule_numbers().is_ok()
    }

    // Writes the state before any call: the numbers, and zeros.
    pub fn write(self, state: &mut [u64])
        requires { length state.old ≡ state_length self.«nodes» self.«ahead» }
        ensures { state.new ≡ created (numbers_of self) }
    {
        let used = self.schedule_numbers().used();
        state.fill(0);
        state[PROFILE_AT] = 1;
        state[NODES_AT] = self.nodes;
        state[FAULTY_AT] = self.faulty;
        state[AHEAD_AT] = self.ahead;
        state[OWN_AT] = self.own;
        state[KEY_AT] = self.key;
        state[STRATEGY_AT] = self.strategy;
        state[SCHEDULE_AT] = used.kind;
        state[FIRST_NUMBER_AT] = used.first;
        state[SECOND_NUMBER_AT] = used.second;
        state[EPOCH_AT] = self.epoch;
    }

    // Makes the words a state: 1 for numbers out of range, 2 for another length.
    #[tactic(auto, using(crate::proofs::CreateCode::numbers_on_sheet), unfolding(crate::specs::Create::create_reply, crate::specs::Create::create_state))]
    pub(crate) fn create(self, state: &mut [u64]) -> Result<(), Refusal>
        ensures { (reply_of result ≡ create_reply (numbers_of self) state.old) × (state.new ≡ create_state (numbers_of self) state.old) }
    {
        if !self.are_ok() {
            return Err(Refusal::NumbersOutOfRange);
        }
        if state.len() != state_length(self.nodes as usize, self.ahead as usize) {
            return Err(Refusal::WrongStateLength);
        }
        self.write(state);
        Ok(())
    }
}
