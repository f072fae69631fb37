// Reply 3: whether words are a state, each field in its range, whatever the state's past. And the lengths of state and scratch.
ghost use Rattle.std.specs.Prelude.{◌≡◌, ◌+◌, ◌≤◌, length};
ghost use Rattle.steps.specs.Numbers.{node_limit, ahead_limit};
ghost use Rattle.state.specs.State.{nodes, ahead, state_length, scratch_of, header_length, header_in_range, epochs_at, epochs_in_range, state_ok};
ghost use Rattle.state.specs.Shape.{StateWords};

use crate::lengths::STATE_LENGTHS;
use crate::words::{
    AHEAD_AT, EPOCH_AT, FAULTS_AT, FAULTY_AT, HEADER_LENGTH, INPUT_AT, KEY_AT, NODES_AT, OWN_AT,
    PROFILE_AT, STRATEGY_AT, VACANT_AT, epoch_length, epochs_at, schedule_numbers, strategy_of,
};
use epochwords::range::epoch_in_range;
use steps::numbers::{AHEAD_LIMIT, FAULT_LIMIT, LAST_EPOCH, NODE_LIMIT};

// The figure of N and F on the sheet of state lengths.
fn figure(n: usize, ahead: usize) -> u16
    requires { (1 ≤ n) × (n ≤ node_limit) × (ahead ≤ ahead_limit) }
    ensures { result ≡ state_length n ahead }
{
    STATE_LENGTHS[(n - 1) * 16 + ahead]
}

// How many words a state has.
pub fn state_length(n: usize, ahead: usize) -> usize
    requires { (1 ≤ n) × (n ≤ node_limit) × (ahead ≤ ahead_limit) }
    ensures { result ≡ state_length n ahead }
{
    figure(n, ahead) as usize
}

// How many words of scratch a call wants: as many as a state in range has.
pub fn scratch_length(state: &[u64]) -> usize
    requires { StateWords state.now }
    ensures { result ≡ scratch_of state.now }
{
    state.len()
}

// Whether the header is in range. What could overflow is tested first. The rule is about words of the host's: any numbers.
fn header_in_range(state: &[u64]) -> bool
    requires { header_length ≤ length state.now }
    ensures { result ≡ header_in_range state.now }
{
    let n = state[NODES_AT];
    let f = state[FAULTY_AT];
    let ahead = state[AHEAD_AT];
    if (NODE_LIMIT < n) | (NODE_LIMIT < f) | (AHEAD_LIMIT < ahead) {
        return false;
    }
    let schedule = schedule_numbers(state);
    let used = schedule.used();
    let vacant = state[VACANT_AT] | state[VACANT_AT + 1] | state[VACANT_AT + 2];
    (state[PROFILE_AT] == 1)
        & (1..=NODE_LIMIT).contains(&n)
        & (3 * f < n)
        & (ahead <= AHEAD_LIMIT)
        & (state[OWN_AT] <= n)
        & (state[KEY_AT] <= 1)
        & (state[STRATEGY_AT] <= 1)
        & schedule.is_ok()
        & (schedule.first == used.first)
        & (schedule.second == used.second)
        & (state[EPOCH_AT] <= LAST_EPOCH + ahead + 1)
        & (state[INPUT_AT] <= 1)
        & (state[FAULTS_AT] <= FAULT_LIMIT)
        & (vacant == 0)
}

// Whether the words of all epochs are in range.
fn epochs_in_range(state: &[u64]) -> bool
    requires { StateWords state.now }
    ensures { result ≡ epochs_in_range state.now (ahead state.now + 1) (epochs_at (nodes state.now)) }
{
    let n = state[NODES_AT] as usize;
    let start = epochs_at(n);
    let length = epoch_length(n);
    let strategy = strategy_of(state);
    let places = state[AHEAD_AT] as usize + 1;
    let mut ok = true;
    for place in 0..places {
        let at = start + place * length;
        ok &= epoch_in_range(&state[at..at + length], strategy, n);
    }
    ok
}

// Whether the words are a state.
pub fn state_ok(state: &[u64]) -> bool
    ensures { result ≡ state_ok state.now }
{
    if state.len() < HEADER_LENGTH {
        return false;
    }
    if !header_in_range(state) {
        return false;
    }
    let n = state[NODES_AT] as usize;
    let ahead = state[AHEAD_AT] as usize;
    if state.len() != state_length(n, ahead) {
        return false;
    }
    epochs_in_range(state)
}
