// The words of the state (docs/STATE.md): the header's words by name, where an epoch lives, and copying and clearing it.
//
// `StateWords`, and the lengths of what is copied, stand in clauses and in no struct over the words: they are lent, some by `&mut`, and callers
// would make such a struct for one call each, with the same fact to prove.
ghost use Rattle.std.specs.Prelude.{◌≡◌, ◌+◌, ◌≤◌, length};
ghost use Rattle.steps.specs.Numbers.{node_limit};
ghost use Rattle.subset.specs.Words.{epoch_length};
ghost use Rattle.state.specs.Schedule.{schedule_of};
ghost use Rattle.state.specs.State.{header_length, nodes, schedule, first_number, second_number, epochs_at, net_of, strategy_of, encrypted_in, place_of, epoch_words, with_epoch, without_epoch};
ghost use Rattle.state.specs.Shape.{StateWords, Divides};

use crate::EncryptionSchedule;
use crate::schedule::ScheduleNumbers;
use epochwords::SubsetHandlingStrategy;
use epochwords::words::copy;
use network::network_info::NetworkInfo;
use std::ops::Range;
use subset::words::{RECORD_FIELDS, RECORDS_AT};

pub const HEADER_LENGTH: usize = 16;

pub const PROFILE_AT: usize = 0;

pub const NODES_AT: usize = 1;

pub const FAULTY_AT: usize = 2;

pub const AHEAD_AT: usize = 3;

pub const OWN_AT: usize = 4;

pub const KEY_AT: usize = 5;

pub const STRATEGY_AT: usize = 6;

pub const SCHEDULE_AT: usize = 7;

pub const FIRST_NUMBER_AT: usize = 8;

pub const SECOND_NUMBER_AT: usize = 9;

pub const EPOCH_AT: usize = 10;

pub const INPUT_AT: usize = 11;

pub const FAULTS_AT: usize = 12;
// The header's words from here on are 0.
pub const VACANT_AT: usize = 13;

// How many words an epoch of n nodes has.
#[tactic(auto, using(crate::proofs::WordsCode::epoch_small))]
pub fn epoch_length(n: usize) -> usize
    requires { n ≤ node_limit }
    ensures { result ≡ epoch_length n }
{
    RECORDS_AT + n * (RECORD_FIELDS + n)
}

// Where the epochs begin in a state of n nodes.
#[tactic(auto, unfolding(crate::specs::State::epochs_at))]
pub fn epochs_at(n: usize) -> usize
    requires { n ≤ node_limit }
    ensures { result ≡ epochs_at n }
{
    // The definition takes n, for layouts whose epochs begin elsewhere.
    let _ = n;
    HEADER_LENGTH
}

// The network as the node knows it.
#[tactic(auto, unfolding(crate::specs::State::net_of))]
pub fn net_of(state: &[u64]) -> NetworkInfo
    requires { header_length ≤ length state.now }
    ensures { result ≡ net_of state.now }
{
    NetworkInfo {
        num_nodes: state[NODES_AT] as usize,
        num_faulty: state[FAULTY_AT] as usize,
        our_id: state[OWN_AT] as usize,
        has_key: state[KEY_AT] != 0,
    }
}

#[tactic(auto, unfolding(crate::specs::State::strategy_of))]
pub fn strategy_of(state: &[u64]) -> SubsetHandlingStrategy
    requires { header_length ≤ length state.now }
    ensures { result ≡ strategy_of state.now }
{
    SubsetHandlingStrategy::from(state[STRATEGY_AT])
}

// The schedule's numbers.
pub fn schedule_numbers(state: &[u64]) -> ScheduleNumbers
    requires { header_length ≤ length state.now }
    ensures { (result.kind ≡ schedule state.now) × (result.first ≡ first_number state.now) × (result.second ≡ second_number state.now) }
{
    ScheduleNumbers {
        kind: state[SCHEDULE_AT],
        first: state[FIRST_NUMBER_AT],
        second: state[SECOND_NUMBER_AT],
    }
}

// Whether contributions in this epoch are encrypted.
#[tactic(auto, unfolding(crate::specs::State::encrypted_in))]
pub fn encrypted_in(state: &[u64], epoch: u64) -> bool
    requires { (header_length ≤ length state.now) × Divides (schedule_of (schedule state.now) (first_number state.now) (second_number state.now)) }
    ensures { result ≡ encrypted_in state.now epoch }
{
    EncryptionSchedule::from(schedule_numbers(state)).use_on_epoch(epoch)
}

// Where epoch e lives.
pub fn place_of(state: &[u64], epoch: u64) -> usize
    requires { StateWords state.now }
    ensures { result ≡ place_of state.now epoch }
{
    let n = state[NODES_AT] as usize;
    let places = state[AHEAD_AT] + 1;
    let place = (epoch % places) as usize;
    let length = epoch_length(n);
    epochs_at(n) + place * length
}

// Which words of the state are those of an epoch.
#[tactic(auto, using(crate::proofs::WordsCode::place_inside, crate::proofs::WordsCode::state_small))]
fn part_of(state: &[u64], epoch: u64) -> Range<usize>
    requires { StateWords state.now }
    ensures { (result.start ≡ place_of state.now epoch) × (result.end ≡ place_of state.now epoch + epoch_length (nodes state.now)) }
{
    let at = place_of(state, epoch);
    at..at + epoch_length(state[NODES_AT] as usize)
}

// The words of an epoch.
#[tactic(auto, using(crate::proofs::WordsCode::place_inside))]
pub fn epoch_in(state: &[u64], epoch: u64) -> &[u64]
    requires { StateWords state.now }
    ensures { result.now ≡ epoch_words state.now epoch }
{
    &state[part_of(state, epoch)]
}

// Copies the words of an epoch out of the state.
#[tactic(auto, using(crate::proofs::WordsCode::words_epoch))]
pub fn load(state: &[u64], epoch: u64, words: &mut [u64])
    requires { StateWords state.now × (length words.old ≡ epoch_length (nodes state.now)) }
    ensures { words.new ≡ epoch_words state.now epoch }
{
    copy(epoch_in(state, epoch), words);
}

// Copies the words of an epoch to their place in the state.
#[tactic(auto, using(crate::proofs::WordsCode::place_inside))]
pub fn store(state: &mut [u64], epoch: u64, words: &[u64])
    requires { StateWords state.old × (length words.now ≡ epoch_length (nodes state.old)) }
    ensures { state.new ≡ with_epoch state.old epoch words.now }
{
    let part = part_of(state, epoch);
    copy(words, &mut state[part]);
}

// No epoch lives at the place of this one any more.
#[tactic(auto, using(crate::proofs::WordsCode::place_inside))]
pub fn clear_epoch(state: &mut [u64], epoch: u64)
    requires { StateWords state.old }
    ensures { state.new ≡ without_epoch state.old epoch }
{
    let part = part_of(state, epoch);
    state[part].fill(0);
}
