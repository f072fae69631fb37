// Writing the state: skip, what a run came to, and the fault count.
ghost use Rattle.std.specs.Prelude.{◌≡◌, ◌+◌, ◌≤◌, length};
ghost use Rattle.subset.specs.Words.{epoch_length};
ghost use Rattle.state.specs.State.{header_length, nodes, ahead, current_epoch};
ghost use Rattle.state.specs.Shape.{StateWords};
ghost use Rattle.work.specs.HoneyBadger.{clear_below, skip_to_epoch};
ghost use Rattle.work.specs.Work.{worked, committed};
ghost use Rattle.work.specs.Shape.{call_base, count_more};

use crate::honey_badger::Call;
use state::words::{AHEAD_AT, EPOCH_AT, FAULTS_AT, INPUT_AT, clear_epoch, store};
use steps::numbers::FAULT_LIMIT;

// Clears the epochs from the current one on that are below the target: at most as many as there are places.
#[tactic(auto, using(crate::proofs::CommitCode::clear_over))]
fn clear_below(state: &mut [u64], target: u64)
    requires { StateWords state.old }
    ensures { state.new ≡ clear_below target (ahead state.old + 1) (current_epoch state.old) state.old }
{
    let current = state[EPOCH_AT];
    let behind = current + state[AHEAD_AT] + 1;
    for epoch in current..target.min(behind) {
        clear_epoch(state, epoch);
    }
}

// `skip_to_epoch`, without counting epochs one by one.
#[tactic(auto, unfolding(crate::specs::HoneyBadger::skip_to_epoch))]
pub fn skip_to_epoch(state: &mut [u64], target: u64)
    requires { StateWords state.old }
    ensures { state.new ≡ skip_to_epoch target state.old }
{
    if target <= state[EPOCH_AT] {
        return;
    }
    clear_below(state, target);
    state[EPOCH_AT] = target;
    state[INPUT_AT] = 0;
}

// has_input becomes true with the own proposal.
fn note_input(state: &mut [u64], call: Call)
    requires { header_length ≤ length state.old }
    ensures { state.new ≡ call_base call state.old }
{
    match call {
        Call::Propose => {
            state[INPUT_AT] = 1;
        }
        Call::Message(_, _, _) => {}
    }
}

// Writes what a run came to: has_input, the words of its epoch, and the epoch that is current afterwards.
pub fn commit(state: &mut [u64], call: Call, epoch: u64, words: &[u64], next: u64)
    requires { StateWords state.old × (length words.now ≡ epoch_length (nodes state.old)) }
    ensures { state.new ≡ committed (call_base call state.old) epoch (worked words.now next) }
{
    note_input(state, call);
    store(state, epoch, words);
    skip_to_epoch(state, next);
}

// Adds to the fault count, which stops at its limit.
#[tactic(auto, unfolding(crate::specs::Shape::count_more))]
pub fn count_faults(state: &mut [u64], count: usize)
    requires { header_length ≤ length state.old }
    ensures { state.new ≡ count_more state.old count }
{
    state[FAULTS_AT] = state[FAULTS_AT]
        .saturating_add(count as u64)
        .min(FAULT_LIMIT);
}
