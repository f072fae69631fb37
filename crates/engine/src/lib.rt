// The epoch engine, after honey_badger/honey_badger.rs: what a host calls, with numbers and slices of words (include/belkjund.h). No entry point
// requires anything of what it is lent. crates/engine_c exports the eight functions to C.
#![tactic(auto)]

ghost use Rattle.std.specs.Prelude.{◌≡◌, ◌≤◌, ◌++◌, true, false, length, replicate, drop, MatchResult};
ghost use Rattle.steps.specs.Numbers.{success};
ghost use Rattle.std.specs.Fn.{FnOnceReturnsAt};
ghost use Rattle.state.specs.State.{scratch_of, state_ok};
ghost use Rattle.state.specs.Shape.{StateWords};
ghost use Rattle.calls.specs.Calls.{after, zeroed, propose_call, message_call, skip_reply, skip_state, query_reply, current_epoch_result, has_input_result, received_proposals_result, fault_count_result};
ghost use Rattle.calls.specs.Refusals.{refusal_number, reply_of};
ghost use Rattle.calls.specs.Checks.{leaves_scratch};
ghost use Rattle.engine.specs.Create.{numbers, create_reply, create_state};

pub mod create;
pub mod queries;

use crate::create::Numbers;
use crate::queries::{has_input, received_proposals};
use calls::checks::{MessageNumbers, propose_checks};
use calls::operations::{handle_message, propose};
use calls::refusal::Refusal;
use state::range::{scratch_length, state_ok};
use state::words::{EPOCH_AT, FAULTS_AT};
use steps::numbers::{LAST_EPOCH, SUCCESS};
use work::commit::skip_to_epoch;

// The interface's number for what a call came to.
fn reply<E: Into<u64>>(outcome: Result<(), E>) -> u64
    ensures { MatchResult outcome (λ _. result ≡ success) (λ end. E.converts end result) }
{
    match outcome {
        Ok(()) => SUCCESS,
        Err(end) => end.into(),
    }
}

// Makes the words a state: reply 0, 1 for numbers out of range, 2 for another length.
pub fn hb_create(
    n: u64,
    f: u64,
    look_ahead: u64,
    own: u64,
    key: u64,
    strategy: u64,
    start_epoch: u64,
    schedule: u64,
    number_a: u64,
    number_b: u64,
    state: &mut [u64],
) -> u64
    ensures { (result ≡ create_reply (numbers n f look_ahead own key strategy start_epoch schedule number_a number_b) state.old)
        × (state.new ≡ create_state (numbers n f look_ahead own key strategy start_epoch schedule number_a number_b) state.old) }
{
    let numbers = Numbers {
        nodes: n,
        faulty: f,
        ahead: look_ahead,
        own,
        key,
        strategy,
        epoch: start_epoch,
        schedule,
        first: number_a,
        second: number_b,
    };
    reply(numbers.create(state))
}

// Clears the words of scratch that a call uses, its first ones.
fn clear(scratch: &mut [u64], used: usize)
    requires { used ≤ length scratch.old }
    ensures { scratch.new ≡ replicate used 0 ++ drop used scratch.old }
{
    scratch[..used].fill(0);
}

// The reply of a call that its checks turned down. Scratch is zero afterwards, unless the reply is 3 or 4.
#[tactic(auto, unfolding(calls::specs::Calls::zeroed))]
fn turned_down(refusal: Refusal, state: &[u64], scratch: &mut [u64]) -> u64
    requires { leaves_scratch (refusal_number refusal) ≡ false → StateWords state.now × (scratch_of state.now ≤ length scratch.old) }
    ensures reply { result ≡ refusal_number refusal }
    ensures left { leaves_scratch (refusal_number refusal) ≡ true → scratch.new ≡ scratch.old }
    ensures cleared { leaves_scratch (refusal_number refusal) ≡ false → scratch.new ≡ zeroed state.now scratch.old }
{
    if refusal.leaves_scratch() {
        return u64::from(refusal);
    }
    clear(scratch, scratch_length(state));
    u64::from(refusal)
}

// Proposes in the current epoch. Scratch is zero afterwards, unless the reply is 3 or 4.
#[tactic(auto, using(calls::proofs::ChecksApart::passed_words, calls::proofs::ChecksApart::passed_room, calls::proofs::ChecksApart::propose_callable))]
pub fn hb_propose(state: &mut [u64], scratch: &mut [u64], answers: &[u64], step: &mut [u64]) -> u64
    ensures { after result state.new scratch.new step.new
        ≡ propose_call state.old scratch.old answers.now step.old }
{
    if let Err(refusal) = propose_checks(state, scratch.len(), answers) {
        return turned_down(refusal, state, scratch);
    }
    let used = scratch_length(state);
    let ended = propose(state, scratch, answers, step);
    clear(scratch, used);
    reply(ended)
}

// Handles a message from a node. Scratch is zero afterwards, unless the reply is 3 or 4.
#[tactic(auto, using(calls::proofs::ChecksApart::passed_words, calls::proofs::ChecksApart::passed_room))]
pub fn hb_message(
    sender: u64,
    epoch: u64,
    content: u64,
    proposer: u64,
    item: u64,
    state: &mut [u64],
    scratch: &mut [u64],
    answers: &[u64],
    step: &mut [u64],
) -> u64
    ensures { after result state.new scratch.new step.new
        ≡ message_call state.old scratch.old answers.now step.old sender epoch content proposer item }
{
    let numbers = MessageNumbers {
        sender,
        content,
        proposer,
        item,
    };
    let content = match numbers.checks(state, scratch.len(), answers) {
        Ok(content) => content,
        Err(refusal) => return turned_down(refusal, state, scratch),
    };
    let used = scratch_length(state);
    let ended = handle_message(
        sender, epoch, proposer, content, state, scratch, answers, step,
    );
    clear(scratch, used);
    reply(ended)
}

// Skips to a later epoch: reply 0, 3 for words that are no state, 12 for a target above the last epoch.
pub fn hb_skip(target: u64, state: &mut [u64]) -> u64
    ensures { (result ≡ skip_reply target state.old) × (state.new ≡ skip_state target state.old) }
{
    reply(skip(target, state))
}

#[tactic(auto, unfolding(calls::specs::Calls::skip_reply, calls::specs::Calls::skip_state))]
fn skip(target: u64, state: &mut [u64]) -> Result<(), Refusal>
    ensures { (reply_of result ≡ skip_reply target state.old) × (state.new ≡ skip_state target state.old) }
{
    if !state_ok(state) {
        return Err(Refusal::NotAState);
    }
    if LAST_EPOCH < target {
        return Err(Refusal::TargetTooHigh);
    }
    skip_to_epoch(state, target);
    Ok(())
}

// A query: what is asked of a state, or 3 with the result untouched.
#[tactic(auto, unfolding(calls::specs::Calls::query_reply))]
fn query<F: FnOnce(&[u64]) -> u64>(state: &[u64], res: &mut u64, ask: F) -> Result<(), Refusal>
    requires { state_ok state.now ≡ true → F.pre ask state }
    ensures reply { reply_of result ≡ query_reply state.now }
    ensures told { state_ok state.now ≡ true → FnOnceReturnsAt F.FnOnce ask state.now res.new }
    ensures kept { state_ok state.now ≡ false → res.new ≡ res.old }
{
    if !state_ok(state) {
        return Err(Refusal::NotAState);
    }
    *res = ask(state);
    Ok(())
}

// The queries: reply 0, or 3 with the result untouched.
#[tactic(auto, using(crate::proofs::QueryCode::header_of, crate::proofs::QueryCode::replied), unfolding(calls::specs::Calls::current_epoch_result))]
pub fn hb_current_epoch(state: &[u64], res: &mut u64) -> u64
    ensures { (result ≡ query_reply state.now) × (res.new ≡ current_epoch_result state.now res.old) }
{
    reply(query(state, res, |state| state[EPOCH_AT]))
}

#[tactic(auto, using(crate::proofs::QueryCode::header_of, crate::proofs::QueryCode::replied), unfolding(calls::specs::Calls::has_input_result))]
pub fn hb_has_input(state: &[u64], res: &mut u64) -> u64
    ensures { (result ≡ query_reply state.now) × (res.new ≡ has_input_result state.now res.old) }
{
    reply(query(state, res, |state| u64::from(has_input(state))))
}

#[tactic(auto, using(crate::proofs::QueryCode::header_of, crate::proofs::QueryCode::replied), unfolding(calls::specs::Calls::received_proposals_result))]
pub fn hb_received_proposals(state: &[u64], res: &mut u64) -> u64
    ensures { (result ≡ query_reply state.now) × (res.new ≡ received_proposals_result state.now res.old) }
{
    reply(query(state, res, received_proposals))
}

#[tactic(auto, using(crate::proofs::QueryCode::header_of, crate::proofs::QueryCode::replied), unfolding(calls::specs::Calls::fault_count_result))]
pub fn hb_fault_count(state: &[u64], res: &mut u64) -> u64
    ensures { (result ≡ query_reply state.now) × (res.new ≡ fault_count_result state.now res.old) }
{
    reply(query(state, res, |state| state[FAULTS_AT]))
}
