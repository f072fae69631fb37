// The engine for C: libbelkjund.a is compiled from this crate, and include/belkjund.h declares what it exports. Each export calls the engine's function
// of its name and promises what that one does. A slice crosses as a pointer and a length in words. Each is written out again because a crate is a
// library or a static library, and what C calls has to stand in the latter.
#![tactic(auto)]

ghost use Rattle.std.specs.Prelude.{◌≡◌};
ghost use Rattle.calls.specs.Calls.{after, propose_call, message_call, skip_reply, skip_state, query_reply, current_epoch_result, has_input_result, received_proposals_result, fault_count_result};
ghost use Rattle.engine.specs.Create.{numbers, create_reply, create_state};

// Makes the words a state: reply 0, 1 for numbers out of range, 2 for another length.
#[unsafe(no_mangle)]
pub extern "C" fn hb_create(
    n: u64,
    f: u64,
    look_ahead: u64,
    own: u64,
    key: u64,
    strategy: u64,
    start_epoch: u64,
    schedule: u64,
    number_a: u64,
    number_b: u64,
    state: &mut [u64],
) -> u64
    ensures { (result ≡ create_reply (numbers n f look_ahead own key strategy start_epoch schedule number_a number_b) state.old)
        × (state.new ≡ create_state (numbers n f look_ahead own key strategy start_epoch schedule number_a number_b) state.old) }
{
    engine::hb_create(
        n,
        f,
        look_ahead,
        own,
        key,
        strategy,
        start_epoch,
        schedule,
        number_a,
        number_b,
        state,
    )
}

// Proposes in the current epoch. Scratch is zero afterwards, unless the reply is 3 or 4.
#[unsafe(no_mangle)]
pub extern "C" fn hb_propose(
    state: &mut [u64],
    scratch: &mut [u64],
    answers: &[u64],
    step: &mut [u64],
) -> u64
    ensures { after result state.new scratch.new step.new
        ≡ propose_call state.old scratch.old answers.now step.old }
{
    engine::hb_propose(state, scratch, answers, step)
}

// Handles a message from a node. Scratch is zero afterwards, unless the reply is 3 or 4.
#[unsafe(no_mangle)]
pub extern "C" fn hb_message(
    sender: u64,
    epoch: u64,
    content: u64,
    proposer: u64,
    item: u64,
    state: &mut [u64],
    scratch: &mut [u64],
    answers: &[u64],
    step: &mut [u64],
) -> u64
    ensures { after result state.new scratch.new step.new
        ≡ message_call state.old scratch.old answers.now step.old sender epoch content proposer item }
{
    engine::hb_message(
        sender, epoch, content, proposer, item, state, scratch, answers, step,
    )
}

// Skips to a later epoch: reply 0, 3 for words that are no state, 12 for a target above the last epoch.
#[unsafe(no_mangle)]
pub extern "C" fn hb_skip(target: u64, state: &mut [u64]) -> u64
    ensures { (result ≡ skip_reply target state.old) × (state.new ≡ skip_state target state.old) }
{
    engine::hb_skip(target, state)
}

// The queries: reply 0, or 3 with the result untouched.
#[unsafe(no_mangle)]
pub extern "C" fn hb_current_epoch(state: &[u64], res: &mut u64) -> u64
    ensures { (result ≡ query_reply state.now) × (res.new ≡ current_epoch_result state.now res.old) }
{
    engine::hb_current_epoch(state, res)
}

#[unsafe(no_mangle)]
pub extern "C" fn hb_has_input(state: &[u64], res: &mut u64) -> u64
    ensures { (result ≡ query_reply state.now) × (res.new ≡ has_input_result state.now res.old) }
{
    engine::hb_has_input(state, res)
}

#[unsafe(no_mangle)]
pub extern "C" fn hb_received_proposals(state: &[u64], res: &mut u64) -> u64
    ensures { (result ≡ query_reply state.now) × (res.new ≡ received_proposals_result state.now res.old) }
{
    engine::hb_received_proposals(state, res)
}

#[unsafe(no_mangle)]
pub extern "C" fn hb_fault_count(state: &[u64], res: &mut u64) -> u64
    ensures { (result ≡ query_reply state.now) × (res.new ≡ fault_count_result state.now res.old) }
{
    engine::hb_fault_count(state, res)
}
