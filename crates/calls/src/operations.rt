// Propose and message that have passed their checks, after honey_badger.rs. What is left in scratch is cleared by the caller. Why the four slices are
// no struct stands in call.rt.
ghost use Rattle.std.specs.Prelude.{◌≡◌};
ghost use Rattle.steps.specs.Answers.{tape_of};
ghost use Rattle.state.specs.State.{current_epoch};
ghost use Rattle.work.specs.HoneyBadger.{propose, handle_message};
ghost use Rattle.calls.specs.Calls.{after, zeroed, conclude};
ghost use Rattle.calls.specs.Refusals.{call_reply};
ghost use Rattle.work.specs.declared.honey_badger.Call.TheVariants.{Propose, Message};
ghost use Rattle.calls.specs.Shape.{Callable};

use crate::call::{rest, settle, too_early};
use crate::refusal::End;
use epoch::MessageContent;
use state::words::{AHEAD_AT, EPOCH_AT, net_of};
use work::honey_badger::Call;

// `propose`. An observer's changes nothing.
#[tactic(auto, using(state::proofs::WordsCode::header_inside, state::proofs::RangeCode::ok_words, crate::proofs::OperationCode::propose_runs))]
pub fn propose(
    state: &mut [u64],
    scratch: &mut [u64],
    answers: &[u64],
    table: &mut [u64],
) -> Result<(), End>
    requires { Callable Propose state.old scratch.old answers.now }
    ensures { after (call_reply result) state.new (zeroed state.old scratch.new) table.new
        ≡ conclude (propose state.old (tape_of answers.now)) (current_epoch state.old) state.old (zeroed state.old scratch.old) table.old }
{
    let epoch = state[EPOCH_AT];
    let net = net_of(state);
    if !net.is_validator() {
        return rest(epoch, state, answers, table);
    }
    settle(state, scratch, epoch, Call::Propose, answers, table)
}

// `handle_message`, from a sender that is a node.
#[tactic(auto, using(state::proofs::WordsCode::header_inside, state::proofs::RangeCode::ok_words, crate::proofs::OperationCode::message_early, crate::proofs::OperationCode::message_late, crate::proofs::OperationCode::message_runs))]
pub fn handle_message(
    sender: u64,
    epoch: u64,
    proposer: u64,
    content: MessageContent,
    state: &mut [u64],
    scratch: &mut [u64],
    answers: &[u64],
    table: &mut [u64],
) -> Result<(), End>
    requires { Callable (Message sender proposer content) state.old scratch.old answers.now }
    ensures { after (call_reply result) state.new (zeroed state.old scratch.new) table.new
        ≡ conclude (handle_message sender epoch proposer content state.old (tape_of answers.now)) epoch state.old (zeroed state.old scratch.old) table.old }
{
    let current = state[EPOCH_AT];
    if current + state[AHEAD_AT] < epoch {
        return too_early(sender, epoch, state, answers, table);
    }
    if epoch < current {
        return rest(epoch, state, answers, table);
    }
    let call = Call::Message(sender as usize, proposer as usize, content);
    settle(state, scratch, epoch, call, answers, table)
}
