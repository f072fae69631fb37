// The way of a call that has passed its checks: a first run that only counts, 8, 9 and 10, a second run that writes if there are records, then the commit.
// What is left in scratch is cleared by the caller.
//
// state, scratch, answers and table are no struct: C lends each as a slice of its own, and a struct of them would hold three `&mut` and owe
// that they are the same ones afterwards. Epoch and call are one with the state where it is only read (`HoneyBadger`); here it is written.
ghost use Rattle.std.specs.Prelude.{◌≡◌, length, List, [], ◌∷◌, true, ℕ, ◌≤◌};
ghost use Rattle.steps.specs.Answers.{tape_of};
ghost use Rattle.steps.specs.Steps.{fault, out, counting};
ghost use Rattle.steps.specs.Runs.{going, failed, ends, before};
ghost use Rattle.steps.specs.Written.{out_of};
ghost use Rattle.steps.specs.Numbers.{unexpected_hb_message_epoch};
ghost use Rattle.subset.specs.Words.{epoch_length};
ghost use Rattle.state.specs.State.{nodes, state_ok};
ghost use Rattle.state.specs.Shape.{StateWords};
ghost use Rattle.calls.specs.Calls.{after, zeroed, conclude};
ghost use Rattle.calls.specs.Refusals.{call_reply, failure_of};
ghost use Rattle.work.specs.Work.{worked};
ghost use Rattle.work.specs.Shape.{call_work, call_base};
ghost use Rattle.calls.specs.Shape.{settled, all_read, as_done, Callable, Runnable, counted_by};

use crate::refusal::{End, Refusal};
use state::words::{NODES_AT, epoch_length};
use steps::kinds::{Failure, FaultKind, Stop};
use steps::reader::Reader;
use steps::step::{Step, Writer};
use work::commit::{commit, count_faults};
use work::honey_badger::{Call, HoneyBadger};

// A call that runs no epoch: an observer's propose, and a message for an epoch that is over. Its step is empty.
#[tactic(auto, using(crate::proofs::CallCode::none_counted, crate::proofs::CallCode::end_is, crate::proofs::CallCode::still_unread, crate::proofs::CallCode::still_full, crate::proofs::CallCode::rest_done))]
pub fn rest(epoch: u64, state: &[u64], answers: &[u64], table: &mut [u64]) -> Result<(), End>
    requires { (state_ok state.now ≡ true) × (4 ≤ length answers.now) }
    ensures { (scratch : List ℕ) → after (call_reply result) state.now scratch table.new
        ≡ conclude (ends (going tt) state.now (tape_of answers.now)) epoch state.now scratch table.old }
{
    if !Reader::new(answers).is_end() {
        return Err(Refusal::AnswersUnread.into());
    }
    if table.len() < 4 {
        return Err(Refusal::StepTableTooShort.into());
    }
    Step::counting().writing().header(table, epoch);
    Ok(())
}

// A message for an epoch beyond the look-ahead: fault 1 of its sender.
#[tactic(auto, using(state::proofs::WordsCode::header_inside, state::proofs::RangeCode::ok_words, crate::proofs::CallCode::end_is, crate::proofs::CallCode::still_unread, crate::proofs::CallCode::still_full, crate::proofs::CallCode::early_counted, crate::proofs::CallCode::early_done, crate::proofs::CallCode::one_fault))]
pub fn too_early(
    sender: u64,
    epoch: u64,
    state: &mut [u64],
    answers: &[u64],
    table: &mut [u64],
) -> Result<(), End>
    requires { (state_ok state.old ≡ true) × (4 ≤ length answers.now) }
    ensures { (scratch : List ℕ) → after (call_reply result) state.new scratch table.new
        ≡ conclude (before (fault unexpected_hb_message_epoch sender 0 ∷ []) (ends (going tt) state.old (tape_of answers.now))) epoch state.old scratch table.old }
{
    if !Reader::new(answers).is_end() {
        return Err(Refusal::AnswersUnread.into());
    }
    if table.len() / 4 < 2 {
        return Err(Refusal::StepTableTooShort.into());
    }
    let mut counter = Writer::counting();
    counter.fault(FaultKind::UnexpectedHbMessageEpoch, sender, 0);
    let step = counter.step.writing();
    let mut writer = Writer { step, words: table };
    writer.fault(FaultKind::UnexpectedHbMessageEpoch, sender, 0);
    step.header(table, epoch);
    count_faults(state, 1);
    Ok(())
}

// A run whose step has no record: it failed, and its step is lost, or it is done and wrote none (`done_empty` in proofs/CallCode.antt).
// What it changed stays.
#[tactic(auto, using(crate::proofs::CallCode::failed_full, crate::proofs::CallCode::failed_done))]
fn close(
    state: &mut [u64],
    words: &[u64],
    epoch: u64,
    call: Call,
    next: u64,
    outcome: Result<(), Failure>,
    table: &mut [u64],
) -> Result<(), End>
    requires { StateWords state.old × (length words.now ≡ epoch_length (nodes state.old)) }
    ensures { (scratch : List ℕ) → after (call_reply result) state.new scratch table.new
        ≡ settled (ends (failed (failure_of outcome)) (worked words.now next) all_read) epoch (call_base call state.old) state.old scratch table.old }
{
    if table.len() < 4 {
        return Err(Refusal::StepTableTooShort.into());
    }
    commit(state, call, epoch, words, next);
    Step::counting().header(table, epoch);
    outcome.map_err(End::Failed)
}

// A run that is done: the second run writes its step, then the state is written.
#[tactic(auto, using(state::proofs::WordsCode::header_inside, state::proofs::RangeCode::ok_words, crate::proofs::CallCode::done_counted, crate::proofs::CallCode::done_full, crate::proofs::CallCode::done_written))]
fn finish(
    state: &mut [u64],
    words: &mut [u64],
    epoch: u64,
    call: Call,
    answers: &[u64],
    counted: Step,
    table: &mut [u64],
) -> Result<(), End>
    requires { Runnable call state.old words.old answers.now × (counted ≡ counted_by call epoch state.old answers.now) }
    ensures { (scratch : List ℕ) → after (call_reply result) state.new scratch table.new
        ≡ settled (as_done (call_work call epoch state.old (tape_of answers.now))) epoch (call_base call state.old) state.old scratch table.old }
{
    if table.len() / 4 < counted.records() {
        return Err(Refusal::StepTableTooShort.into());
    }
    let step = counted.writing();
    let mut next = 0;
    let mut again = Reader::new(answers);
    let mut writer = Writer { step, words: table };
    let engine = HoneyBadger { state, epoch, call };
    let _ = engine.run(words, &mut next, &mut again, &mut writer);
    step.header(table, epoch);
    commit(state, call, epoch, words, next);
    count_faults(state, counted.faults.at);
    Ok(())
}

// Both runs and the commit, with the words of the call's epoch. A step without records, as most are, needs no second run.
#[tactic(auto, using(state::proofs::RangeCode::ok_words, crate::proofs::CallCode::first_counted, crate::proofs::CallCode::first_step, crate::proofs::CallCode::first_refused, crate::proofs::CallCode::unread, crate::proofs::CallCode::failed_read, crate::proofs::CallCode::done_empty, crate::proofs::CallCode::done_read))]
fn run_twice(
    state: &mut [u64],
    words: &mut [u64],
    epoch: u64,
    call: Call,
    answers: &[u64],
    table: &mut [u64],
) -> Result<(), End>
    requires { Runnable call state.old words.old answers.now }
    ensures { (scratch : List ℕ) → after (call_reply result) state.new scratch table.new
        ≡ settled (call_work call epoch state.old (tape_of answers.now)) epoch (call_base call state.old) state.old scratch table.old }
{
    let mut next = 0;
    let mut reader = Reader::new(answers);
    let mut counter = Writer::counting();
    let engine = HoneyBadger { state, epoch, call };
    let outcome = engine.run(words, &mut next, &mut reader, &mut counter);
    let read = reader.is_end();
    let counted = counter.step;
    match outcome {
        Err(Stop::NotNext) => Err(Refusal::AnswerNotNext.into()),
        _ if !read => Err(Refusal::AnswersUnread.into()),
        Err(Stop::Failed(error)) => close(state, words, epoch, call, next, Err(error), table),
        Ok(()) if counted.records() == 1 => close(state, words, epoch, call, next, Ok(()), table),
        Ok(()) => finish(state, words, epoch, call, answers, counted, table),
    }
}

// A call that runs an epoch, in the first words of scratch.
#[tactic(auto, using(state::proofs::WordsCode::header_inside, state::proofs::RangeCode::ok_words, crate::proofs::CallCode::epoch_fits, crate::proofs::CallCode::zeroed_part))]
pub fn settle(
    state: &mut [u64],
    scratch: &mut [u64],
    epoch: u64,
    call: Call,
    answers: &[u64],
    table: &mut [u64],
) -> Result<(), End>
    requires { Callable call state.old scratch.old answers.now }
    ensures { after (call_reply result) state.new (zeroed state.old scratch.new) table.new
        ≡ settled (call_work call epoch state.old (tape_of answers.now)) epoch (call_base call state.old) state.old (zeroed state.old scratch.old) table.old }
{
    let size = epoch_length(state[NODES_AT] as usize);
    run_twice(state, &mut scratch[..size], epoch, call, answers, table)
}
