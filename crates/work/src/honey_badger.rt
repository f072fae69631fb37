// The engine's runs, after honey_badger.rs. A run reads the state and works on the words of one epoch apart from it.
//
// `words` are the words of the call's epoch. That they are as long as an epoch's stays in clauses: they are lent by `&mut`.
ghost use Rattle.std.specs.Prelude.{◌≡◌, true, ◌+◌, ◌≤◌, length};
ghost use Rattle.steps.specs.Runs.{leaves};
ghost use Rattle.steps.specs.Written.{out_of, same_table, left, left_reading};
ghost use Rattle.subset.specs.Words.{epoch_length};
ghost use Rattle.epochwords.specs.Shape.{EpochWords, Listed};
ghost use Rattle.state.specs.State.{nodes, ahead, current_epoch, epoch_words, state_ok};
ghost use Rattle.work.specs.Work.{built, epoch_call, beside, batches_from, worked};
ghost use Rattle.work.specs.Shape.{CallOk, CallOk-prop, body_of, input_of, call_work, try_output_batch};

use epoch::MessageContent;
use epoch::epoch_state::{Input, Setting, SubsetInput, handle, new_epoch};
use epochwords::batch::EpochRecords;
use epochwords::words::{STATUS_AT, STATUS_VACANT};
use state::words::{
    AHEAD_AT, EPOCH_AT, NODES_AT, encrypted_in, epoch_in, load, net_of, strategy_of,
};
use steps::kinds::{AnswerKind, Failure, Stop};
use steps::reader::Reader;
use steps::step::Writer;
use subset::words::RECORD_FIELDS;

// What an epoch is called with: the own proposal, or a message: sender, proposer, content.
#[derive(Clone, Copy)]
pub enum Call {
    Propose,
    Message(usize, usize, MessageContent),
}

// What comes to the epoch with a call.
impl From<Call> for Input {
    ghost from_gives = { λ call input. input ≡ input_of call };

    fn from(call: Call) -> Input {
        match call {
            Call::Propose => Input::Subset(SubsetInput::Proposal),
            Call::Message(sender, proposer, content) => match content {
                MessageContent::Subset(message) => {
                    Input::Subset(SubsetInput::Message(message, proposer))
                }
                MessageContent::DecryptionShare(share) => Input::Share(sender, proposer, share),
            },
        }
    }
}

// The engine at a call: its state, which is only read, the call and its epoch.
#[derive(Clone, Copy)]
pub struct HoneyBadger<'a> {
    pub state: &'a [u64],
    pub epoch: u64,
    pub call: Call,
    ghost in_range: { state_ok state.now ≡ true },
    ghost nodes: { CallOk call (nodes state.now) } by { CallOk-prop call (nodes state.now) },
}

// `try_output_batch`: hands out the batch of epoch `number`, whose words these are, if it is ready: whether it went out.
#[tactic(auto, unfolding(crate::specs::Shape::try_output_batch, steps::specs::Steps::put_all))]
fn try_output_batch(
    words: &[u64],
    n: usize,
    number: u64,
    reader: &mut Reader,
    writer: &mut Writer,
) -> Result<bool, Stop>
    requires { EpochWords n words.now }
    ensures run { left words.now result reader.new writer.new ≡ leaves (out_of writer.old) (try_output_batch n number words.now reader.old) }
    ensures table { same_table writer.old writer.new }
{
    let size = RECORD_FIELDS + n;
    let records = EpochRecords { words, size, n };
    if !records.is_ready() {
        return Ok(false);
    }
    records.output_batch(number, reader, writer)?;
    Ok(true)
}

// `epoch_state_mut`: the instances of an epoch are built where there are none.
#[tactic(auto, unfolding(crate::specs::Work::built))]
fn build(n: usize, words: &mut [u64], reader: &mut Reader) -> Result<(), Stop>
    requires { EpochWords n words.old }
    ensures { left_reading words.new result reader.new ≡ built n words.old reader.old }
{
    if words[STATUS_AT] != STATUS_VACANT {
        return Ok(());
    }
    let (a, _) = reader.ask(AnswerKind::InstancesBuilt)?;
    if a == 0 {
        return Err(Stop::Failed(Failure::CreateSubset));
    }
    new_epoch(words, n);
    Ok(())
}

impl HoneyBadger<'_> {
    // Hands out the batch of epoch `number`, if it is ready. The words of the epochs that are not called stand in the state.
    #[tactic(auto, using(state::proofs::WordsCode::words_epoch, state::proofs::RangeCode::ok_words, crate::proofs::BatchTurnCode::beside_own, crate::proofs::BatchTurnCode::beside_other))]
    fn try_output_at(
        &self,
        words: &[u64],
        number: u64,
        reader: &mut Reader,
        writer: &mut Writer,
    ) -> Result<bool, Stop>
        requires { length words.now ≡ epoch_length (nodes self.now.state.now) }
        ensures run { left (beside self.now.state.now self.now.epoch words.now number) result reader.new writer.new
            ≡ leaves (out_of writer.old) (try_output_batch (nodes self.now.state.now) number (beside self.now.state.now self.now.epoch words.now number) reader.old) }
        ensures table { same_table writer.old writer.new }
    {
        let n = self.state[NODES_AT] as usize;
        if number == self.epoch {
            return try_output_batch(words, n, number, reader, writer);
        }
        try_output_batch(epoch_in(self.state, number), n, number, reader, writer)
    }

    // `try_output_batches`: hands out batches from the current epoch on, as long as the next one is ready. `next` is then the epoch that is
    // next.
    #[tactic(auto, using(state::proofs::WordsCode::header_inside, state::proofs::RangeCode::ok_words, crate::proofs::BatchTurnCode::tried_over, crate::proofs::BatchTurnCode::tried_ends, crate::proofs::BatchTurnCode::none_left), unfolding(steps::specs::Steps::put_all))]
    fn try_output_batches(
        &self,
        words: &[u64],
        next: &mut u64,
        reader: &mut Reader,
        writer: &mut Writer,
    ) -> Result<(), Stop>
        requires { length words.now ≡ epoch_length (nodes self.now.state.now) }
        ensures run { left next.new result reader.new writer.new
            ≡ leaves (out_of writer.old) (batches_from (nodes self.now.state.now) (beside self.now.state.now self.now.epoch words.now) (ahead self.now.state.now + 1) (current_epoch self.now.state.now) reader.old) }
        ensures table { same_table writer.old writer.new }
    {
        let current = self.state[EPOCH_AT];
        let behind = current + self.state[AHEAD_AT] + 1;
        *next = current;
        for number in current..behind {
            if !self.try_output_at(words, number, reader, writer)? {
                return Ok(());
            }
            *next = number + 1;
        }
        Ok(())
    }

    // The epoch's own call.
    #[tactic(auto, using(state::proofs::WordsCode::header_inside, state::proofs::RangeCode::ok_words, state::proofs::RangeCode::ok_schedule, crate::proofs::RunCode::net_network, crate::proofs::RunCode::net_nodes, crate::proofs::RunCode::call_comes, crate::proofs::RunCode::body_input))]
    fn call_body(
        &self,
        words: &mut [u64],
        reader: &mut Reader,
        writer: &mut Writer,
    ) -> Result<(), Stop>
        requires { EpochWords (nodes self.now.state.now) words.old × Listed (nodes self.now.state.now) words.old }
        ensures run { left words.new result reader.new writer.new ≡ leaves (out_of writer.old) (body_of self.now.call self.now.state.now self.now.epoch words.old reader.old) }
        ensures table { same_table writer.old writer.new }
    {
        let setting = Setting {
            net: net_of(self.state),
            strategy: strategy_of(self.state),
            encrypted: encrypted_in(self.state, self.epoch),
        };
        handle(words, setting, Input::from(self.call), reader, writer)
    }

    // The epoch's words are built where there are none, then its own call runs.
    #[tactic(auto, using(state::proofs::WordsCode::header_inside, state::proofs::RangeCode::ok_words))]
    fn call_epoch(
        &self,
        words: &mut [u64],
        reader: &mut Reader,
        writer: &mut Writer,
    ) -> Result<(), Stop>
        requires { length words.old ≡ epoch_length (nodes self.now.state.now) }
        ensures run { left words.new result reader.new writer.new
            ≡ leaves (out_of writer.old) (epoch_call (nodes self.now.state.now) (body_of self.now.call self.now.state.now self.now.epoch) (epoch_words self.now.state.now self.now.epoch) reader.old) }
        ensures table { same_table writer.old writer.new }
    {
        load(self.state, self.epoch, words);
        build(self.state[NODES_AT] as usize, words, reader)?;
        self.call_body(words, reader, writer)
    }

    // A run: the epoch's call on its words, then batches are handed out. The state is only read; `next` is where the run leaves the current
    // epoch. It is lent: where a run fails, the epochs whose batches went out stay behind, so it matters then too, and `?` hands on no value.
    #[tactic(auto, using(state::proofs::WordsCode::header_inside, state::proofs::RangeCode::ok_words))]
    pub fn run(
        &self,
        words: &mut [u64],
        next: &mut u64,
        reader: &mut Reader,
        writer: &mut Writer,
    ) -> Result<(), Stop>
        requires { length words.old ≡ epoch_length (nodes self.now.state.now) }
        ensures run { left (worked words.new next.new) result reader.new writer.new ≡ leaves (out_of writer.old) (call_work self.now.call self.now.epoch self.now.state.now reader.old) }
        ensures table { same_table writer.old writer.new }
    {
        *next = self.state[EPOCH_AT];
        self.call_epoch(words, reader, writer)?;
        self.try_output_batches(words, next, reader, writer)
    }
}
