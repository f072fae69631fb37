// The batch of an epoch, after batch.rs and `try_output_batch` of epoch_state.rs. The epoch's words are only read.
ghost use Rattle.std.specs.Prelude.{◌≡◌, ◌&&◌, not, ◌<◌, ◌≤◌, get_or};
ghost use Rattle.subset.specs.Words.{field_at};
ghost use Rattle.steps.specs.Steps.{put_all};
ghost use Rattle.steps.specs.Runs.{leaves};
ghost use Rattle.steps.specs.Written.{out_of, same_table, left};
ghost use Rattle.epochwords.specs.Shape.{Records};
ghost use Rattle.epochwords.specs.Words.{is_accepted, is_settled, decryption_in, plaintext_field};
ghost use Rattle.epochwords.specs.Batch.{is_ready_in, is_read, read_at, read_from, entries_from, output_batch_in};

use crate::tags::{is_open, is_settled};
use crate::words::{ACCEPTED_AT, DECRYPTION_FIELD, PLAINTEXT_FIELD, STATUS_AT, STATUS_COMPLETE};
use steps::bits::{has_bit, with_bit};
use steps::kinds::{AnswerKind, FaultKind, OutputKind, Stop};
use steps::reader::Reader;
use steps::step::Writer;
use subset::words::field_at;

// The words of an epoch as its batch is read from them: n records of `size` words each.
#[derive(Clone, Copy)]
pub struct EpochRecords<'a> {
    pub words: &'a [u64],
    pub size: usize,
    pub n: usize,
    ghost inside: { Records size n words.now },
}

impl EpochRecords<'_> {
    // Word `field` of proposer p's record.
    fn word(self, p: usize, field: usize) -> u64
        requires { (p < self.n) × (field ≤ plaintext_field) }
        ensures { result ≡ get_or self.entry.words.now (field_at self.entry.size p field) 0 }
    {
        self.words[field_at(self.size, p, field)]
    }

    // Whether the epoch waits for the contribution of proposer p.
    #[tactic(auto, unfolding(crate::specs::Words::is_accepted))]
    fn is_awaited(self, p: usize) -> bool
        requires { p < self.n }
        ensures { result ≡ (is_accepted self.entry.words.now p && not (is_settled (decryption_in self.entry.size self.entry.words.now p))) }
    {
        has_bit(self.words[ACCEPTED_AT], p) & !is_settled(self.word(p, DECRYPTION_FIELD))
    }

    // Whether the subset is done, and the epoch waits for no accepted contribution.
    #[tactic(auto, using(crate::proofs::BatchCode::ready_awaits, crate::proofs::BatchCode::ready_turn, crate::proofs::BatchCode::ready_over), unfolding(crate::specs::Batch::is_ready_in))]
    pub fn is_ready(self) -> bool
        ensures { result ≡ is_ready_in self.entry.size self.entry.n self.entry.words.now }
    {
        if self.words[STATUS_AT] != STATUS_COMPLETE {
            return false;
        }
        for p in 0..self.n {
            if self.is_awaited(p) {
                return false;
            }
        }
        true
    }

    // Whether the contribution of proposer p belongs to the batch: it is accepted and has a plaintext.
    #[tactic(auto, unfolding(crate::specs::Words::is_accepted, crate::specs::Batch::is_read))]
    fn is_read(self, p: usize) -> bool
        requires { p < self.n }
        ensures { result ≡ is_read self.entry.size self.entry.words.now p }
    {
        has_bit(self.words[ACCEPTED_AT], p) & is_open(self.word(p, DECRYPTION_FIELD))
    }

    // Asks whether the contribution of proposer p reads, where it belongs to the batch: its bit joins the readable ones. One that doesn't
    // is the proposer's fault.
    #[tactic(auto, unfolding(crate::specs::Batch::read_at, steps::specs::Steps::put_all))]
    fn read_at(
        self,
        p: usize,
        readable: u64,
        reader: &mut Reader,
        writer: &mut Writer,
    ) -> Result<u64, Stop>
        requires { p < self.n }
        ensures run { left self.entry.words.now result reader.new writer.new ≡ leaves (out_of writer.old) (read_at self.entry.size p readable self.entry.words.now reader.old) }
        ensures table { same_table writer.old writer.new }
    {
        if !self.is_read(p) {
            return Ok(readable);
        }
        let (a, _) = reader.ask_about(AnswerKind::ContributionReads, p)?;
        if a == 0 {
            writer.fault(FaultKind::BatchDeserializationFailed, p as u64, 0);
            return Ok(readable);
        }
        Ok(with_bit(readable, p))
    }

    // Reads the contributions of the batch, by rising proposer: the readable ones, a word of bits.
    #[tactic(auto, using(crate::proofs::BatchCode::reads_over), unfolding(steps::specs::Steps::put_all))]
    fn read_all(self, reader: &mut Reader, writer: &mut Writer) -> Result<u64, Stop>
        ensures run { left self.entry.words.now result reader.new writer.new ≡ leaves (out_of writer.old) (read_from self.entry.size self.entry.n 0 0 self.entry.words.now reader.old) }
        ensures table { same_table writer.old writer.new }
    {
        let mut readable: u64 = 0;
        for p in 0..self.n {
            readable = self.read_at(p, readable, reader, writer)?;
        }
        Ok(readable)
    }

    // An entry for each readable contribution, by rising proposer.
    #[tactic(auto, using(crate::proofs::BatchCode::entries_some, crate::proofs::BatchCode::entries_none, crate::proofs::BatchCode::entries_over))]
    fn put_entries(self, readable: u64, writer: &mut Writer)
        ensures step { out_of writer.new ≡ put_all (out_of writer.old) (entries_from self.entry.size self.entry.n 0 readable self.entry.words.now) }
        ensures table { same_table writer.old writer.new }
    {
        for p in 0..self.n {
            if has_bit(readable, p) {
                writer.output(OutputKind::Entry, p as u64, self.word(p, PLAINTEXT_FIELD));
            }
        }
    }

    // Hands out the batch of an epoch that is ready: the batch's own size, then its entries. `number` is the epoch's.
    pub fn output_batch(
        self,
        number: u64,
        reader: &mut Reader,
        writer: &mut Writer,
    ) -> Result<(), Stop>
        ensures run { left self.entry.words.now result reader.new writer.new ≡ leaves (out_of writer.old) (output_batch_in self.entry.size self.entry.n number self.entry.words.now reader.old) }
        ensures table { same_table writer.old writer.new }
    {
        let readable = self.read_all(reader, writer)?;
        let entries = u64::from(readable.count_ones());
        writer.output(OutputKind::Batch, number, entries);
        self.put_entries(readable, writer);
        Ok(())
    }
}
