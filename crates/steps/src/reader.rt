// The answer reader: the records of the chain, one after the other. The reader is lent, and its place moves past what was read.
ghost use Rattle.std.specs.Prelude.{◌≡◌, cond, ltb, Some, Ok, drop};
ghost use Rattle.steps.specs.Answers.{chain, tape, tape_at, tape_of, first_record, is_end, ask, ask_about, last_index, cursor_at};
ghost use Rattle.steps.specs.Steps.{put_all};
ghost use Rattle.steps.specs.Kinds.{message_number, fault_number};
ghost use Rattle.steps.specs.Written.{out_of, same_table, left_stateless};
ghost use Rattle.steps.specs.Told.{told, heard_in, taken};
ghost use Rattle.steps.specs.Runs.{leaves};
ghost use Rattle.steps.specs.Parts.{is_part, message_kind, fault_kind, part_entries, output_of, read_parts};

use crate::kinds::{FaultKind, MessageKind, Numbered, Stop};
use crate::numbers::{FAULT_PART, MESSAGE_PART, OUTPUT_PART};
use crate::step::Writer;
use std::marker::Model;

// Where a reader stands in an answer table: the index of the record to be read next, and the index of the last record. 0 is the end, as a next is
// in the table itself.
#[derive(Clone, Copy, Debug)]
pub struct Cursor {
    pub place: usize,
    pub last: usize,
}

// A record of the answer table, with the place after it. Its kind is a number, as the host has written it.
#[derive(Clone, Copy, Debug)]
struct Record {
    next: usize,
    kind: u64,
    a: u64,
    b: u64,
}

// A reader of an answer table, lent to each layer. Clauses see the place that it has come to and the records from there on.
#[derive(Clone, Drop)]
pub struct Reader<'a> {
    answers: &'a [u64],
    cursor: Cursor,
}

impl<'a> Model for Reader<'a> {
    ghost use Rattle.std.specs.Prelude.{◌≡◌};
    ghost use Rattle.steps.specs.Answers.{Tape, tape_at, last_index};

    ghost Value = { Tape };

    ghost view = { λ r. tape_at r.answers.now r.cursor.place };

    ghost invariant = { λ r. r.cursor.last ≡ last_index r.answers.now };
}

// Whose parts they are: a broadcast's or an agreement's.
#[derive(Clone, Copy, Debug, PartialEq, Eq)]
pub enum Content {
    Broadcast,
    Agreement,
}

// The kind of its messages in the step.
impl From<Content> for MessageKind {
    ghost from_gives = { λ content kind. message_number kind ≡ message_kind content };

    fn from(content: Content) -> MessageKind {
        match content {
            Content::Broadcast => MessageKind::Broadcast,
            Content::Agreement => MessageKind::Agreement,
        }
    }
}

// The kind of its faults.
impl From<Content> for FaultKind {
    ghost from_gives = { λ content kind. fault_number kind ≡ fault_kind content };

    fn from(content: Content) -> FaultKind {
        match content {
            Content::Broadcast => FaultKind::BroadcastFault,
            Content::Agreement => FaultKind::AgreementFault,
        }
    }
}

impl Record {
    // Whether it is a part of the answer before it.
    #[tactic(auto, unfolding(crate::specs::Parts::is_part))]
    fn is_part(self) -> bool
        ensures { result ≡ is_part self.kind }
    {
        (MESSAGE_PART..=OUTPUT_PART).contains(&self.kind)
    }

    // A part's output.
    #[tactic(auto, unfolding(crate::specs::Parts::output_of))]
    fn output(self) -> Option<u64>
        ensures { result ≡ output_of self.kind self.b }
    {
        (self.kind == OUTPUT_PART).then_some(self.b)
    }

    // Writes a part's message or fault.
    fn write_part(self, content: Content, proposer: usize, writer: &mut Writer)
        ensures step { out_of writer.new ≡ put_all (out_of writer.old) (part_entries content proposer self.kind self.a self.b) }
        ensures table { same_table writer.old writer.new }
    {
        if self.kind == MESSAGE_PART {
            writer.message(MessageKind::from(content), proposer as u64, self.b);
        } else if self.kind == FAULT_PART {
            writer.fault(FaultKind::from(content), self.a, self.b);
        }
    }
}

// The index of the last record, 0 where there is none.
fn last_index(answers: &[u64]) -> usize
    ensures { result ≡ last_index answers.now }
{
    (answers.len() / 4).saturating_sub(1)
}

// The cursor at a place of a table. That of a reader is the one at its place.
pub fn cursor_at(answers: &[u64], place: usize) -> Cursor
    ensures { result ≡ cursor_at answers.now place }
{
    let last = last_index(answers);
    Cursor { place, last }
}

// The place after a record that stands at a place. A next that is not above its own record ends the chain.
fn link(place: usize, next: usize) -> usize
    ensures { result ≡ cond (ltb place next) next 0 }
{
    if place < next { next } else { 0 }
}

// The record at a place, where the table has one.
fn record_at(answers: &[u64], place: usize, last: usize) -> Option<Record>
    requires { last ≡ last_index answers.now }
    ensures { result ≡ first_record (chain answers.now place) }
{
    if place == 0 {
        return None;
    }
    if last < place {
        return None;
    }
    let word = place * 4;
    Some(Record {
        next: link(place, answers[word] as usize),
        kind: answers[word + 1],
        a: answers[word + 2],
        b: answers[word + 3],
    })
}

impl<'a> Reader<'a> {
    // A reader at a place of a table, the index of the record to be read next.
    pub fn at(answers: &'a [u64], place: usize) -> Self
        ensures { result ≡ tape_at answers.now place }
    {
        Reader {
            answers,
            cursor: cursor_at(answers, place),
        }
    }

    // A reader at a table's first answer, whose index word 0 is.
    pub fn new(answers: &'a [u64]) -> Self
        ensures { result ≡ tape_of answers.now }
    {
        Reader::at(answers, answers.first().map_or(0, |first| *first as usize))
    }

    // The index of the record to be read next, 0 at the end.
    pub fn place(&self) -> usize
        ensures { result ≡ self.now.place }
    {
        self.cursor.place
    }

    // The next record, which is not taken.
    fn peek(&self) -> Option<Record>
        ensures { result ≡ first_record self.now.rest }
    {
        record_at(self.answers, self.cursor.place, self.cursor.last)
    }

    // Whether no answer is left unread.
    pub fn is_end(&self) -> bool
        ensures { result ≡ is_end self.now.rest }
    {
        self.peek().is_none()
    }

    // Goes on past the next record.
    fn pass(&mut self, found: Record)
        requires { first_record self.old.rest ≡ Some found }
        ensures { self.new ≡ tape found.next (drop 1 self.old.rest) }
    {
        self.cursor.place = found.next;
    }

    // The next record, if it is the wanted one: its words a and b. Each answer kind reads them in its own way, b says something beside an a of 0
    // too, and a may be any number, so that they are the pair and no Option.
    fn take(&mut self, found: Record, wanted: bool) -> Result<(u64, u64), Stop>
        requires { first_record self.old.rest ≡ Some found }
        ensures { told result self.new ≡ taken wanted found self.old }
    {
        if !wanted {
            return Err(Stop::NotNext);
        }
        self.pass(found);
        Ok((found.a, found.b))
    }

    // The next answer, which has to be of this kind: its words a and b.
    pub fn ask<K: Numbered>(&mut self, kind: K) -> Result<(u64, u64), Stop>
        ensures { told result self.new ≡ heard_in (ask self.old (K.number kind)) }
    {
        let Some(found) = self.peek() else {
            return Err(Stop::NotNext);
        };
        self.take(found, found.kind == kind.number())
    }

    // The next answer, which has to be of this kind and about this node.
    pub fn ask_about<K: Numbered>(&mut self, kind: K, who: usize) -> Result<(u64, u64), Stop>
        ensures { told result self.new ≡ heard_in (ask_about self.old (K.number kind) who) }
    {
        let Some(found) = self.peek() else {
            return Err(Stop::NotNext);
        };
        self.take(
            found,
            (found.kind == kind.number()) & (found.b == who as u64),
        )
    }

    // Reads the parts of an answer to their end: their last output, with their messages and faults in the step. The loop follows links and
    // leaves the first record that is no part unread, where an iterator's `next` would have taken it.
    pub fn read_parts(
        &mut self,
        content: Content,
        proposer: usize,
        writer: &mut Writer,
    ) -> Option<u64>
        ensures parts { left_stateless (Ok result) self.new writer.new ≡ leaves (out_of writer.old) (read_parts content proposer tt self.old) }
        ensures table { same_table writer.old writer.new }
    {
        let mut output = None;
        while let Some(found) = self.peek() {
            if !found.is_part() {
                return output;
            }
            found.write_part(content, proposer, writer);
            // of several outputs the last counts, as `pop` does
            output = found.output().or(output);
            self.pass(found);
        }
        output
    }
}
