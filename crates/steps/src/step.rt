// The step under construction, after traits.rs (`Step`), fault_log.rs and messaging.rs: three lists, appended.
//
// A call runs twice. The first run has no table and only counts; the second knows the counts, so that each record goes to its final
// place at once and the last record of each chain has no next.
ghost use Rattle.std.specs.Prelude.{◌≡◌, ◌≤◌, length, []};
ghost use Rattle.steps.specs.Written.{out_of, same_table};
ghost use Rattle.steps.specs.Steps.{out, chained, put_entry, put_at, advance, next_of, message, fault, output, counting, writing, records, first_of, put_header, Counted};

use crate::kinds::Numbered;
use crate::numbers::COUNT_LIMIT;

// The records of one list: the index of the one that is written next, and the index past the last.
#[derive(Clone, Copy, Debug, PartialEq, Eq)]
pub struct Chain {
    pub at: usize,
    pub end: usize,
}

#[derive(Clone, Copy, Debug, PartialEq, Eq)]
pub struct Step {
    pub messages: Chain,
    pub faults: Chain,
    pub outputs: Chain,
}

// A step with the table that it is written to, lent to each layer. It stands beside the reader in parameter lists and in no struct with it: that
// was tried. A struct that holds `&mut` words has no `Model`: clauses no longer saw the reader's tape, nor what the caller's words became.
#[derive(Drop)]
pub struct Writer<'a> {
    pub step: Step,
    pub words: &'a mut [u64],
}

// The next of the record before record `i`: none at the end of its chain.
#[tactic(auto, unfolding(crate::specs::Steps::next_of))]
fn next_of(i: usize, end: usize) -> u64
    ensures { result ≡ next_of i end }
{
    if i == end { 0 } else { i as u64 }
}

impl Chain {
    // The index of the first record, 0 where there is none.
    #[tactic(auto, unfolding(crate::specs::Steps::first_of, crate::specs::Steps::next_of))]
    fn first(self) -> u64
        ensures { result ≡ first_of self }
    {
        next_of(self.at, self.end)
    }

    // Writes the next record of the chain, where the table has it.
    fn put(&mut self, words: &mut [u64], kind: u64, a: u64, b: u64)
        ensures { chained self.new words.new
            ≡ chained (advance self.old) (put_at words.old self.old kind a b) }
    {
        let at = self.at;
        if COUNT_LIMIT <= at {
            return;
        }
        self.at = at + 1;
        if words.len() / 4 <= at {
            return;
        }
        let word = at * 4;
        words[word] = next_of(at + 1, self.end);
        words[word + 1] = kind;
        words[word + 2] = a;
        words[word + 3] = b;
    }
}

impl Step {
    // A step without entries, that counts.
    pub fn counting() -> Step
        ensures { result ≡ counting }
    {
        let none = Chain { at: 0, end: 0 };
        Step {
            messages: none,
            faults: none,
            outputs: none,
        }
    }

    // The step that writes what this one has counted: messages from record 1 on, then faults, then outputs.
    pub fn writing(self) -> Step
        requires { Counted self }
        ensures { result ≡ writing self }
    {
        let faults = 1 + self.messages.at;
        let outputs = faults + self.faults.at;
        let end = outputs + self.outputs.at;
        Step {
            messages: Chain { at: 1, end: faults },
            faults: Chain {
                at: faults,
                end: outputs,
            },
            outputs: Chain { at: outputs, end },
        }
    }

    // How many records a counted step has, with its header.
    pub fn records(self) -> usize
        requires { Counted self }
        ensures { result ≡ records self }
    {
        1 + self.messages.at + self.faults.at + self.outputs.at
    }

    // Writes the header of a step that begins as this one does. A failed call's header is that of `counting`, which has no entries.
    pub fn header(self, words: &mut [u64], epoch: u64)
        requires { 4 ≤ length words.old }
        ensures { words.new ≡ put_header words.old self epoch }
    {
        words[0] = self.messages.first();
        words[1] = self.faults.first();
        words[2] = self.outputs.first();
        words[3] = epoch;
    }
}

// Three lists with a kind of their own each, as in the Rust's `Step`: one generic method would need a trait of kinds with three impls, to
// replace three lines.
impl Writer<'_> {
    // A writer without a table, that counts.
    pub fn counting() -> Self
        ensures { out_of result ≡ out counting [] }
    {
        Writer {
            step: Step::counting(),
            words: &mut [],
        }
    }

    pub fn message<K: Numbered>(&mut self, kind: K, a: u64, b: u64)
        ensures step { out_of self.new ≡ put_entry (out_of self.old) (message (K.number kind) a b) }
        ensures table { same_table self.old self.new }
    {
        self.step.messages.put(self.words, kind.number(), a, b);
    }

    pub fn fault<K: Numbered>(&mut self, kind: K, a: u64, b: u64)
        ensures step { out_of self.new ≡ put_entry (out_of self.old) (fault (K.number kind) a b) }
        ensures table { same_table self.old self.new }
    {
        self.step.faults.put(self.words, kind.number(), a, b);
    }

    pub fn output<K: Numbered>(&mut self, kind: K, a: u64, b: u64)
        ensures step { out_of self.new ≡ put_entry (out_of self.old) (output (K.number kind) a b) }
        ensures table { same_table self.old self.new }
    {
        self.step.outputs.put(self.words, kind.number(), a, b);
    }
}
