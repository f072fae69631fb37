// Makes the recorded calls of the original on the engine. What the original made of them is in stdout; oracle/replay.py writes both.
//
// The input is text of at most 65,536 lines and 65,535 bytes a line. Each line's first byte says which call it is; numbers are decimal:
//
//     c N F AHEAD OWN KEY STRATEGY START SCHEDULE A B             create
//     p RECORDS TABLE ..                                          propose
//     m SENDER EPOCH CONTENT PROPOSER ITEM RECORDS TABLE ..       message
//     s TARGET                                                    skip
//
// RECORDS is how many records the step table has, TABLE is the words of the answer table. Any other line is skipped.
// Each call writes a line with its reply and the step table up to the last word that was written, r REPLY WORD .., and, once there is a state,
// one with what the queries give, the state's digest, and how many words of scratch from the first on are as the call must leave them (zeros, as
// many as the state has words, then words that it did not touch: eight more are lent), q EPOCH INPUT RECEIVED FAULTS DIGEST SCRATCH.
#![tactic(auto)]

ghost use Rattle.std.specs.Prelude.{◌≤◌};
ghost use Rattle.std.specs.Io.{StartsWith};

use lines::{OtherLine, first_of, kind_of, numbers, reply_line};
use std::alloc::Global;
use std::io::{self, BufRead, BufReader, BufWriter, Read, Write};
use steps::numbers::SUCCESS;

const MOST_LINES: usize = 65_536;

// Of a line with its newline.
const MOST_BYTES: usize = 65_536;

const MOST_NUMBERS: usize = 4_112;

const MOST_RECORDS: usize = 1_553;

// Of a state.
const MOST_WORDS: usize = 6_416;

// Of scratch, which has eight words more than the state.
const MOST_SCRATCH: usize = 6_424;

// Of a step table.
const MOST_STEP: usize = 6_212;

// The words that a call is lent, but for the answers' and those of a state that there is.
const FILL: u64 = 0x1234_5678_9abc_def0;

// Of the digest (oracle/README.md).
const FACTOR: u64 = 65_599;

const MODULUS: u64 = 4_294_967_291;

// What a line asks for.
#[derive(Clone, Copy, Debug, PartialEq, Eq)]
enum Kind {
    Create,
    Propose,
    Message,
    Skip,
}

impl TryFrom<u8> for Kind {
    type Error = OtherLine;

    fn try_from(first: u8) -> Result<Self, OtherLine> {
        match first {
            b'c' => Ok(Kind::Create),
            b'p' => Ok(Kind::Propose),
            b'm' => Ok(Kind::Message),
            b's' => Ok(Kind::Skip),
            _ => Err(OtherLine(first)),
        }
    }
}

// How many words a state has.
#[derive(Clone, Copy, Debug)]
struct Size {
    words: usize,
    ghost within: { words ≤ 6416 },
}

impl Size {
    // That of a state with these numbers; any other where they are out of range.
    fn of(nodes: u64, ahead: u64) -> Self {
        let words = match (nodes, ahead) {
            (1..=16, 0..=15) => {
                state::range::state_length(nodes as usize, ahead as usize).min(MOST_WORDS)
            }
            _ => 16,
        };
        Size { words }
    }
}

// The words of a step table of so many records, of those that there are.
fn step_length(records: u64) -> usize
    ensures { result ≤ 6212 }
{
    (records as usize).min(MOST_RECORDS) * 4
}

fn digest(words: &[u64]) -> u64 {
    let mut h: u64 = 0;
    for word in words {
        h = (h * FACTOR + word % MODULUS) % MODULUS;
    }
    h
}

// The words of a step table up to the last that was written. `lines::without_cut` differs in its test: one function for both would have to
// say of any test what its calls give, which takes more lines than this match.
fn written(step: &[u64]) -> &[u64]
    ensures { StartsWith step.now result.now }
{
    match step.iter().rposition(|word| *word != FILL) {
        Some(last) => &step[..last + 1],
        None => &[],
    }
}

// What a query gives. One that is turned down gives what it was lent.
fn asked<F: FnOnce(&mut u64) -> u64>(query: F) -> u64
    requires { F.IsAlwaysCallable query }
{
    let mut word = FILL;
    let _ = query(&mut word);
    word
}

// Makes a call on the first words of the state, scratch and the step table.
fn called<F: FnOnce(&mut [u64], &mut [u64], &mut [u64]) -> u64>(
    state: &mut [u64; MOST_WORDS],
    scratch: &mut [u64; MOST_SCRATCH],
    step: &mut [u64; MOST_STEP],
    size: Size,
    length: usize,
    call: F,
) -> u64
    requires callable { F.IsAlwaysCallable call }
    requires length { length ≤ 6212 }
{
    call(
        &mut state[..size.words],
        &mut scratch[..size.words + 8],
        &mut step[..length],
    )
}

// The state that the calls so far have left, of no words before the first create, what a call is lent besides, and where the calls are written.
// These are arrays, so that memory is taken before the first line alone: with a `Vec` each call would be a new way to run out of it.
#[derive(Drop)]
struct Replay<'a, W> {
    out: &'a mut W,
    size: Size,
    state: [u64; MOST_WORDS],
    scratch: [u64; MOST_SCRATCH],
    step: [u64; MOST_STEP],
}

impl<W: Write> Replay<'_, W> {
    // Fills what a call with a step table of so many words is lent.
    fn fill(&mut self, step: usize)
        requires { step ≤ 6212 }
    {
        self.scratch[..self.size.words + 8].fill(FILL);
        self.step[..step].fill(FILL);
    }

    // How many words of scratch are as a call must leave them.
    fn right(&self) -> usize {
        let wanted = |i: usize| if i < self.size.words { 0 } else { FILL };
        self.scratch[..self.size.words + 8]
            .iter()
            .enumerate()
            .position(|(i, word)| *word != wanted(i))
            .unwrap_or(self.size.words + 8)
    }

    // What a call leaves besides its step.
    fn show_state(&mut self, right: usize) -> io::Result<()> {
        if self.size.words == 0 {
            return Ok(());
        }
        let state = &self.state[..self.size.words];
        let epoch = asked(|word| engine::hb_current_epoch(state, word));
        let input = asked(|word| engine::hb_has_input(state, word));
        let received = asked(|word| engine::hb_received_proposals(state, word));
        let faults = asked(|word| engine::hb_fault_count(state, word));
        let digest = digest(state);
        writeln!(
            self.out,
            "q {epoch} {input} {received} {faults} {digest} {right}"
        )
    }

    // Makes a call with a step table of so many records, and shows it.
    fn make<F: FnOnce(&mut [u64], &mut [u64], &mut [u64]) -> u64>(
        &mut self,
        records: u64,
        call: F,
    ) -> io::Result<()>
        requires { F.IsAlwaysCallable call }
    {
        let step = step_length(records);
        self.fill(step);
        let size = self.size;
        let reply = called(
            &mut self.state,
            &mut self.scratch,
            &mut self.step,
            size,
            step,
            call,
        );
        self.show_call(reply, step)
    }

    // A call with a step table of so many words.
    fn show_call(&mut self, reply: u64, step: usize) -> io::Result<()>
        requires { step ≤ 6212 }
    {
        reply_line(self.out, reply, written(&self.step[..step]))?;
        let right = self.right();
        self.show_state(right)
    }

    fn create(&mut self, given: [u64; 10]) -> io::Result<()> {
        let [n, f, ahead, own, key, strategy, start, schedule, a, b] = given;
        let size = Size::of(n, ahead);
        let reply = engine::hb_create(
            n,
            f,
            ahead,
            own,
            key,
            strategy,
            start,
            schedule,
            a,
            b,
            &mut self.state[..size.words],
        );
        if reply == SUCCESS {
            self.size = size;
        }
        reply_line(self.out, reply, &[])?;
        self.show_state(0)
    }

    // A line that lacks numbers makes no call, and shows what one would be lent. `FILL` is shown in the place of its reply as well, here and in
    // `skip`: the None of an Option would have no other use.
    fn make_none(&mut self) -> io::Result<()> {
        self.fill(0);
        self.show_call(FILL, 0)
    }

    fn propose(&mut self, given: &[u64]) -> io::Result<()> {
        let [records, answers @ ..] = given else {
            return self.make_none();
        };
        self.make(*records, |state, scratch, step| {
            engine::hb_propose(state, scratch, answers, step)
        })
    }

    fn message(&mut self, given: &[u64]) -> io::Result<()> {
        let [
            sender,
            epoch,
            content,
            proposer,
            item,
            records,
            answers @ ..,
        ] = given
        else {
            return self.make_none();
        };
        self.make(*records, |state, scratch, step| {
            engine::hb_message(
                *sender, *epoch, *content, *proposer, *item, state, scratch, answers, step,
            )
        })
    }

    fn skip(&mut self, given: &[u64]) -> io::Result<()> {
        let reply = match given.first() {
            Some(target) => engine::hb_skip(*target, &mut self.state[..self.size.words]),
            None => FILL,
        };
        reply_line(self.out, reply, &[])?;
        self.show_state(0)
    }

    // A create alone is given the number that its line's end cuts off.
    fn line(&mut self, text: &[u8]) -> io::Result<()> {
        let Some(kind) = kind_of(text) else {
            return Ok(());
        };
        let mut given = [0; MOST_NUMBERS];
        let ended = numbers(text, &mut given);
        match kind {
            Kind::Create => self.create(first_of(&given)),
            Kind::Propose => self.propose(&given[..ended]),
            Kind::Message => self.message(&given[..ended]),
            Kind::Skip => self.skip(&given[..ended]),
        }
    }
}

// The lines of the input, in order.
fn run<R: BufRead, W: Write>(alloc: Global, input: &mut R, out: &mut W) -> io::Result<()> {
    let mut text = Vec::with_capacity(alloc, MOST_BYTES)?;
    let mut replay = Replay {
        out,
        size: Size { words: 0 },
        state: [0; MOST_WORDS],
        scratch: [0; MOST_SCRATCH],
        step: [0; MOST_STEP],
    };
    for _ in 0..MOST_LINES {
        text.clear();
        if input
            .by_ref()
            .take(MOST_BYTES as u64)
            .read_until(b'\n', &mut text)?
            == 0
        {
            return Ok(());
        }
        replay.line(&text)?;
    }
    Ok(())
}

fn main(rt: HostRuntime) -> io::Result<()> {
    let mut input = BufReader::new(rt.alloc(), rt.reader())?;
    let mut out = BufWriter::new(rt.alloc(), io::writer(&rt))?;
    run(rt.alloc(), &mut input, &mut out)?;
    out.flush()
}
