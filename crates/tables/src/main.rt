// Runs the answer reader, the step's layout and threshold decryption on answer tables that it reads, and writes what they come to.
// Every step table is filled with 9s first, so that untouched words show.
//
// The input is text, at most 65,536 bytes. Each line ends with a newline, and its first byte says what it is; numbers are decimal:
//
//     = TEXT                         the text is written
//     parts KIND WHO TABLE ..        an answer of this kind about this node, with its parts
//     instance CIPHERTEXT SHARE ..   from here on this is the instance that gets shares; its shares by sender, 0 for none
//     share SENDER HANDLE TABLE ..   the instance handles a share of this sender, and stays as that leaves it
//
// TABLE is the words of an answer table. Any other line is skipped.
#![tactic(auto)]

ghost use Rattle.std.specs.Prelude.{◌≤◌, ◌<◌};
ghost use Rattle.network.specs.Network.{Network};

use decryption::ThresholdDecrypt;
use lines::{OtherLine, first_of, kind_of, numbers, say, write_numbers};
use network::network_info::NetworkInfo;
use std::fmt;
use std::io::{self, BufWriter, Read, Write};
use steps::kinds::{AnswerKind, Stop};
use steps::numbers::{ANSWER_NOT_NEXT, ANSWERS_MALFORMED};
use steps::reader::{Content, Reader};
use steps::step::{Step, Writer};

// Of the input, and of a line.
const MOST_BYTES: u64 = 65_536;

const MOST_NUMBERS: usize = 256;

// What a line of numbers asks for.
#[derive(Clone, Copy, Debug, PartialEq, Eq)]
enum Kind {
    Parts,
    Instance,
    Share,
}

impl TryFrom<u8> for Kind {
    type Error = OtherLine;

    fn try_from(first: u8) -> Result<Self, OtherLine> {
        match first {
            b'p' => Ok(Kind::Parts),
            b'i' => Ok(Kind::Instance),
            b's' => Ok(Kind::Share),
            _ => Err(OtherLine(first)),
        }
    }
}

// The words of a step table, a line.
fn show<W: Write>(out: &mut W, words: &[u64]) -> io::Result<()> {
    say(out, b"  step")?;
    write_numbers(out, words)
}

// What an answer about a node came to: refused, a = 0, or its last output if it had one. As `Result<Option<Option<u64>>, Stop>` the outcomes
// would have no names, and no `Display` of ours.
#[derive(Clone, Copy)]
enum Told {
    Refused,
    No,
    Output(Option<u64>),
}

impl fmt::Display for Told {
    fn fmt<W: fmt::Write>(&self, f: &mut fmt::Formatter<W>) -> fmt::Result {
        match self {
            Told::Refused => write!(f, "reply {ANSWER_NOT_NEXT}"),
            Told::No => write!(f, "a 0"),
            Told::Output(None) => write!(f, "no output"),
            Told::Output(Some(b)) => write!(f, "output {b}"),
        }
    }
}

// Kinds 3 and 4 are a broadcast's, 5 to 7 an agreement's. No `From`, since neither type is this crate's.
fn content_of(kind: AnswerKind) -> Content {
    match kind {
        AnswerKind::BroadcastProposal | AnswerKind::BroadcastMessage => Content::Broadcast,
        _ => Content::Agreement,
    }
}

// An answer of this kind about this node, with its parts. No answer has a kind that there is not.
fn hear(answers: &[u64], kind: u64, who: usize, writer: &mut Writer) -> Told {
    let Ok(kind) = AnswerKind::try_from(kind) else {
        return Told::Refused;
    };
    let mut reader = Reader::new(answers);
    match reader.ask_about(kind, who) {
        Err(_) => Told::Refused,
        Ok((0, _)) => Told::No,
        Ok(_) => Told::Output(reader.read_parts(content_of(kind), who, writer)),
    }
}

// Writes a counted step's header and answers the step that writes its records. No struct as `SmallStep` of the program epochs: the
// table has 20 words whatever was counted, and a longer step is written as far as they go.
fn begin(counted: Step, words: &mut [u64; 20], epoch: u64) -> Step {
    if 9 < counted.messages.at || 9 < counted.faults.at || 9 < counted.outputs.at {
        return Step::counting();
    }
    let step = counted.writing();
    step.header(words, epoch);
    step
}

// No `Display`, since neither it nor the result is this crate's.
fn show_result<W: Write>(out: &mut W, handled: Result<Option<u64>, Stop>) -> io::Result<()> {
    match handled {
        Ok(None) => writeln!(out, "  nothing"),
        Ok(Some(plaintext)) => writeln!(out, "  plaintext {plaintext}"),
        Err(Stop::NotNext) => writeln!(out, "  reply {ANSWER_NOT_NEXT}"),
        Err(Stop::Failed(failure)) => writeln!(out, "  failure {}", u64::from(failure)),
    }
}

fn network() -> NetworkInfo
    ensures { Network result × (4 ≤ result.num_nodes) }
{
    NetworkInfo {
        num_nodes: 4,
        num_faulty: 1,
        our_id: 4,
        has_key: false,
    }
}

// An instance of proposer 0 with a ciphertext and shares by sender. It has sent its own share.
fn instance(given: &[u64]) -> ThresholdDecrypt {
    let (ciphertext, shares) = given.split_first().unwrap_or((&0, &[]));
    ThresholdDecrypt {
        ciphertext: *ciphertext,
        shares: first_of(shares),
        had_input: true,
        terminated: false,
    }
}

// The instance that gets shares, and where lines are written.
#[derive(Drop)]
struct Tables<W> {
    out: W,
    td: ThresholdDecrypt,
}

impl<W: Write> Tables<W> {
    // An answer's parts as a step of epoch 3: first counted, then written. A refused one writes nothing, a failed one a header.
    fn parts(&mut self, kind: u64, who: usize, answers: &[u64]) -> io::Result<()> {
        if !answers::table_ok(4, answers) {
            return writeln!(self.out, "  reply {ANSWERS_MALFORMED}");
        }
        let mut words = [9u64; 20];
        let mut counting = Writer::counting();
        let told = hear(answers, kind, who, &mut counting);
        let counted = counting.step;
        writeln!(self.out, "  {told}")?;
        match told {
            Told::Refused => {}
            Told::No => Step::counting().header(&mut words, 3),
            Told::Output(_) => {
                let mut writer = Writer {
                    step: begin(counted, &mut words, 3),
                    words: &mut words,
                };
                hear(answers, kind, who, &mut writer);
            }
        }
        show(&mut self.out, &words)
    }

    // A share of a sender for proposer 0, at an observer of four nodes. The instance stays as that leaves it.
    fn share(&mut self, sender: usize, handle: u64, answers: &[u64]) -> io::Result<()>
        requires { sender < 4 }
    {
        let mut before = self.td;
        let net = network();
        let mut counting = Writer::counting();
        let first = &mut Reader::new(answers);
        let handled = self
            .td
            .handle_message(net, 0, sender, handle, first, &mut counting);
        let counted = counting.step;
        show_result(&mut self.out, handled)?;
        let mut words = [9u64; 20];
        match handled {
            Err(Stop::NotNext) => {}
            Err(Stop::Failed(_)) => Step::counting().header(&mut words, 0),
            Ok(_) => {
                let mut writer = Writer {
                    step: begin(counted, &mut words, 0),
                    words: &mut words,
                };
                let second = &mut Reader::new(answers);
                let _ = before.handle_message(net, 0, sender, handle, second, &mut writer);
            }
        }
        show(&mut self.out, &words)
    }

    fn line(&mut self, line: &[u8]) -> io::Result<()> {
        if let [b'=', text @ ..] = line {
            return say(&mut self.out, text.get(1..).unwrap_or(&[]));
        }
        let Some(kind) = kind_of::<Kind>(line) else {
            return Ok(());
        };
        // Words of a fixed number, since a Vec for each line took a quarter more time on short lines.
        let mut given = [0; MOST_NUMBERS];
        let ended = numbers(line, &mut given);
        match (kind, &given[..ended]) {
            // also a number that the line's end cuts off
            (Kind::Instance, _) => {
                self.td = instance(&given);
                Ok(())
            }
            (Kind::Parts, [kind, who, answers @ ..]) => self.parts(*kind, *who as usize, answers),
            (Kind::Share, [sender @ 0..4, handle, answers @ ..]) => {
                self.share(*sender as usize, *handle, answers)
            }
            _ => Ok(()),
        }
    }
}

fn main(rt: HostRuntime) -> io::Result<()> {
    let alloc = rt.alloc();
    let mut text = Vec::new(alloc);
    rt.reader().take(MOST_BYTES).read_to_end(&mut text)?;
    let mut tables = Tables {
        out: BufWriter::new(alloc, io::writer(&rt))?,
        td: ThresholdDecrypt::new(),
    };
    text.split_inclusive(|b| *b == b'\n')
        .try_for_each(|line| tables.line(line))?;
    tables.out.flush()
}
