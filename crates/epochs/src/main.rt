// Runs recorded calls of single epochs through `epoch`, as the engine makes them: the epoch is built where it is vacant, the call is run, and
// the epoch's batch goes out if it is ready; first without a step table, to count, then again on the words as they were before the call. What
// the original made of these calls is in stdout; oracle/epochs.py writes both.
//
// The input is text, at most 131,072 bytes. Each line ends with a newline, and its first byte says what it is; numbers are decimal:
//
//     n N F OWN KEY STRATEGY ENCRYPTED     the network of the calls that follow, of at most 7 nodes
//     w I X ..                             the epoch's words before the call: index and word of those that are not 0
//     p EPOCH CURRENT TABLE ..             a propose; CURRENT is 1 where the epoch's batch may go out
//     m EPOCH CURRENT SENDER CONTENT PROPOSER ITEM TABLE ..
//
// TABLE is the words of an answer table. A call whose numbers are out of range is skipped, and so is any other line.
// Each call writes a line with its reply and step words, r REPLY WORD .., and, unless the batch has gone out, one with the epoch's words
// after it, as in the input.
#![tactic(auto)]

ghost use Rattle.std.specs.Prelude.{◌≡◌, ◌≤◌, ◌<◌, length};
ghost use Rattle.network.specs.Network.{Network};
ghost use Rattle.subset.specs.Words.{epoch_length};
ghost use Rattle.epoch.specs.Outcomes.{Comes};
ghost use Rattle.epochwords.specs.Shape.{EpochWords};
ghost use Rattle.epochs.specs.Inputs.{Comes-prop};

use epoch::epoch_state::{Input, Setting, SubsetInput, handle, new_epoch};
use epochwords::SubsetHandlingStrategy;
use epochwords::batch::EpochRecords;
use epochwords::range::epoch_in_range;
use epochwords::words::{STATUS_AT, STATUS_VACANT};
use lines::{OtherLine, first_of, kind_and_numbers, line_ends, reply_line};
use network::network_info::NetworkInfo;
use std::alloc::Global;
use std::io::{self, BufWriter, Read, Write};
use steps::kinds::{AnswerKind, Failure, Stop};
use steps::numbers::{
    AGREEMENT_CONTENT, ANSWER_NOT_NEXT, ANSWERS_UNREAD, BROADCAST_CONTENT, NOT_A_STATE,
    STEP_TABLE_TOO_SHORT, SUCCESS,
};
use steps::reader::{Content, Reader};
use steps::step::{Step, Writer};
use subset::words::{RECORD_FIELDS, RECORDS_AT};

// Of the input, and of a line.
const MOST_BYTES: u64 = 131_072;

const MOST_NUMBERS: usize = 256;

// In each chain of a step.
const MOST_ENTRIES: usize = 21;

// What a line gives or asks for.
#[derive(Clone, Copy, Debug, PartialEq, Eq)]
enum Kind {
    Network,
    Words,
    Propose,
    Message,
}

impl TryFrom<u8> for Kind {
    type Error = OtherLine;

    fn try_from(first: u8) -> Result<Self, OtherLine> {
        match first {
            b'n' => Ok(Kind::Network),
            b'w' => Ok(Kind::Words),
            b'p' => Ok(Kind::Propose),
            b'm' => Ok(Kind::Message),
            _ => Err(OtherLine(first)),
        }
    }
}

// What the calls that follow run with: at most 7 nodes.
#[derive(Clone, Copy)]
struct SmallNetwork {
    setting: Setting,
    ghost few: { setting.net.num_nodes ≤ 7 },
}

// Numbers with which there is no such network.
#[derive(Clone, Copy, Debug, PartialEq, Eq)]
struct OutOfRange;

// From the numbers of a network line.
impl TryFrom<[u64; 6]> for SmallNetwork {
    type Error = OutOfRange;

    fn try_from(given: [u64; 6]) -> Result<Self, OutOfRange> {
        let [nodes, faulty, own, key, strategy, encrypted] = given;
        if 7 < nodes || nodes <= faulty || nodes <= 3 * faulty || nodes < own {
            return Err(OutOfRange);
        }
        let net = NetworkInfo {
            num_nodes: nodes as usize,
            num_faulty: faulty as usize,
            our_id: own as usize,
            has_key: key != 0,
        };
        let setting = Setting {
            net,
            strategy: SubsetHandlingStrategy::from(strategy),
            encrypted: encrypted != 0,
        };
        Ok(SmallNetwork { setting })
    }
}

// A step that a first run has counted, of at most 21 records in each chain, so that its table has at most 256 words.
#[derive(Clone, Copy)]
struct SmallStep {
    counted: Step,
    ghost few: { (counted.messages.at ≤ 21) × (counted.faults.at ≤ 21) × (counted.outputs.at ≤ 21) },
}

// What comes to an epoch, and what the call runs with: at most 7 nodes.
#[derive(Clone, Copy)]
struct Call {
    how: Setting,
    epoch: u64,
    current: bool,
    input: Input,
    ghost few: { how.net.num_nodes ≤ 7 },
    ghost comes: { Comes input how.net.num_nodes } by { Comes-prop input how.net.num_nodes },
}

// Why a call ends before it is done.
#[derive(Clone, Copy, Debug, PartialEq, Eq)]
enum End {
    Stopped(Stop),
    NotAState,
    Unread,
}

impl From<Stop> for End {
    fn from(stop: Stop) -> End {
        End::Stopped(stop)
    }
}

impl From<End> for u64 {
    // The reply.
    fn from(end: End) -> u64 {
        match end {
            End::Stopped(Stop::NotNext) => ANSWER_NOT_NEXT,
            End::Stopped(Stop::Failed(failure)) => u64::from(failure),
            End::NotAState => NOT_A_STATE,
            End::Unread => ANSWERS_UNREAD,
        }
    }
}

impl Call {
    fn propose(network: SmallNetwork, epoch: u64, current: u64) -> Self {
        Call {
            how: network.setting,
            epoch,
            current: current != 0,
            input: Input::Subset(SubsetInput::Proposal),
        }
    }

    // From the numbers of a message line, if its nodes are in the network. Content 0 stands for a propose.
    fn message(network: SmallNetwork, given: [u64; 6]) -> Option<Self> {
        let [epoch, current, sender, content, proposer, item] = given;
        let how = network.setting;
        let (sender, p) = (sender as usize, proposer as usize);
        if how.net.num_nodes <= sender || how.net.num_nodes <= p {
            return None;
        }
        let input = match content {
            0 => Input::Subset(SubsetInput::Proposal),
            BROADCAST_CONTENT => Input::Subset(SubsetInput::Message(Content::Broadcast, p)),
            AGREEMENT_CONTENT => Input::Subset(SubsetInput::Message(Content::Agreement, p)),
            _ => Input::Share(sender, p, item),
        };
        Some(Call {
            how,
            epoch,
            current: current != 0,
            input,
        })
    }
}

// `work`, `state` and `calls` have functions with the bodies of `build`, `hand_out` and `epoch_length`, with the match on a content above, and an
// `End`. The program tests `epoch` without the layers above it, so it has its own.
//
// `epoch`, `call`, `reader` and `writer` are no struct: it would hold three `&mut`, and each function that is lent it would owe that they are
// the same ones afterwards.

// Builds the epoch where it is vacant.
fn build(epoch: &mut [u64], n: usize, reader: &mut Reader) -> Result<(), Stop>
    requires { EpochWords n epoch.old }
{
    if epoch[STATUS_AT] != STATUS_VACANT {
        return Ok(());
    }
    let (built, _) = reader.ask(AnswerKind::InstancesBuilt)?;
    if built == 0 {
        return Err(Stop::Failed(Failure::CreateSubset));
    }
    new_epoch(epoch, n);
    Ok(())
}

// The epoch's propose or message.
fn enter(epoch: &mut [u64], call: Call, reader: &mut Reader, writer: &mut Writer) -> Result<(), End>
    requires { EpochWords call.how.net.num_nodes epoch.old }
{
    let how = call.how;
    if !epoch_in_range(epoch, how.strategy, how.net.num_nodes) {
        return Err(End::NotAState);
    }
    handle(epoch, how, call.input, reader, writer)?;
    Ok(())
}

// The batch of the epoch, where it may go out: whether it did.
fn hand_out(
    epoch: &[u64],
    call: Call,
    reader: &mut Reader,
    writer: &mut Writer,
) -> Result<bool, Stop>
    requires { EpochWords call.how.net.num_nodes epoch.now }
{
    let n = call.how.net.num_nodes;
    let size = RECORD_FIELDS + n;
    let records = EpochRecords {
        words: epoch,
        size,
        n,
    };
    if !call.current || !records.is_ready() {
        return Ok(false);
    }
    records.output_batch(call.epoch, reader, writer)?;
    Ok(true)
}

// The call, from its first answer on: whether the batch went out.
fn run(epoch: &mut [u64], call: Call, reader: &mut Reader, writer: &mut Writer) -> Result<bool, End>
    requires { EpochWords call.how.net.num_nodes epoch.old }
{
    build(epoch, call.how.net.num_nodes, reader)?;
    enter(epoch, call, reader, writer)?;
    Ok(hand_out(epoch, call, reader, writer)?)
}

// The words that an epoch of n nodes takes.
fn epoch_length(n: usize) -> usize
    requires { n ≤ 7 }
    ensures { (result ≡ epoch_length n) × (result ≤ 128) }
{
    RECORDS_AT + n * (RECORD_FIELDS + n)
}

// The whole call, on the epoch's words at the front of these. Each answer must be read.
fn run_in(
    all: &mut [u64; 128],
    call: Call,
    answers: &[u64],
    writer: &mut Writer,
) -> Result<bool, End> {
    let length = epoch_length(call.how.net.num_nodes);
    let mut reader = Reader::new(answers);
    let ran = run(&mut all[..length], call, &mut reader, writer);
    if ran != Err(End::Stopped(Stop::NotNext)) && reader.place() != 0 {
        return Err(End::Unread);
    }
    ran
}

// Index and word of those that are not 0.
fn show_words<W: Write>(out: &mut W, words: &[u64; 128]) -> io::Result<()> {
    write!(out, "w")?;
    for (i, word) in words.iter().enumerate() {
        if *word != 0 {
            write!(out, " {i} {word}")?;
        }
    }
    line_ends(out)
}

impl SmallStep {
    // From a step that a first run has counted, if it is small.
    fn new(counted: Step) -> Option<Self> {
        if MOST_ENTRIES < counted.messages.at
            || MOST_ENTRIES < counted.faults.at
            || MOST_ENTRIES < counted.outputs.at
        {
            return None;
        }
        Some(SmallStep { counted })
    }

    // How many words it takes.
    fn length(self) -> usize
        ensures { (4 ≤ result) × (result ≤ 256) }
    {
        self.counted.records() * 4
    }

    // Writes its header and answers the step that writes its records.
    fn begin(self, table: &mut [u64], epoch: u64) -> Step
        requires { 4 ≤ length table.old }
    {
        let step = self.counted.writing();
        step.header(table, epoch);
        step
    }
}

// The words of a line that has them by index.
fn sparse(given: &[u64]) -> [u64; 128] {
    let mut words = [0u64; 128];
    let (pairs, _) = given.as_chunks::<2>();
    for [at, word] in pairs {
        if let Some(place) = words.get_mut(*at as usize) {
            *place = *word;
        }
    }
    words
}

// What the lines so far give a call, the network, if it is one, and the epoch's words; and where calls are written. There are 128 words for any
// network: a line may give words behind the epoch, which are shown again after the call.
#[derive(Drop)]
struct Epochs<W> {
    alloc: Global,
    out: W,
    network: Option<SmallNetwork>,
    words: [u64; 128],
}

impl<W: Write> Epochs<W> {
    // The second run, which writes what the first has counted.
    fn write(&mut self, call: Call, answers: &[u64], counted: Step) -> io::Result<()> {
        let Some(small) = SmallStep::new(counted) else {
            return reply_line(&mut self.out, STEP_TABLE_TOO_SHORT, &[]);
        };
        let mut table = vec![in self.alloc; 0; small.length()]?;
        let mut words = self.words;
        let mut writer = Writer {
            step: small.begin(&mut table, call.epoch),
            words: &mut table,
        };
        let ran = run_in(&mut words, call, answers, &mut writer);
        let reply = ran.map_or_else(u64::from, |_| SUCCESS);
        reply_line(&mut self.out, reply, &table)?;
        if ran != Ok(true) {
            show_words(&mut self.out, &words)?;
        }
        Ok(())
    }

    // Both runs of a call. One that fails has no second, and its step is an empty one.
    fn call(&mut self, call: Call, answers: &[u64]) -> io::Result<()> {
        let mut words = self.words;
        let mut counting = Writer::counting();
        let ran = run_in(&mut words, call, answers, &mut counting);
        let counted = counting.step;
        let Err(end) = ran else {
            return self.write(call, answers, counted);
        };
        let mut table = [0u64; 4];
        Step::counting().header(&mut table, call.epoch);
        reply_line(&mut self.out, u64::from(end), &table)?;
        show_words(&mut self.out, &words)
    }

    fn propose(&mut self, given: &[u64]) -> io::Result<()> {
        match (self.network, given) {
            (Some(network), [epoch, current, answers @ ..]) => {
                self.call(Call::propose(network, *epoch, *current), answers)
            }
            _ => Ok(()),
        }
    }

    fn message(&mut self, given: &[u64]) -> io::Result<()> {
        let Some(network) = self.network else {
            return Ok(());
        };
        let Some((numbers, answers)) = given.split_first_chunk() else {
            return Ok(());
        };
        match Call::message(network, *numbers) {
            Some(call) => self.call(call, answers),
            None => Ok(()),
        }
    }

    fn line(&mut self, line: &[u8]) -> io::Result<()> {
        let Some((kind, given)) = kind_and_numbers(self.alloc, line, Kind::Network, MOST_NUMBERS)?
        else {
            return Ok(());
        };
        match kind {
            Kind::Network => self.network = SmallNetwork::try_from(first_of(&given)).ok(),
            Kind::Words => self.words = sparse(&given),
            Kind::Propose => self.propose(&given)?,
            Kind::Message => self.message(&given)?,
        }
        Ok(())
    }
}

// `tables` has these lines over its own limit and struct; a function for both would hand back the text and take the writer, for two calls.
fn main(rt: HostRuntime) -> io::Result<()> {
    let alloc = rt.alloc();
    let mut text = Vec::new(alloc);
    rt.reader().take(MOST_BYTES).read_to_end(&mut text)?;
    let mut epochs = Epochs {
        alloc,
        out: BufWriter::new(alloc, io::writer(&rt))?,
        network: None,
        words: [0; 128],
    };
    text.split_inclusive(|b| *b == b'\n')
        .try_for_each(|line| epochs.line(line))?;
    epochs.out.flush()
}
