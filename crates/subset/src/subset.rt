// The subset over the words of one epoch, after subset.rs. `error` is the failure that the caller gives the error of an instance, of a type of
// the caller's.
//
// `EpochWords` stands in each contract, and words, network, error, reader and writer are parameters one by one: the words are lent by `&mut`. A struct
// over them was tried, and proves; but each function that is lent it then owes that the words are the same ones (as `same_table` says for the
// writer) in place of the one `requires` that goes. Network and error alone, two values without a fact about both, are no plainer as one.
ghost use Rattle.std.specs.Prelude.{◌≡◌, ◌<◌, ℕ, count_ones};
ghost use Rattle.network.specs.Network.{Network};
ghost use Rattle.steps.specs.Answers.{Tape};
ghost use Rattle.steps.specs.Kinds.{answer_number};
ghost use Rattle.steps.specs.Written.{left_as, left_reading_as, out_of, same_table};
ghost use Rattle.steps.specs.Runs.{leaves};
ghost use Rattle.subset.specs.Subset.{received_proposals, count_accepted, all_complete, at_proposal, vote_from, votes, try_output, propose, handle_message};
ghost use Rattle.subset.specs.Words.{record_length};
ghost use Rattle.subset.specs.Bits.{proposals_in};
ghost use Rattle.subset.specs.Outcomes.{EpochWords, answer_at, content_of, message_kind};

use crate::words;
use crate::words::{ACCEPTED_TAGS, DECIDED_AT, INCOMPLETE_TAGS, RECEIVED_TAGS, RECORD_FIELDS};
use network::network_info::NetworkInfo;
use proposal::proposal_state::Transition;
use steps::kinds::{AnswerKind, Numbered, Stop};
use steps::reader::{Content, Reader};
use steps::step::Writer;

// How many proposals have a tag of this set.
fn count_in(epoch: &[u64], n: usize, tags: u64) -> usize
    requires { EpochWords n epoch.now }
    ensures { result ≡ count_ones (proposals_in (record_length n) tags n epoch.now) }
{
    words::proposals_in(epoch, RECORD_FIELDS + n, n, tags).count_ones() as usize
}

// The number of validators from which we have already received a proposal.
#[tactic(auto, using(crate::proofs::Bits::received_ones))]
pub fn received_proposals(epoch: &[u64], n: usize) -> usize
    requires { EpochWords n epoch.now }
    ensures { result ≡ received_proposals n epoch.now }
{
    count_in(epoch, n, RECEIVED_TAGS)
}

// The number of agreements that have decided "yes".
#[tactic(auto, using(crate::proofs::Bits::accepted_ones))]
fn count_accepted(epoch: &[u64], n: usize) -> usize
    requires { EpochWords n epoch.now }
    ensures { result ≡ count_accepted n epoch.now }
{
    count_in(epoch, n, ACCEPTED_TAGS)
}

#[tactic(auto, using(crate::proofs::Bits::incomplete_none))]
fn all_complete(epoch: &[u64], n: usize) -> bool
    requires { EpochWords n epoch.now }
    ensures { result ≡ all_complete n epoch.now }
{
    words::proposals_in(epoch, RECORD_FIELDS + n, n, INCOMPLETE_TAGS) == 0
}

// Stores the state that a proposal has come to, and adds its output to the list of contributions (`convert_step`).
#[tactic(auto, unfolding(crate::specs::Subset::at_proposal, crate::specs::Subset::contributed, steps::specs::Runs::onward, steps::specs::Runs::onward_as))]
fn store_transition<E: Numbered>(
    epoch: &mut [u64],
    net: NetworkInfo,
    p: usize,
    moved: Transition<E>,
) -> Result<(), Stop<E>>
    requires { EpochWords net.num_nodes epoch.old × (p < net.num_nodes) }
    ensures { (error : ℕ) (tape : Tape) → left_reading_as E.number epoch.new result tape
        ≡ at_proposal net error p epoch.old (left_reading_as E.number moved.state moved.outcome tape) }
{
    words::store_proposal(epoch, net.num_nodes, p, moved.state);
    if let Some(value) = moved.outcome? {
        words::add_contribution(epoch, net.num_nodes, p, value);
    }
    Ok(())
}

// An answer of this kind for one proposer: kinds 3 and 4 are its broadcast's, the others its agreement's. A proposal that is not called is not
// stored again: the value word of a complete one may hold a contribution that the epoch has not handled yet.
#[tactic(auto, unfolding(crate::specs::Subset::broadcast_at, crate::specs::Subset::agreement_at, steps::specs::Steps::put_all))]
fn answer_at<E: Numbered>(
    epoch: &mut [u64],
    net: NetworkInfo,
    error: E,
    kind: AnswerKind,
    p: usize,
    reader: &mut Reader,
    writer: &mut Writer,
) -> Result<(), Stop<E>>
    requires { EpochWords net.num_nodes epoch.old × (p < net.num_nodes) }
    ensures run { left_as E.number epoch.new result reader.new writer.new
        ≡ leaves (out_of writer.old) (answer_at net (E.number error) (content_of kind) (answer_number kind) p epoch.old reader.old) }
    ensures table { same_table writer.old writer.new }
{
    let state = words::load_proposal(epoch, net.num_nodes, p);
    let moved = match kind {
        AnswerKind::BroadcastProposal | AnswerKind::BroadcastMessage => {
            if !state.asks_broadcast() {
                return Ok(());
            }
            state.handle_broadcast(error, p, kind, reader, writer)
        }
        _ => {
            if !state.asks_agreement() {
                return Ok(());
            }
            state.handle_agreement(error, p, kind, reader, writer)
        }
    };
    store_transition(epoch, net, p, moved)
}

// A round of votes for rejecting the proposals: for every proposer in rising order, HasValue included.
fn vote_all<E: Numbered>(
    epoch: &mut [u64],
    net: NetworkInfo,
    error: E,
    reader: &mut Reader,
    writer: &mut Writer,
) -> Result<(), Stop<E>>
    requires { EpochWords net.num_nodes epoch.old }
    ensures run { left_as E.number epoch.new result reader.new writer.new
        ≡ leaves (out_of writer.old) (vote_from net (E.number error) net.num_nodes 0 epoch.old reader.old) }
    ensures table { same_table writer.old writer.new }
{
    let kind = AnswerKind::ProposeFalse;
    for p in 0..net.num_nodes {
        answer_at(epoch, net, error, kind, p, reader, writer)?;
    }
    Ok(())
}

// A round of votes where exactly N − f are accepted.
#[tactic(auto, unfolding(crate::specs::Subset::votes, steps::specs::Steps::put_all))]
fn votes<E: Numbered>(
    epoch: &mut [u64],
    net: NetworkInfo,
    error: E,
    reader: &mut Reader,
    writer: &mut Writer,
) -> Result<(), Stop<E>>
    requires { Network net × EpochWords net.num_nodes epoch.old }
    ensures run { left_as E.number epoch.new result reader.new writer.new
        ≡ leaves (out_of writer.old) (votes net (E.number error) epoch.old reader.old) }
    ensures table { same_table writer.old writer.new }
{
    if count_accepted(epoch, net.num_nodes) == net.num_correct() {
        return vote_all(epoch, net, error, reader, writer);
    }
    Ok(())
}

// Checks the voting and termination conditions: If enough proposals have been accepted, votes "no" for the remaining ones. If all
// proposals have been decided, it is done.
#[tactic(auto, unfolding(crate::specs::Subset::try_output, steps::specs::Steps::put_all))]
fn try_output<E: Numbered>(
    epoch: &mut [u64],
    net: NetworkInfo,
    error: E,
    reader: &mut Reader,
    writer: &mut Writer,
) -> Result<bool, Stop<E>>
    requires { Network net × EpochWords net.num_nodes epoch.old }
    ensures run { left_as E.number epoch.new result reader.new writer.new
        ≡ leaves (out_of writer.old) (try_output net (E.number error) epoch.old reader.old) }
    ensures table { same_table writer.old writer.new }
{
    let n = net.num_nodes;
    let decided = epoch[DECIDED_AT] != 0;
    if decided || count_accepted(epoch, n) < net.num_correct() {
        return Ok(false);
    }
    votes(epoch, net, error, reader, writer)?;
    if all_complete(epoch, n) {
        epoch[DECIDED_AT] = 1;
        return Ok(true);
    }
    Ok(false)
}

// Proposes a value for the subset: the own proposal is broadcast. An observer proposes nothing. It answers whether the subset is done.
#[tactic(auto, unfolding(crate::specs::Subset::propose, steps::specs::Steps::put_all))]
pub fn propose<E: Numbered>(
    epoch: &mut [u64],
    net: NetworkInfo,
    error: E,
    reader: &mut Reader,
    writer: &mut Writer,
) -> Result<bool, Stop<E>>
    requires { Network net × EpochWords net.num_nodes epoch.old }
    ensures run { left_as E.number epoch.new result reader.new writer.new
        ≡ leaves (out_of writer.old) (propose net (E.number error) epoch.old reader.old) }
    ensures table { same_table writer.old writer.new }
{
    if !net.is_validator() {
        return Ok(false);
    }
    let kind = AnswerKind::BroadcastProposal;
    answer_at(epoch, net, error, kind, net.our_id, reader, writer)?;
    try_output(epoch, net, error, reader, writer)
}

// The answer that a message of this content asks for.
fn message_kind(content: Content) -> AnswerKind
    ensures number { answer_number result ≡ message_kind content }
    ensures content { content_of result ≡ content }
{
    match content {
        Content::Broadcast => AnswerKind::BroadcastMessage,
        Content::Agreement => AnswerKind::AgreementMessage,
    }
}

// Handles a message of the broadcast or of the agreement of a proposer. It answers whether the subset is done.
pub fn handle_message<E: Numbered>(
    epoch: &mut [u64],
    net: NetworkInfo,
    error: E,
    content: Content,
    proposer: usize,
    reader: &mut Reader,
    writer: &mut Writer,
) -> Result<bool, Stop<E>>
    requires { Network net × EpochWords net.num_nodes epoch.old × (proposer < net.num_nodes) }
    ensures run { left_as E.number epoch.new result reader.new writer.new
        ≡ leaves (out_of writer.old) (handle_message net (E.number error) content proposer epoch.old reader.old) }
    ensures table { same_table writer.old writer.new }
{
    let kind = message_kind(content);
    answer_at(epoch, net, error, kind, proposer, reader, writer)?;
    try_output(epoch, net, error, reader, writer)
}
