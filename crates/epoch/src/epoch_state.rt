// One epoch over its words, after honey_badger/epoch_state.rs. `epoch` are the words of the epoch.
//
// `epoch` is no struct with its number of nodes: each function that is lent one would owe besides that its words are the same ones afterwards.
ghost use Rattle.std.specs.Prelude.{◌≡◌, ℕ, ◌<◌, ◌≤◌, List, Bool, Ok, length, get_or, set};
ghost use Rattle.network.specs.Network.{Network};
ghost use Rattle.steps.specs.Answers.{Tape};
ghost use Rattle.steps.specs.Kinds.{verdict_of};
ghost use Rattle.steps.specs.Runs.{ends, leaves};
ghost use Rattle.steps.specs.Steps.{put_all};
ghost use Rattle.steps.specs.Written.{out_of, same_table, left, left_reading};
ghost use Rattle.decryption.specs.Decrypt.{handle_message as handle_share};
ghost use Rattle.epochwords.specs.Shape.{EpochWords, Listed};
ghost use Rattle.subset.specs.Words.{count_of, value_at, arrival_at, contributor};
ghost use Rattle.epochwords.specs.declared.SubsetHandlingStrategy.{SubsetHandlingStrategy};
ghost use Rattle.epoch.specs.Outcomes.{serialised, subset_call, subset_run, input_run, Names, Comes};
ghost use Rattle.epochwords.specs.Words.{accept, load_decryption};
ghost use Rattle.epoch.specs.Epoch.{process_decryption, call_entry, input_ciphertext, send_decryption_share, handle_decryption_share, unexpected_from, unexpected_shares, subset_complete, proposal_dropped, finish_at, finish_from, first_contributions, handles_now, handle_contribution, handle_from, handle_contributions, process_subset, handed_up, new_epoch};

use decryption::ThresholdDecrypt;
use epochwords::SubsetHandlingStrategy;
use epochwords::entry::{DecryptionState, load_decryption, open_entry, store_decryption};
use epochwords::words::{ACCEPTED_AT, STATUS_AT, STATUS_COMPLETE, STATUS_ONGOING};
use network::network_info::NetworkInfo;
use proposal::ProposalState;
use steps::bits::{has_bit, with_bit};
use steps::kinds::{AnswerKind, Failure, FaultKind, Stop};
use steps::reader::{Content, Reader};
use steps::step::Writer;
use subset::words::{ARRIVAL_FIELD, COUNT_AT, DECIDED_AT, VALUE_FIELD, record_at, store_proposal};

// What an epoch runs with: its network, when contributions are handled, and whether they are encrypted.
#[derive(Clone, Copy)]
pub struct Setting {
    pub net: NetworkInfo,
    pub strategy: SubsetHandlingStrategy,
    pub encrypted: bool,
    ghost network: { Network net },
}

// What comes to the subset: the own proposal, or a message for a proposer.
#[derive(Clone, Copy)]
pub enum SubsetInput {
    Proposal,
    Message(Content, usize),
}

// What comes to an epoch: something for its subset, or a share: sender, proposer, share.
#[derive(Clone, Copy)]
pub enum Input {
    Subset(SubsetInput),
    Share(usize, usize, u64),
}

// Adds proposer p to the accepted ones.
#[tactic(auto, unfolding(epochwords::specs::Words::accept))]
fn accept(epoch: &mut [u64], p: usize)
    requires { (p < 64) × (2 < length epoch.old) }
    ensures { epoch.new ≡ accept epoch.old p }
{
    epoch[ACCEPTED_AT] = with_bit(epoch[ACCEPTED_AT], p);
}

// Stores the entry of proposer p after a call: a plaintext completes it. After a failure it is as the call left it.
#[tactic(auto, unfolding(crate::specs::Epoch::process_decryption, crate::specs::Epoch::entry_after, steps::specs::Runs::onward, steps::specs::Runs::onward_as))]
fn process_decryption(
    epoch: &mut [u64],
    net: NetworkInfo,
    p: usize,
    td: &ThresholdDecrypt,
    called: Result<Option<u64>, Stop>,
) -> Result<(), Stop>
    requires { EpochWords net.num_nodes epoch.old × (p < net.num_nodes) }
    ensures { (t : Tape) → left_reading epoch.new result t ≡ process_decryption net p epoch.old (ends (verdict_of called) td.now t) }
{
    let state = match called.unwrap_or(None) {
        Some(plaintext) => DecryptionState::Complete(plaintext),
        None => DecryptionState::Ongoing(*td),
    };
    store_decryption(epoch, net.num_nodes, p, Some(state));
    called.map(|_| ())
}

// `DecryptionState::set_ciphertext`. A ciphertext that does not verify is fault 4.
#[tactic(auto, unfolding(crate::specs::Epoch::input_ciphertext, steps::specs::Runs::onward, steps::specs::Runs::onward_as, steps::specs::Steps::put_all))]
fn input_ciphertext(
    td: &mut ThresholdDecrypt,
    net: NetworkInfo,
    p: usize,
    value: u64,
    reader: &mut Reader,
    writer: &mut Writer,
) -> Result<Option<u64>, Stop>
    requires { Network net }
    ensures run { left td.new result reader.new writer.new
        ≡ leaves (out_of writer.old) (input_ciphertext net p value td.old reader.old) }
    ensures table { same_table writer.old writer.new }
{
    if td.set_ciphertext(p, value, reader)? {
        return td.start_decryption(net, p, reader, writer);
    }
    writer.fault(FaultKind::InvalidCiphertext, p as u64, 0);
    Ok(None)
}

// Hands the ciphertext to the entry of proposer p, unless that asks nothing any more.
#[tactic(auto, unfolding(crate::specs::Epoch::call_entry, steps::specs::Steps::put_all))]
fn input_entry(
    epoch: &mut [u64],
    net: NetworkInfo,
    p: usize,
    value: u64,
    reader: &mut Reader,
    writer: &mut Writer,
) -> Result<(), Stop>
    requires { Network net × EpochWords net.num_nodes epoch.old × (p < net.num_nodes) }
    ensures run { left epoch.new result reader.new writer.new
        ≡ leaves (out_of writer.old) (call_entry net p (input_ciphertext net p value) epoch.old reader.old) }
    ensures table { same_table writer.old writer.new }
{
    let Some(mut td) = open_entry(epoch, net.num_nodes, p) else {
        return Ok(());
    };
    let called = input_ciphertext(&mut td, net, p, value, reader, writer);
    process_decryption(epoch, net, p, &td, called)
}

// Hands a share to the entry of proposer p, unless that asks nothing any more. It differs from `input_entry` in its call. With the call as a
// closure one contract for both would have to speak of what any closure leaves; with an enum of the two calls, the enum and a match would
// be longer than the four lines here.
#[tactic(auto, unfolding(crate::specs::Epoch::call_entry, steps::specs::Steps::put_all))]
fn share_entry(
    epoch: &mut [u64],
    net: NetworkInfo,
    sender: usize,
    p: usize,
    share: u64,
    reader: &mut Reader,
    writer: &mut Writer,
) -> Result<(), Stop>
    requires { Network net × EpochWords net.num_nodes epoch.old × (sender < net.num_nodes) × (p < net.num_nodes) }
    ensures run { left epoch.new result reader.new writer.new
        ≡ leaves (out_of writer.old) (call_entry net p (handle_share net p sender share) epoch.old reader.old) }
    ensures table { same_table writer.old writer.new }
{
    let Some(mut td) = open_entry(epoch, net.num_nodes, p) else {
        return Ok(());
    };
    let called = td.handle_message(net, p, sender, share, reader, writer);
    process_decryption(epoch, net, p, &td, called)
}

// Hands the ciphertext of proposer p to threshold decryption, which sends the own share. One that does not read is fault 3.
#[tactic(auto, unfolding(crate::specs::Epoch::send_decryption_share, steps::specs::Runs::heard, steps::specs::Runs::heard_as, steps::specs::Steps::put_all))]
fn send_decryption_share(
    epoch: &mut [u64],
    net: NetworkInfo,
    p: usize,
    value: u64,
    reader: &mut Reader,
    writer: &mut Writer,
) -> Result<(), Stop>
    requires { Network net × EpochWords net.num_nodes epoch.old × (p < net.num_nodes) }
    ensures run { left epoch.new result reader.new writer.new
        ≡ leaves (out_of writer.old) (send_decryption_share net p value epoch.old reader.old) }
    ensures table { same_table writer.old writer.new }
{
    let (reads, _) = reader.ask_about(AnswerKind::CiphertextReads, p)?;
    if reads == 0 {
        writer.fault(FaultKind::DeserializeCiphertext, p as u64, 0);
        return Ok(());
    }
    input_entry(epoch, net, p, value, reader, writer)
}

// Handles a share of this sender for the contribution of proposer p. Once the subset is done, one for a proposer that was not accepted is fault 2.
#[tactic(auto, unfolding(crate::specs::Epoch::handle_decryption_share, epochwords::specs::Words::is_accepted, steps::specs::Steps::put_all))]
fn handle_decryption_share(
    epoch: &mut [u64],
    net: NetworkInfo,
    sender: usize,
    p: usize,
    share: u64,
    reader: &mut Reader,
    writer: &mut Writer,
) -> Result<(), Stop>
    requires { Network net × EpochWords net.num_nodes epoch.old × (sender < net.num_nodes) × (p < net.num_nodes) }
    ensures run { left epoch.new result reader.new writer.new
        ≡ leaves (out_of writer.old) (handle_decryption_share net sender p share epoch.old reader.old) }
    ensures table { same_table writer.old writer.new }
{
    let accepted = has_bit(epoch[ACCEPTED_AT], p);
    if (epoch[STATUS_AT] == STATUS_COMPLETE) & !accepted {
        writer.fault(FaultKind::UnexpectedDecryptionShare, sender as u64, 0);
        return Ok(());
    }
    share_entry(epoch, net, sender, p, share, reader, writer)
}

// Drops the proposal of p.
#[tactic(auto, unfolding(crate::specs::Epoch::proposal_dropped, subset::specs::Words::store_proposal, subset::specs::Words::tag_of, subset::specs::Words::value_of))]
fn drop_proposal(epoch: &mut [u64], n: usize, p: usize)
    requires { EpochWords n epoch.old × (p < n) }
    ensures { epoch.new ≡ proposal_dropped n epoch.old p }
{
    store_proposal(epoch, n, p, ProposalState::Ongoing);
}

// `SubsetState::Complete`, which drops the subset.
#[tactic(auto, unfolding(crate::specs::Epoch::subset_complete))]
fn subset_complete(epoch: &mut [u64])
    requires { 1 < length epoch.old }
    ensures { epoch.new ≡ subset_complete epoch.old }
{
    epoch[STATUS_AT] = STATUS_COMPLETE;
    epoch[DECIDED_AT] = 0;
}

// A fault 2 of each sender of a share, by rising sender.
#[tactic(auto, using(crate::proofs::FinishCode::unexpected_turn), unfolding(crate::specs::Epoch::unexpected_from, steps::specs::Steps::put_all))]
fn unexpected_from(n: usize, td: &ThresholdDecrypt, writer: &mut Writer)
    requires { n ≤ 16 }
    ensures step { out_of writer.new ≡ put_all (out_of writer.old) (unexpected_from n 0 td.now) }
    ensures table { same_table writer.old writer.new }
{
    for sender in 0..n {
        if td.is_sender(sender) {
            writer.fault(FaultKind::UnexpectedDecryptionShare, sender as u64, 0);
        }
    }
}

// The faults of the senders of shares for proposer p, where its decryption is ongoing.
#[tactic(auto, unfolding(crate::specs::Epoch::unexpected_shares, steps::specs::Steps::put_all))]
fn unexpected_shares(epoch: &[u64], n: usize, p: usize, writer: &mut Writer)
    requires { EpochWords n epoch.now × (p < n) }
    ensures step { out_of writer.new ≡ put_all (out_of writer.old) (unexpected_shares n (load_decryption n epoch.now p)) }
    ensures table { same_table writer.old writer.new }
{
    if let Some(DecryptionState::Ongoing(td)) = load_decryption(epoch, n, p) {
        unexpected_from(n, &td, writer);
    }
}

// The end of `Done` for proposer p: its proposal is dropped, and, where it was not accepted, its entry, with a fault 2 for each share.
#[tactic(auto, unfolding(crate::specs::Epoch::finish_at, epochwords::specs::Words::is_accepted, steps::specs::Steps::put_all))]
fn finish_at(epoch: &mut [u64], net: NetworkInfo, p: usize, writer: &mut Writer)
    requires { EpochWords net.num_nodes epoch.old × (p < net.num_nodes) }
    ensures run { (t : Tape) → left epoch.new (Ok tt) t writer.new ≡ leaves (out_of writer.old) (finish_at net p epoch.old t) }
    ensures table { same_table writer.old writer.new }
{
    let n = net.num_nodes;
    if has_bit(epoch[ACCEPTED_AT], p) {
        drop_proposal(epoch, n, p);
        return;
    }
    unexpected_shares(epoch, n, p, writer);
    drop_proposal(epoch, n, p);
    store_decryption(epoch, n, p, None);
}

// The end of `Done`, by rising proposer.
#[tactic(auto, using(crate::proofs::FinishCode::finish_turn), unfolding(crate::specs::Epoch::finish_from, steps::specs::Steps::put_all))]
fn finish(epoch: &mut [u64], net: NetworkInfo, writer: &mut Writer)
    requires { EpochWords net.num_nodes epoch.old }
    ensures run { (t : Tape) → left epoch.new (Ok tt) t writer.new ≡ leaves (out_of writer.old) (finish_from net net.num_nodes 0 epoch.old t) }
    ensures table { same_table writer.old writer.new }
{
    for p in 0..net.num_nodes {
        finish_at(epoch, net, p, writer);
    }
}

// Handles the contribution of proposer p, and accepts it once that went well. In a plain epoch it is its own plaintext.
#[tactic(auto, unfolding(crate::specs::Epoch::handle_contribution, steps::specs::Runs::onward, steps::specs::Runs::onward_as, steps::specs::Steps::put_all))]
fn handle_contribution(
    epoch: &mut [u64],
    setting: Setting,
    p: usize,
    value: u64,
    reader: &mut Reader,
    writer: &mut Writer,
) -> Result<(), Stop>
    requires { EpochWords setting.net.num_nodes epoch.old × (p < setting.net.num_nodes) }
    ensures run { left epoch.new result reader.new writer.new
        ≡ leaves (out_of writer.old) (handle_contribution setting.net setting.strategy setting.encrypted p value epoch.old reader.old) }
    ensures table { same_table writer.old writer.new }
{
    let n = setting.net.num_nodes;
    if setting.encrypted {
        send_decryption_share(epoch, setting.net, p, value, reader, writer)?;
    } else {
        store_decryption(epoch, n, p, Some(DecryptionState::Complete(value)));
    }
    accept(epoch, p);
    Ok(())
}

// Who is i-th in the list of contributions.
fn contributor(epoch: &[u64], n: usize, i: usize) -> usize
    requires { EpochWords n epoch.now × Listed n epoch.now × (i < n) }
    ensures { (result ≡ contributor n epoch.now i) × (result < n) }
{
    epoch[record_at(n, i, ARRIVAL_FIELD)] as usize
}

// The value of the contribution of proposer p.
fn value_of(epoch: &[u64], n: usize, p: usize) -> u64
    requires { EpochWords n epoch.now × (p < n) }
    ensures { result ≡ get_or epoch.now (value_at n p) 0 }
{
    epoch[record_at(n, p, VALUE_FIELD)]
}

// Handles the contributions of the list, in the order of their arrival.
#[tactic(auto, unfolding(crate::specs::Epoch::handle_from, steps::specs::Steps::put_all))]
fn handle_each(
    epoch: &mut [u64],
    setting: Setting,
    reader: &mut Reader,
    writer: &mut Writer,
) -> Result<(), Stop>
    requires { EpochWords setting.net.num_nodes epoch.old × Listed setting.net.num_nodes epoch.old }
    ensures run { left epoch.new result reader.new writer.new
        ≡ leaves (out_of writer.old) (handle_from setting.net setting.strategy setting.encrypted (count_of epoch.old) 0 epoch.old reader.old) }
    ensures table { same_table writer.old writer.new }
{
    let n = setting.net.num_nodes;
    let count = epoch[COUNT_AT] as usize;
    for i in 0..count {
        let p = contributor(epoch, n, i);
        let value = value_of(epoch, n, p);
        handle_contribution(epoch, setting, p, value, reader, writer)?;
    }
    Ok(())
}

// Takes the i-th contribution out of the words.
fn drop_contribution(epoch: &mut [u64], n: usize, i: usize)
    requires { EpochWords n epoch.old × Listed n epoch.old × (i < n) }
    ensures { epoch.new ≡ set (set epoch.old (value_at n (contributor n epoch.old i)) 0) (arrival_at n i) 0 }
{
    let p = contributor(epoch, n, i);
    epoch[record_at(n, p, VALUE_FIELD)] = 0;
    epoch[record_at(n, i, ARRIVAL_FIELD)] = 0;
}

// Cuts the list of contributions to its first k.
#[tactic(auto, unfolding(crate::specs::Epoch::first_contributions, subset::specs::Words::drop_from))]
fn first_contributions(epoch: &mut [u64], n: usize, k: usize)
    requires { EpochWords n epoch.old × Listed n epoch.old }
    ensures { epoch.new ≡ first_contributions n k epoch.old }
{
    let count = epoch[COUNT_AT] as usize;
    for i in k..count {
        drop_contribution(epoch, n, i);
    }
    epoch[COUNT_AT] = k as u64;
}

// Handles the contributions of the list. None is left, even after a failure.
#[tactic(auto, unfolding(crate::specs::Epoch::handle_contributions))]
fn handle_contributions(
    epoch: &mut [u64],
    setting: Setting,
    reader: &mut Reader,
    writer: &mut Writer,
) -> Result<(), Stop>
    requires { EpochWords setting.net.num_nodes epoch.old × Listed setting.net.num_nodes epoch.old }
    ensures run { left epoch.new result reader.new writer.new
        ≡ leaves (out_of writer.old) (handle_contributions setting.net setting.strategy setting.encrypted epoch.old reader.old) }
    ensures table { same_table writer.old writer.new }
{
    let handled = handle_each(epoch, setting, reader, writer);
    first_contributions(epoch, setting.net.num_nodes, 0);
    handled
}

// Whether contributions are handled now: Incremental handles them as they come, AllAtEnd all of them when the subset is done.
#[tactic(auto, unfolding(crate::specs::Epoch::handles_now))]
fn handles_now(strategy: SubsetHandlingStrategy, done: bool) -> bool
    ensures { result ≡ handles_now strategy done }
{
    match strategy {
        SubsetHandlingStrategy::Incremental => true,
        SubsetHandlingStrategy::AllAtEnd => done,
    }
}

// `process_subset` after a call of the subset that is done or not. What it has handed up is in the list of contributions.
#[tactic(auto, using(steps::proofs::RunLaws::leaves_before), unfolding(crate::specs::Epoch::process_subset, steps::specs::Runs::onward, steps::specs::Runs::onward_as, steps::specs::Steps::put_all))]
fn process_subset(
    epoch: &mut [u64],
    setting: Setting,
    done: bool,
    reader: &mut Reader,
    writer: &mut Writer,
) -> Result<(), Stop>
    requires { EpochWords setting.net.num_nodes epoch.old × Listed setting.net.num_nodes epoch.old }
    ensures run { left epoch.new result reader.new writer.new
        ≡ leaves (out_of writer.old) (process_subset setting.net setting.strategy setting.encrypted done epoch.old reader.old) }
    ensures table { same_table writer.old writer.new }
{
    if handles_now(setting.strategy, done) {
        handle_contributions(epoch, setting, reader, writer)?;
    }
    if done {
        subset_complete(epoch);
        finish(epoch, setting.net, writer);
    }
    Ok(())
}

// The own proposal is serialised outside before the subset gets it.
#[tactic(auto, unfolding(steps::specs::Runs::heard, steps::specs::Runs::heard_as, steps::specs::Steps::put_all))]
fn serialise(input: SubsetInput, reader: &mut Reader) -> Result<(), Stop>
    ensures { (w : List ℕ) → left_reading w result reader.new ≡ serialised input w reader.old }
{
    match input {
        SubsetInput::Proposal => {
            let (a, _) = reader.ask(AnswerKind::ProposalSerialised)?;
            if a == 0 {
                return Err(Stop::Failed(Failure::ProposeBincode));
            }
            Ok(())
        }
        SubsetInput::Message(_, _) => Ok(()),
    }
}

// `SubsetState::handle_input` and `handle_message`, with their failures.
fn input_subset(
    epoch: &mut [u64],
    net: NetworkInfo,
    input: SubsetInput,
    reader: &mut Reader,
    writer: &mut Writer,
) -> Result<bool, Stop>
    requires { Network net × EpochWords net.num_nodes epoch.old × Names input net.num_nodes }
    ensures run { left epoch.new result reader.new writer.new
        ≡ leaves (out_of writer.old) (subset_call net input epoch.old reader.old) }
    ensures table { same_table writer.old writer.new }
{
    match input {
        SubsetInput::Proposal => {
            subset::subset::propose(epoch, net, Failure::InputSubset, reader, writer)
        }
        SubsetInput::Message(content, p) => {
            let error = Failure::HandleSubsetMessage;
            subset::subset::handle_message(epoch, net, error, content, p, reader, writer)
        }
    }
}

// Calls the subset: its contributions join the list. A failed call hands up nothing: those past the first `count` are lost with its step.
#[tactic(auto, unfolding(crate::specs::Epoch::handed_up, steps::specs::Steps::put_all))]
fn hand_up(
    epoch: &mut [u64],
    setting: Setting,
    input: SubsetInput,
    reader: &mut Reader,
    writer: &mut Writer,
) -> Result<bool, Stop>
    requires { EpochWords setting.net.num_nodes epoch.old × Listed setting.net.num_nodes epoch.old × Names input setting.net.num_nodes }
    ensures run { left epoch.new result reader.new writer.new
        ≡ leaves (out_of writer.old) (handed_up setting.net setting.strategy setting.encrypted (count_of epoch.old) (subset_call setting.net input epoch.old reader.old).verdict (subset_call setting.net input epoch.old reader.old)) }
    ensures table { same_table writer.old writer.new }
{
    let count = epoch[COUNT_AT] as usize;
    let called = input_subset(epoch, setting.net, input, reader, writer);
    if called.is_err() {
        first_contributions(epoch, setting.net.num_nodes, count);
    }
    called
}

// A proposal or a message goes to the subset, unless that has completed.
#[tactic(auto, using(crate::proofs::CallCode::subset_onward, steps::proofs::RunLaws::leaves_before), unfolding(crate::specs::Epoch::call_subset, steps::specs::Runs::onward, steps::specs::Runs::onward_as, steps::specs::Steps::put_all))]
fn call_subset(
    epoch: &mut [u64],
    setting: Setting,
    input: SubsetInput,
    reader: &mut Reader,
    writer: &mut Writer,
) -> Result<(), Stop>
    requires { EpochWords setting.net.num_nodes epoch.old × Listed setting.net.num_nodes epoch.old × Names input setting.net.num_nodes }
    ensures run { left epoch.new result reader.new writer.new
        ≡ leaves (out_of writer.old) (subset_run setting.net setting.strategy setting.encrypted input epoch.old reader.old) }
    ensures table { same_table writer.old writer.new }
{
    serialise(input, reader)?;
    if epoch[STATUS_AT] == STATUS_COMPLETE {
        return Ok(());
    }
    let done = hand_up(epoch, setting, input, reader, writer)?;
    process_subset(epoch, setting, done, reader, writer)
}

// `propose` and `handle_message_content`, by what comes: there is one way through the subset, so that the compiler has one frame for it. By `match`,
// here and wherever a content or an input decides: the interface closes the set, and a closure would borrow reader and writer.
pub fn handle(
    epoch: &mut [u64],
    setting: Setting,
    input: Input,
    reader: &mut Reader,
    writer: &mut Writer,
) -> Result<(), Stop>
    requires { EpochWords setting.net.num_nodes epoch.old × Listed setting.net.num_nodes epoch.old × Comes input setting.net.num_nodes }
    ensures run { left epoch.new result reader.new writer.new
        ≡ leaves (out_of writer.old) (input_run setting.net setting.strategy setting.encrypted input epoch.old reader.old) }
    ensures table { same_table writer.old writer.new }
{
    match input {
        Input::Subset(given) => call_subset(epoch, setting, given, reader, writer),
        Input::Share(sender, p, share) => {
            handle_decryption_share(epoch, setting.net, sender, p, share, reader, writer)
        }
    }
}

// `EpochState::new`: an epoch whose instances have just been built.
#[tactic(auto, unfolding(subset::specs::Words::new_epoch))]
pub fn new_epoch(epoch: &mut [u64], n: usize)
    requires { EpochWords n epoch.old }
    ensures { epoch.new ≡ new_epoch n }
{
    epoch.fill(0);
    epoch[STATUS_AT] = STATUS_ONGOING;
}
