// The checks of propose and message, in the interface's order (`hb_reply` in include/belkjund.h). They read alone: a call that they turn down has
// changed nothing.
ghost use Rattle.std.specs.Prelude.{◌≡◌, ◌≤◌, length, IfOk};
ghost use Rattle.state.specs.State.{header_length};
ghost use Rattle.calls.specs.Calls.{content_of};
ghost use Rattle.calls.specs.Checks.{first_checks, epoch_check, propose_checks, message_checks, leaves_scratch, content_told};
ghost use Rattle.calls.specs.Refusals.{reply_of};

use crate::refusal::Refusal;
use answers::{is_handle, table_ok};
use epoch::MessageContent;
use state::range::{scratch_length, state_ok};
use state::words::{EPOCH_AT, NODES_AT};
use steps::numbers::{
    AGREEMENT_CONTENT, BROADCAST_CONTENT, LAST_EPOCH, NOT_A_STATE, SCRATCH_TOO_SHORT, SHARE_CONTENT,
};
use steps::reader::Content;

// 3, 4 and 5, which both operations begin with. `scratch` is its length.
#[tactic(auto, using(state::proofs::RangeCode::ok_words, state::proofs::WordsCode::header_inside), unfolding(crate::specs::Checks::first_checks))]
fn first_checks(state: &[u64], scratch: usize, answers: &[u64]) -> Result<(), Refusal>
    ensures { reply_of result ≡ first_checks state.now scratch answers.now }
{
    if !state_ok(state) {
        return Err(Refusal::NotAState);
    }
    if scratch < scratch_length(state) {
        return Err(Refusal::ScratchTooShort);
    }
    if !table_ok(state[NODES_AT], answers) {
        return Err(Refusal::AnswersMalformed);
    }
    Ok(())
}

// 6.
#[tactic(auto, unfolding(crate::specs::Checks::epoch_check))]
fn epoch_check(state: &[u64]) -> Result<(), Refusal>
    requires { header_length ≤ length state.now }
    ensures { reply_of result ≡ epoch_check state.now }
{
    if LAST_EPOCH < state[EPOCH_AT] {
        return Err(Refusal::EpochTooHigh);
    }
    Ok(())
}

// Propose: 3, 4, 5, 6.
#[tactic(auto, using(crate::proofs::ChecksApart::first_header, crate::proofs::ChecksApart::then_passed))]
pub fn propose_checks(state: &[u64], scratch: usize, answers: &[u64]) -> Result<(), Refusal>
    ensures { reply_of result ≡ propose_checks state.now scratch answers.now }
{
    first_checks(state, scratch, answers)?;
    epoch_check(state)
}

// Whether a call that ends with this reply, any number, before its scratch is known leaves it: `Refusal::leaves_scratch` asks it of a refusal.
#[tactic(auto, unfolding(crate::specs::Checks::leaves_scratch))]
pub fn leaves_scratch(reply: u64) -> bool
    ensures { result ≡ leaves_scratch reply }
{
    (NOT_A_STATE..=SCRATCH_TOO_SHORT).contains(&reply)
}

// The content that two numbers stand for, whatever they are: `MessageContent::try_from` turns down those that stand for none.
#[tactic(auto, unfolding(crate::specs::Calls::content_of))]
pub fn content_of(content: u64, item: u64) -> MessageContent
    ensures { result ≡ content_of content item }
{
    match content {
        BROADCAST_CONTENT => MessageContent::Subset(Content::Broadcast),
        AGREEMENT_CONTENT => MessageContent::Subset(Content::Agreement),
        _ => MessageContent::DecryptionShare(item),
    }
}

// The numbers that a host gives of a message.
#[derive(Clone, Copy)]
pub struct MessageNumbers {
    pub sender: u64,
    pub content: u64,
    pub proposer: u64,
    pub item: u64,
}

// 7 for the content and its item: a share is a handle, the other contents have no item.
impl TryFrom<MessageNumbers> for MessageContent {
    type Error = Refusal;

    ghost try_from_gives = { λ numbers told. told ≡ content_told numbers.content numbers.item };

    #[tactic(auto, unfolding(crate::specs::Calls::item_ok, crate::specs::Calls::content_of))]
    fn try_from(numbers: MessageNumbers) -> Result<Self, Refusal> {
        match numbers.content {
            BROADCAST_CONTENT if numbers.item == 0 => Ok(MessageContent::Subset(
                Content::Broadcast,
            )),
            AGREEMENT_CONTENT if numbers.item == 0 => Ok(MessageContent::Subset(
                Content::Agreement,
            )),
            SHARE_CONTENT if is_handle(numbers.item) => Ok(MessageContent::DecryptionShare(
                numbers.item,
            )),
            _ => Err(Refusal::MessageMalformed),
        }
    }
}

impl MessageNumbers {
    // Message: 3, 4, 5, then 11 for the sender, 7 for the proposer, 7 for content and item, 6.
    #[tactic(auto, using(crate::proofs::ChecksApart::first_header))]
    pub fn checks(
        self,
        state: &[u64],
        scratch: usize,
        answers: &[u64],
    ) -> Result<MessageContent, Refusal>
        ensures reply { reply_of result ≡ message_checks self.sender self.content self.proposer self.item state.now scratch answers.now }
        ensures content { IfOk result (λ content. content ≡ content_of self.content self.item) }
    {
        first_checks(state, scratch, answers)?;
        let n = state[NODES_AT];
        if n <= self.sender {
            return Err(Refusal::UnknownSender);
        }
        if n <= self.proposer {
            return Err(Refusal::MessageMalformed);
        }
        let content = MessageContent::try_from(self)?;
        epoch_check(state)?;
        Ok(content)
    }
}
