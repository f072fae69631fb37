// The kinds of answers, messages, faults, outputs and failures. `u64::from` gives the interface's number (numbers.rt, specs/Kinds.antt).
ghost use Rattle.std.specs.Prelude.{◌≡◌, ◌≢◌, MatchResult};
ghost use Rattle.steps.specs.Kinds.{answer_number, message_number, fault_number, output_number, failure_number};

use crate::numbers::{
    AGREEMENT_CONTENT, AGREEMENT_FAULT, AGREEMENT_MESSAGE, BATCH_DESERIALIZATION_FAILED,
    BATCH_OUTPUT, BROADCAST_CONTENT, BROADCAST_FAULT, BROADCAST_MESSAGE, BROADCAST_PROPOSAL,
    CIPHERTEXT_READS, CIPHERTEXT_VERIFIES, CONTRIBUTION_DECRYPTED, CONTRIBUTION_READS,
    CREATE_SUBSET, DECRYPTION, DESERIALIZE_CIPHERTEXT, ENTRY_OUTPUT, HANDLE_SUBSET_MESSAGE,
    INPUT_SUBSET, INSTANCES_BUILT, INVALID_CIPHERTEXT, MULTIPLE_DECRYPTION_SHARES, MULTIPLE_INPUTS,
    OWN_DECRYPTION_SHARE, PROPOSAL_SERIALISED, PROPOSE_BINCODE, PROPOSE_FALSE, PROPOSE_TRUE,
    SHARE_CONTENT, SHARE_VERIFIES, UNEXPECTED_DECRYPTION_SHARE, UNEXPECTED_HB_MESSAGE_EPOCH,
    UNVERIFIED_DECRYPTION_SHARE_SENDER,
};

// What an answer tells.
#[derive(Clone, Copy, Debug, PartialEq, Eq)]
pub enum AnswerKind {
    InstancesBuilt = INSTANCES_BUILT as isize,
    ProposalSerialised = PROPOSAL_SERIALISED as isize,
    // `Broadcast::broadcast`: the own proposal is broadcast.
    BroadcastProposal = BROADCAST_PROPOSAL as isize,
    // `Broadcast::handle_message`.
    BroadcastMessage = BROADCAST_MESSAGE as isize,
    AgreementMessage = AGREEMENT_MESSAGE as isize,
    // Vote 1 and vote 0.
    ProposeTrue = PROPOSE_TRUE as isize,
    ProposeFalse = PROPOSE_FALSE as isize,
    CiphertextReads = CIPHERTEXT_READS as isize,
    CiphertextVerifies = CIPHERTEXT_VERIFIES as isize,
    ShareVerifies = SHARE_VERIFIES as isize,
    OwnDecryptionShare = OWN_DECRYPTION_SHARE as isize,
    ContributionDecrypted = CONTRIBUTION_DECRYPTED as isize,
    ContributionReads = CONTRIBUTION_READS as isize,
}

// The kinds of the step's messages. A message that comes in has the numbers of these as its content (`BROADCAST_CONTENT` and the others).
#[derive(Clone, Copy, Debug, PartialEq, Eq)]
pub enum MessageKind {
    Broadcast = BROADCAST_CONTENT as isize,
    Agreement = AGREEMENT_CONTENT as isize,
    Share = SHARE_CONTENT as isize,
}

// The step's faults.
#[derive(Clone, Copy, Debug, PartialEq, Eq)]
pub enum FaultKind {
    UnexpectedHbMessageEpoch = UNEXPECTED_HB_MESSAGE_EPOCH as isize,
    UnexpectedDecryptionShare = UNEXPECTED_DECRYPTION_SHARE as isize,
    DeserializeCiphertext = DESERIALIZE_CIPHERTEXT as isize,
    InvalidCiphertext = INVALID_CIPHERTEXT as isize,
    BatchDeserializationFailed = BATCH_DESERIALIZATION_FAILED as isize,
    MultipleDecryptionShares = MULTIPLE_DECRYPTION_SHARES as isize,
    UnverifiedDecryptionShareSender = UNVERIFIED_DECRYPTION_SHARE_SENDER as isize,
    BroadcastFault = BROADCAST_FAULT as isize,
    AgreementFault = AGREEMENT_FAULT as isize,
}

// The step's outputs.
#[derive(Clone, Copy, Debug, PartialEq, Eq)]
pub enum OutputKind {
    Batch = BATCH_OUTPUT as isize,
    Entry = ENTRY_OUTPUT as isize,
}

// The Rust's own errors.
#[derive(Clone, Copy, Debug, PartialEq, Eq)]
pub enum Failure {
    CreateSubset = CREATE_SUBSET as isize,
    ProposeBincode = PROPOSE_BINCODE as isize,
    InputSubset = INPUT_SUBSET as isize,
    HandleSubsetMessage = HANDLE_SUBSET_MESSAGE as isize,
    Decryption = DECRYPTION as isize,
    MultipleInputs = MULTIPLE_INPUTS as isize,
}

// Why a run ends before it is done: the answer that it wants is not next, or a failure, the Rust's error unless the caller has another.
#[derive(Clone, Copy, Debug, PartialEq, Eq)]
pub enum Stop<E = Failure> {
    NotNext,
    Failed(E),
}

// What has a number: a kind or a failure of the interface, or any number itself.
pub trait Numbered: Copy {
    ghost use Rattle.std.specs.Prelude.{ℕ, ◌≡◌};

    ghost number: { Self → ℕ };

    fn number(self) -> u64
        ensures { result ≡ number self };
}

impl Numbered for u64 {
    ghost number = { λ n. n };

    fn number(self) -> u64 {
        self
    }
}

impl Numbered for AnswerKind {
    ghost number = { answer_number };

    fn number(self) -> u64 {
        u64::from(self)
    }
}

impl Numbered for MessageKind {
    ghost number = { message_number };

    fn number(self) -> u64 {
        u64::from(self)
    }
}

impl Numbered for FaultKind {
    ghost number = { fault_number };

    fn number(self) -> u64 {
        u64::from(self)
    }
}

impl Numbered for OutputKind {
    ghost number = { output_number };

    fn number(self) -> u64 {
        u64::from(self)
    }
}

impl Numbered for Failure {
    ghost number = { failure_number };

    fn number(self) -> u64 {
        u64::from(self)
    }
}

// Each `From` is written out: the gate refuses an impl that a macro or derive of our own writes.
impl From<AnswerKind> for u64 {
    ghost from_gives = { λ kind number. number ≡ answer_number kind };

    fn from(kind: AnswerKind) -> u64 {
        kind as u64
    }
}

// A number that no answer kind has.
#[derive(Clone, Copy, Debug, PartialEq, Eq)]
pub struct NoKind(pub u64);

impl TryFrom<u64> for AnswerKind {
    type Error = NoKind;

    ghost use Rattle.steps.specs.declared.kinds.AnswerKind.{AnswerKind};

    ghost try_from_gives = { λ number r. MatchResult r (λ kind. number ≡ answer_number kind) (λ none. (none.0 ≡ number) × ((kind : AnswerKind) → number ≢ answer_number kind)) };

    fn try_from(number: u64) -> Result<Self, NoKind> {
        match number {
            INSTANCES_BUILT => Ok(AnswerKind::InstancesBuilt),
            PROPOSAL_SERIALISED => Ok(AnswerKind::ProposalSerialised),
            BROADCAST_PROPOSAL => Ok(AnswerKind::BroadcastProposal),
            BROADCAST_MESSAGE => Ok(AnswerKind::BroadcastMessage),
            AGREEMENT_MESSAGE => Ok(AnswerKind::AgreementMessage),
            PROPOSE_TRUE => Ok(AnswerKind::ProposeTrue),
            PROPOSE_FALSE => Ok(AnswerKind::ProposeFalse),
            CIPHERTEXT_READS => Ok(AnswerKind::CiphertextReads),
            CIPHERTEXT_VERIFIES => Ok(AnswerKind::CiphertextVerifies),
            SHARE_VERIFIES => Ok(AnswerKind::ShareVerifies),
            OWN_DECRYPTION_SHARE => Ok(AnswerKind::OwnDecryptionShare),
            CONTRIBUTION_DECRYPTED => Ok(AnswerKind::ContributionDecrypted),
            CONTRIBUTION_READS => Ok(AnswerKind::ContributionReads),
            _ => Err(NoKind(number)),
        }
    }
}

impl From<MessageKind> for u64 {
    ghost from_gives = { λ kind number. number ≡ message_number kind };

    fn from(kind: MessageKind) -> u64 {
        kind as u64
    }
}

impl From<FaultKind> for u64 {
    ghost from_gives = { λ kind number. number ≡ fault_number kind };

    fn from(kind: FaultKind) -> u64 {
        kind as u64
    }
}

impl From<OutputKind> for u64 {
    ghost from_gives = { λ kind number. number ≡ output_number kind };

    fn from(kind: OutputKind) -> u64 {
        kind as u64
    }
}

impl From<Failure> for u64 {
    ghost from_gives = { λ kind number. number ≡ failure_number kind };

    fn from(kind: Failure) -> u64 {
        kind as u64
    }
}
