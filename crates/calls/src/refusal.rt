// What turns a call down, and why a call does not end with success, by the interface's numbers.
ghost use Rattle.std.specs.Prelude.{◌≡◌};
ghost use Rattle.calls.specs.Refusals.{refusal_number, end_number};
ghost use Rattle.calls.specs.Checks.{leaves_scratch};
ghost use Rattle.calls.specs.declared.refusal.End.TheVariants.{Refused};

use steps::kinds::Failure;
use steps::numbers::{
    ANSWER_NOT_NEXT, ANSWERS_MALFORMED, ANSWERS_UNREAD, EPOCH_TOO_HIGH, MESSAGE_MALFORMED,
    NOT_A_STATE, NUMBERS_OUT_OF_RANGE, SCRATCH_TOO_SHORT, STEP_TABLE_TOO_SHORT, TARGET_TOO_HIGH,
    UNKNOWN_SENDER, WRONG_STATE_LENGTH,
};

#[derive(Clone, Copy, Debug, PartialEq, Eq)]
pub enum Refusal {
    NumbersOutOfRange = NUMBERS_OUT_OF_RANGE as isize,
    WrongStateLength = WRONG_STATE_LENGTH as isize,
    NotAState = NOT_A_STATE as isize,
    ScratchTooShort = SCRATCH_TOO_SHORT as isize,
    AnswersMalformed = ANSWERS_MALFORMED as isize,
    EpochTooHigh = EPOCH_TOO_HIGH as isize,
    MessageMalformed = MESSAGE_MALFORMED as isize,
    AnswerNotNext = ANSWER_NOT_NEXT as isize,
    AnswersUnread = ANSWERS_UNREAD as isize,
    StepTableTooShort = STEP_TABLE_TOO_SHORT as isize,
    UnknownSender = UNKNOWN_SENDER as isize,
    TargetTooHigh = TARGET_TOO_HIGH as isize,
}

impl Refusal {
    // Whether a call that its checks have turned down leaves scratch: 3 and 4 do, before they have passed nothing is known of its length.
    pub fn leaves_scratch(self) -> bool
        ensures { result ≡ leaves_scratch (refusal_number self) }
    {
        matches!(self, Refusal::NotAState | Refusal::ScratchTooShort)
    }
}

// Written out like those of steps/kinds.rt: the gate refuses a derive or a macro of our own.
impl From<Refusal> for u64 {
    ghost from_gives = { λ refusal reply. reply ≡ refusal_number refusal };

    fn from(refusal: Refusal) -> u64 {
        refusal as u64
    }
}

// Why a call does not end with success: it was turned down, or it failed as the Rust does.
#[derive(Clone, Copy, Debug, PartialEq, Eq)]
pub enum End {
    Refused(Refusal),
    Failed(Failure),
}

impl From<Refusal> for End {
    ghost from_gives = { λ refusal end. end ≡ Refused refusal };

    fn from(refusal: Refusal) -> End {
        End::Refused(refusal)
    }
}

impl From<End> for u64 {
    ghost from_gives = { λ end reply. reply ≡ end_number end };

    fn from(end: End) -> u64 {
        match end {
            End::Refused(refusal) => u64::from(refusal),
            End::Failed(failure) => u64::from(failure),
        }
    }
}
