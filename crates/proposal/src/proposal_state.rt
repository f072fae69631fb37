// A proposal, after proposal_state.rs. Each step takes the old state and hands back the new one. `error` is the failure that the caller
// gives the error of an instance, of a type of the caller's; its kinds may be any numbers, too.
ghost use Rattle.std.specs.Prelude.{◌≡◌, true};
ghost use Rattle.steps.specs.Written.{left_as, out_of, same_table};
ghost use Rattle.steps.specs.Runs.{leaves};
ghost use Rattle.proposal.specs.declared.ProposalState.{ProposalState};
ghost use Rattle.proposal.specs.Proposal.{received, accepted, complete, asks_agreement, asks_broadcast, after_agreement, instance_answer, after_value, handle_agreement, handle_broadcast};
ghost use Rattle.proposal.specs.Outcomes.{transition, transition_of};

use crate::ProposalState;
use steps::kinds::{AnswerKind, Failure, Numbered, Stop};
use steps::reader::{Content, Reader};
use steps::step::Writer;

// What a step of a proposal comes to. Its state is kept beside a refusal or a failure too, so that it is no part of the result.
#[derive(Clone, Copy)]
pub struct Transition<E = Failure> {
    pub state: ProposalState,
    // The value that it outputs, if it does.
    pub outcome: Result<Option<u64>, Stop<E>>,
}

// `convert_bc` and `convert_ba`: the answer of an instance, and its last output. `content` stands beside `kind`, since the two public callers
// promise for every kind that they read the parts as their own instance's.
fn instance_answer<E: Numbered, K: Numbered>(
    error: E,
    proposer: usize,
    kind: K,
    content: Content,
    reader: &mut Reader,
    writer: &mut Writer,
) -> Result<Option<u64>, Stop<E>>
    ensures run { (s : ProposalState) → left_as E.number s result reader.new writer.new
        ≡ leaves (out_of writer.old) (instance_answer (E.number error) proposer (K.number kind) content s reader.old) }
    ensures table { same_table writer.old writer.new }
{
    let Ok((a, _)) = reader.ask_about(kind, proposer) else {
        return Err(Stop::NotNext);
    };
    if a == 0 {
        return Err(Stop::Failed(error));
    }
    Ok(reader.read_parts(content, proposer, writer))
}

impl ProposalState {
    // Whether we already received the broadcast's result.
    #[tactic(auto, unfolding(crate::specs::Proposal::received))]
    pub fn received(self) -> bool
        ensures { result ≡ received self }
    {
        matches!(
            self,
            ProposalState::HasValue(_) | ProposalState::Complete(true)
        )
    }

    // Whether this proposal has been accepted, even if we don't have the value yet.
    #[tactic(auto, unfolding(crate::specs::Proposal::accepted))]
    pub fn accepted(self) -> bool
        ensures { result ≡ accepted self }
    {
        matches!(
            self,
            ProposalState::Accepted | ProposalState::Complete(true)
        )
    }

    // Whether this proposal has been rejected, or accepted and output.
    #[tactic(auto, unfolding(crate::specs::Proposal::complete))]
    pub fn complete(self) -> bool
        ensures { result ≡ complete self }
    {
        matches!(self, ProposalState::Complete(_))
    }

    // Whether the agreement instance is still called. The value alone decides nothing.
    #[tactic(auto, unfolding(crate::specs::Proposal::asks_agreement))]
    pub fn asks_agreement(self) -> bool
        ensures { result ≡ asks_agreement self }
    {
        matches!(self, ProposalState::Ongoing | ProposalState::HasValue(_))
    }

    // Whether the broadcast instance is still called, for a value that is not here yet.
    #[tactic(auto, unfolding(crate::specs::Proposal::asks_broadcast))]
    pub fn asks_broadcast(self) -> bool
        ensures { result ≡ asks_broadcast self }
    {
        matches!(self, ProposalState::Ongoing | ProposalState::Accepted)
    }

    // The step to this state.
    fn transition<E>(self, outcome: Result<Option<u64>, Stop<E>>) -> Transition<E>
        ensures { result ≡ transition self outcome }
    {
        Transition {
            state: self,
            outcome,
        }
    }

    // The agreement's output, if it had one, is the decision.
    #[tactic(auto, unfolding(crate::specs::Proposal::after_agreement))]
    fn after_agreement<E>(self, output: Option<u64>) -> Transition<E>
        ensures { result ≡ transition_of (after_agreement self output) }
    {
        match (self, output) {
            (ProposalState::Ongoing | ProposalState::HasValue(_), Some(0)) => {
                ProposalState::Complete(false).transition(Ok(None))
            }
            (ProposalState::Ongoing, Some(_)) => ProposalState::Accepted.transition(Ok(None)),
            (ProposalState::HasValue(value), Some(_)) => {
                ProposalState::Complete(true).transition(Ok(Some(value)))
            }
            (_, _) => self.transition(Ok(None)),
        }
    }

    // Asks the agreement instance, and updates the state according to the outcome. Kind `ProposeFalse` is a vote for rejecting the
    // proposal (`vote_false`).
    #[tactic(auto, unfolding(crate::specs::Proposal::handle_agreement, steps::specs::Steps::put_all))]
    pub fn handle_agreement<E: Numbered, K: Numbered>(
        self,
        error: E,
        proposer: usize,
        kind: K,
        reader: &mut Reader,
        writer: &mut Writer,
    ) -> Transition<E>
        ensures run { left_as E.number result.state result.outcome reader.new writer.new
            ≡ leaves (out_of writer.old) (handle_agreement (E.number error) proposer (K.number kind) self reader.old) }
        ensures table { same_table writer.old writer.new }
    {
        if !self.asks_agreement() {
            return self.transition(Ok(None));
        }
        match instance_answer(error, proposer, kind, Content::Agreement, reader, writer) {
            Ok(output) => self.after_agreement(output),
            Err(stop) => self.transition(Err(stop)),
        }
    }

    // The broadcast's output, if it had one, is the value. While the agreement is undecided it earns a vote 1.
    #[tactic(auto, unfolding(crate::specs::Proposal::after_value, crate::specs::Proposal::after_broadcast, crate::specs::Proposal::vote_true, crate::specs::Proposal::asks_agreement, crate::specs::Proposal::asks_broadcast, crate::specs::Proposal::handle_agreement, steps::specs::Steps::put_all))]
    fn after_value<E: Numbered>(
        self,
        error: E,
        proposer: usize,
        output: Option<u64>,
        reader: &mut Reader,
        writer: &mut Writer,
    ) -> Transition<E>
        requires { asks_broadcast self ≡ true }
        ensures run { left_as E.number result.state result.outcome reader.new writer.new
            ≡ leaves (out_of writer.old) (after_value (E.number error) proposer self output reader.old) }
        ensures table { same_table writer.old writer.new }
    {
        match (self, output) {
            (ProposalState::Ongoing, Some(value)) => {
                let received = ProposalState::HasValue(value);
                received.handle_agreement(error, proposer, AnswerKind::ProposeTrue, reader, writer)
            }
            (ProposalState::Accepted, Some(value)) => {
                ProposalState::Complete(true).transition(Ok(Some(value)))
            }
            (_, _) => self.transition(Ok(None)),
        }
    }

    // Asks the broadcast instance, and updates the state according to the outcome.
    #[tactic(auto, unfolding(crate::specs::Proposal::handle_broadcast, steps::specs::Steps::put_all))]
    pub fn handle_broadcast<E: Numbered, K: Numbered>(
        self,
        error: E,
        proposer: usize,
        kind: K,
        reader: &mut Reader,
        writer: &mut Writer,
    ) -> Transition<E>
        ensures run { left_as E.number result.state result.outcome reader.new writer.new
            ≡ leaves (out_of writer.old) (handle_broadcast (E.number error) proposer (K.number kind) self reader.old) }
        ensures table { same_table writer.old writer.new }
    {
        if !self.asks_broadcast() {
            return self.transition(Ok(None));
        }
        match instance_answer(error, proposer, kind, Content::Broadcast, reader, writer) {
            Ok(output) => self.after_value(error, proposer, output, reader, writer),
            Err(stop) => self.transition(Err(stop)),
        }
    }
}
