// One proposal of the common subset, after subset/proposal_state.rs. Its broadcast and agreement instances are outside.
#![tactic(auto)]

pub mod proposal_state;

// The state of a proposal's broadcast and agreement process. A value is a handle.
#[derive(Clone, Copy)]
pub enum ProposalState {
    // We are still awaiting the value from the broadcast and the decision from the agreement.
    Ongoing,
    // We received the value but are still waiting for the agreement, whether to output.
    HasValue(u64),
    // The value has been accepted, but we haven't received it yet.
    Accepted,
    // We are done: either we output (`true`) or we dropped the value (`false`).
    Complete(bool),
}
