// A proposal and the list of contributions in the words of an epoch, and the proposals whose tag is in a given set, as a word of bits.
ghost use Rattle.std.specs.Prelude.{◌≡◌, cond, ◌+◌, ◌*◌, ◌^◌, ◌<◌, ◌≤◌, length};
ghost use Rattle.subset.specs.Words.{records_at, field_at, record_at, proposal_of, tag_of, value_of, load_proposal, store_proposal, add_contribution};
ghost use Rattle.subset.specs.Bits.{proposals_in};
ghost use Rattle.subset.specs.Outcomes.{EpochWords};

use proposal::ProposalState;
use steps::bits::has_bit;

// Where the records begin, and the length of a record besides its n shares.
pub const RECORDS_AT: usize = 16;

pub const RECORD_FIELDS: usize = 8;

// The epoch's own words that the subset uses.
pub const DECIDED_AT: usize = 1;

pub const COUNT_AT: usize = 3;

// The subset's words of a record.
pub const PROPOSAL_FIELD: usize = 0;

pub const VALUE_FIELD: usize = 1;

pub const ARRIVAL_FIELD: usize = 7;

// A proposal's tag, a number because it stands in a word that the host keeps (docs/STATE.md). What the code hands on is a `ProposalState`; beside
// this file the range rule of an epoch tests the word (epochwords/range.rt).
pub const TAG_ONGOING: u64 = 0;

pub const TAG_HAS_VALUE: u64 = 1;

pub const TAG_ACCEPTED: u64 = 2;

pub const TAG_COMPLETE_FALSE: u64 = 3;

pub const TAG_COMPLETE_TRUE: u64 = 4;

// Sets of tags, a bit for each: the agreement has decided 1; the value is here, or was output; neither rejected nor output. Each says of
// a tag what `accepted`, `received` and not `complete` say of a `ProposalState` (proofs/Bits.antt: `Means`), and stands beside them because proposals
// are counted as ones of a word (docs/DECISIONS.md, 'Forms'): a state would be made of each record only to be tested.
pub const ACCEPTED_TAGS: u64 = 1 << TAG_ACCEPTED | 1 << TAG_COMPLETE_TRUE;

pub const RECEIVED_TAGS: u64 = 1 << TAG_HAS_VALUE | 1 << TAG_COMPLETE_TRUE;

pub const INCOMPLETE_TAGS: u64 = 1 << TAG_ONGOING | 1 << TAG_HAS_VALUE | 1 << TAG_ACCEPTED;

// Where word `field` of proposer p's record is, where a record has `size` words.
pub fn field_at(size: usize, p: usize, field: usize) -> usize
    requires { field_at size p field < 2 ^ 64 }
    ensures { result ≡ field_at size p field }
{
    RECORDS_AT + p * size + field
}

// Where word `field` of proposer p's record is.
pub fn record_at(n: usize, p: usize, field: usize) -> usize
    requires { (n ≤ 16) × (p < n) × (field < 8 + n) }
    ensures { result ≡ record_at n p field }
{
    field_at(RECORD_FIELDS + n, p, field)
}

// The two words of a proposal.
#[derive(Clone, Copy)]
struct Stored {
    tag: u64,
    value: u64,
}

impl From<Stored> for ProposalState {
    ghost from_gives = { λ stored state. state ≡ proposal_of stored.tag stored.value };

    // A tag above the last reads as the last.
    #[tactic(auto, unfolding(crate::specs::Words::proposal_of))]
    fn from(stored: Stored) -> ProposalState {
        match stored.tag {
            TAG_ONGOING => ProposalState::Ongoing,
            TAG_HAS_VALUE => ProposalState::HasValue(stored.value),
            TAG_ACCEPTED => ProposalState::Accepted,
            TAG_COMPLETE_FALSE => ProposalState::Complete(false),
            _ => ProposalState::Complete(true),
        }
    }
}

impl From<ProposalState> for Stored {
    ghost from_gives = { λ state stored. (stored.tag ≡ tag_of state) × (stored.value ≡ value_of state) };

    #[tactic(auto, unfolding(crate::specs::Words::tag_of, crate::specs::Words::value_of))]
    fn from(state: ProposalState) -> Stored {
        let (tag, value) = match state {
            ProposalState::Ongoing => (TAG_ONGOING, 0),
            ProposalState::HasValue(value) => (TAG_HAS_VALUE, value),
            ProposalState::Accepted => (TAG_ACCEPTED, 0),
            ProposalState::Complete(false) => (TAG_COMPLETE_FALSE, 0),
            ProposalState::Complete(true) => (TAG_COMPLETE_TRUE, 0),
        };
        Stored { tag, value }
    }
}

#[tactic(auto, unfolding(crate::specs::Words::load_proposal))]
pub fn load_proposal(epoch: &[u64], n: usize, p: usize) -> ProposalState
    requires { EpochWords n epoch.now × (p < n) }
    ensures { result ≡ load_proposal n epoch.now p }
{
    let tag = epoch[record_at(n, p, PROPOSAL_FIELD)];
    let value = epoch[record_at(n, p, VALUE_FIELD)];
    ProposalState::from(Stored { tag, value })
}

#[tactic(auto, unfolding(crate::specs::Words::store_proposal))]
pub fn store_proposal(epoch: &mut [u64], n: usize, p: usize, state: ProposalState)
    requires { EpochWords n epoch.old × (p < n) }
    ensures { epoch.new ≡ store_proposal n epoch.old p state }
{
    let stored = Stored::from(state);
    epoch[record_at(n, p, PROPOSAL_FIELD)] = stored.tag;
    epoch[record_at(n, p, VALUE_FIELD)] = stored.value;
}

// The contribution of proposer p joins the list, if there is room for it.
#[tactic(auto, using(crate::proofs::ProposalStored::within_epoch), unfolding(crate::specs::Words::add_contribution))]
pub fn add_contribution(epoch: &mut [u64], n: usize, p: usize, value: u64)
    requires { EpochWords n epoch.old × (p < n) }
    ensures { epoch.new ≡ add_contribution n epoch.old p value }
{
    let count = epoch[COUNT_AT] as usize;
    if count < n {
        let arrival = record_at(n, count, ARRIVAL_FIELD);
        let at = record_at(n, p, VALUE_FIELD);
        epoch[arrival] = p as u64;
        epoch[at] = value;
        epoch[COUNT_AT] = count as u64 + 1;
    }
}

// Of n proposals, in records of `size` words each, those whose tag is in the set. A tag above the last reads as the last.
pub fn proposals_in(epoch: &[u64], size: usize, n: usize, tags: u64) -> u64
    requires { (n ≤ 16) × (1 ≤ size) × (records_at + n * size ≤ length epoch.now) }
    ensures { result ≡ proposals_in size tags n epoch.now }
{
    let mut bits: u64 = 0;
    for p in 0..n {
        let tag = epoch[field_at(size, p, PROPOSAL_FIELD)].min(TAG_COMPLETE_TRUE);
        bits += u64::from(has_bit(tags, tag as usize)) << p;
    }
    bits
}
