// The range rule of an epoch's words (docs/STATE.md). The check of a call reads every word of the state: its loops do not branch. Every word of a
// record is below 2^32, so all words of all records are joined and tested once, in a loop over a slice of their own that the compiler makes a
// vector loop of; the words with smaller limits are then tested one by one.
ghost use Rattle.std.specs.Prelude.{◌≡◌, ℕ, ◌^◌, ◌<◌, length, ltb};
ghost use Rattle.epochwords.specs.Shape.{EpochWords};
ghost use Rattle.epochwords.specs.Words.{all_from, small_in_range, most_kept, epoch_in_range};

use crate::SubsetHandlingStrategy;
use crate::tags::ENTRY_COMPLETE;
use crate::words::{
    ACCEPTED_AT, DECRYPTION_FIELD, HAD_INPUT_FIELD, RESERVED_AT, STATUS_AT, STATUS_COMPLETE,
    TERMINATED_FIELD,
};
use steps::numbers::HANDLE_LIMIT;
use subset::words::{
    ARRIVAL_FIELD, COUNT_AT, DECIDED_AT, PROPOSAL_FIELD, RECORDS_AT, TAG_COMPLETE_TRUE, record_at,
};

// The words joined bit by bit: below a power of two where each of them is.
fn join(words: &[u64]) -> u64
    ensures { (k : ℕ) → ltb result (2 ^ k) ≡ all_from (λ x. ltb x (2 ^ k)) (length words.now) 0 words.now }
{
    let mut joined: u64 = 0;
    for word in words {
        joined |= *word;
    }
    joined
}

// Whether the words of proposer p's record that have smaller limits than handles keep them.
#[tactic(auto, using(crate::proofs::RangeCode::record_end), unfolding(crate::specs::Words::small_in_range))]
fn small_in_range(epoch: &[u64], n: usize, p: usize) -> bool
    requires { EpochWords n epoch.now × (p < n) }
    ensures { result ≡ small_in_range n epoch.now p }
{
    (epoch[record_at(n, p, PROPOSAL_FIELD)] <= TAG_COMPLETE_TRUE)
        & (epoch[record_at(n, p, DECRYPTION_FIELD)] <= ENTRY_COMPLETE)
        & (epoch[record_at(n, p, HAD_INPUT_FIELD)] <= 1)
        & (epoch[record_at(n, p, TERMINATED_FIELD)] <= 1)
        & (epoch[record_at(n, p, ARRIVAL_FIELD)] < n as u64)
}

// How many contributions are kept between calls at most.
#[tactic(auto, unfolding(crate::specs::Words::most_kept))]
fn most_kept(strategy: SubsetHandlingStrategy, n: usize) -> u64
    ensures { result ≡ most_kept strategy n }
{
    match strategy {
        SubsetHandlingStrategy::Incremental => 0,
        SubsetHandlingStrategy::AllAtEnd => n as u64,
    }
}

// Whether the words of an epoch are in range.
pub fn epoch_in_range(epoch: &[u64], strategy: SubsetHandlingStrategy, n: usize) -> bool
    requires { EpochWords n epoch.now }
    ensures { result ≡ epoch_in_range strategy n epoch.now }
{
    let limit: u64 = 1 << n;
    let most = most_kept(strategy, n);
    let reserved = join(&epoch[RESERVED_AT..RECORDS_AT]);
    let joined = join(&epoch[RECORDS_AT..]);
    let mut ok = (epoch[STATUS_AT] <= STATUS_COMPLETE)
        & (epoch[DECIDED_AT] <= 1)
        & (epoch[ACCEPTED_AT] < limit)
        & (epoch[COUNT_AT] <= most)
        & (reserved == 0)
        & (joined < HANDLE_LIMIT + 1);
    // where nothing came yet every word is 0, and so in range
    if joined == 0 {
        return ok;
    }
    for p in 0..n {
        ok &= small_in_range(epoch, n, p);
    }
    ok
}
