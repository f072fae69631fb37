// The received proposals of an epoch, after `received_proposals` of epoch_state.rs.
ghost use Rattle.std.specs.Prelude.{◌≡◌, ◌^◌, ◌<◌};
ghost use Rattle.subset.specs.Words.{accepted_of};
ghost use Rattle.epochwords.specs.Shape.{EpochWords};
ghost use Rattle.epoch.specs.Epoch.{received_proposals};

use epochwords::words::{ACCEPTED_AT, STATUS_AT, STATUS_COMPLETE, STATUS_VACANT};

// From how many proposers a value is here: as the subset says, and once it is done those accepted.
#[tactic(auto, using(subset::proofs::Bits::ones_bits), unfolding(crate::specs::Epoch::received_proposals))]
pub fn received_proposals(epoch: &[u64], n: usize) -> usize
    requires { EpochWords n epoch.now × (accepted_of epoch.now < 2 ^ n) }
    ensures { result ≡ received_proposals n epoch.now }
{
    match epoch[STATUS_AT] {
        STATUS_VACANT => 0,
        STATUS_COMPLETE => u64::count_ones(epoch[ACCEPTED_AT]) as usize,
        _ => subset::subset::received_proposals(epoch, n),
    }
}
