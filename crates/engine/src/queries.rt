// The queries, after `has_input` and `received_proposals` of honey_badger.rs.
ghost use Rattle.std.specs.Prelude.{◌≡◌, true, ◌≤◌, length};
ghost use Rattle.state.specs.State.{header_length, state_ok};
ghost use Rattle.work.specs.HoneyBadger.{has_input, received_proposals};

use state::words::{EPOCH_AT, INPUT_AT, NODES_AT, epoch_in, net_of};

// Whether input for the current epoch has been provided. An observer has none to provide.
#[tactic(auto, unfolding(work::specs::HoneyBadger::has_input))]
pub fn has_input(state: &[u64]) -> bool
    requires { header_length ≤ length state.now }
    ensures { result ≡ has_input state.now }
{
    let net = net_of(state);
    !net.is_validator() | (state[INPUT_AT] != 0)
}

// From how many proposers a value of the current epoch is here.
#[tactic(auto, using(state::proofs::RangeCode::ok_words, crate::proofs::QueryCode::header_of), unfolding(work::specs::HoneyBadger::received_proposals))]
pub fn received_proposals(state: &[u64]) -> u64
    requires { state_ok state.now ≡ true }
    ensures { result ≡ received_proposals state.now }
{
    let words = epoch_in(state, state[EPOCH_AT]);
    epoch::received::received_proposals(words, state[NODES_AT] as usize) as u64
}
