// The decryption entries in the words of an epoch: tag, plaintext and instance of a proposer's entry beside each other.
ghost use Rattle.std.specs.Prelude.{◌≡◌, ◌<◌, true, false, get_or, MatchOption};
ghost use Rattle.epochwords.specs.Shape.{EpochWords, decryption_of};
ghost use Rattle.epochwords.specs.Words.{decryption_at, asks, load_instance, load_entry, load_decryption, set_shares, store_entry, store_decryption};

use crate::tags::{ENTRY_COMPLETE, ENTRY_NONE, ENTRY_ONGOING};
use crate::words::{
    CIPHERTEXT_FIELD, DECRYPTION_FIELD, HAD_INPUT_FIELD, PLAINTEXT_FIELD, SHARES_FIELD,
    TERMINATED_FIELD, copy,
};
use decryption::ThresholdDecrypt;
use subset::words::record_at;

// The entry of a proposer who has one: its instance, or the plaintext.
#[derive(Clone, Copy)]
pub enum DecryptionState {
    Ongoing(ThresholdDecrypt),
    Complete(u64),
}

// The instance in the words of proposer p. They have room for n shares, an instance for 16.
pub fn load_instance(epoch: &[u64], n: usize, p: usize) -> ThresholdDecrypt
    requires { EpochWords n epoch.now × (p < n) }
    ensures { result ≡ load_instance n epoch.now p }
{
    let first = record_at(n, p, SHARES_FIELD);
    let mut shares = [0u64; 16];
    copy(&epoch[first..first + n], &mut shares[..n]);
    ThresholdDecrypt {
        ciphertext: epoch[record_at(n, p, CIPHERTEXT_FIELD)],
        shares,
        had_input: epoch[record_at(n, p, HAD_INPUT_FIELD)] != 0,
        terminated: epoch[record_at(n, p, TERMINATED_FIELD)] != 0,
    }
}

// The entry of proposer p. A tag above the last reads as the last.
#[tactic(auto, unfolding(crate::specs::Words::load_decryption))]
pub fn load_decryption(epoch: &[u64], n: usize, p: usize) -> Option<DecryptionState>
    requires { EpochWords n epoch.now × (p < n) }
    ensures { decryption_of result ≡ load_decryption n epoch.now p }
{
    match epoch[record_at(n, p, DECRYPTION_FIELD)] {
        ENTRY_NONE => None,
        ENTRY_ONGOING => Some(DecryptionState::Ongoing(load_instance(epoch, n, p))),
        _ => Some(DecryptionState::Complete(epoch[record_at(n, p, PLAINTEXT_FIELD)])),
    }
}

// The instance that a share or a ciphertext comes to: a new one where there is no entry, and none where the entry asks nothing any more.
pub fn open_entry(epoch: &[u64], n: usize, p: usize) -> Option<ThresholdDecrypt>
    requires { EpochWords n epoch.now × (p < n) }
    ensures { MatchOption result (asks (get_or epoch.now (decryption_at n p) 0) ≡ false)
        (λ td. (asks (get_or epoch.now (decryption_at n p) 0) ≡ true) × (td ≡ load_entry n epoch.now p)) }
{
    match load_decryption(epoch, n, p) {
        None => Some(ThresholdDecrypt::new()),
        Some(DecryptionState::Ongoing(td)) => Some(td),
        Some(DecryptionState::Complete(_)) => None,
    }
}

// Sets its shares.
fn store_shares(epoch: &mut [u64], n: usize, p: usize, shares: &[u64; 16])
    requires { EpochWords n epoch.old × (p < n) }
    ensures { epoch.new ≡ set_shares n p n 0 shares.now epoch.old }
{
    let first = record_at(n, p, SHARES_FIELD);
    copy(&shares[..n], &mut epoch[first..first + n]);
}

// Sets all words of proposer p's entry. Its tag is a number, as the word is.
pub fn store_entry(
    epoch: &mut [u64],
    n: usize,
    p: usize,
    tag: u64,
    plaintext: u64,
    td: &ThresholdDecrypt,
)
    requires { EpochWords n epoch.old × (p < n) }
    ensures { epoch.new ≡ store_entry n epoch.old p tag plaintext td.now }
{
    epoch[record_at(n, p, DECRYPTION_FIELD)] = tag;
    epoch[record_at(n, p, PLAINTEXT_FIELD)] = plaintext;
    epoch[record_at(n, p, CIPHERTEXT_FIELD)] = td.ciphertext;
    epoch[record_at(n, p, HAD_INPUT_FIELD)] = u64::from(td.had_input);
    epoch[record_at(n, p, TERMINATED_FIELD)] = u64::from(td.terminated);
    store_shares(epoch, n, p, &td.shares);
}

// Stores the entry of proposer p.
#[tactic(auto, unfolding(crate::specs::Words::store_decryption))]
pub fn store_decryption(epoch: &mut [u64], n: usize, p: usize, state: Option<DecryptionState>)
    requires { EpochWords n epoch.old × (p < n) }
    ensures { epoch.new ≡ store_decryption n epoch.old p (decryption_of state) }
{
    match state {
        None => store_entry(epoch, n, p, ENTRY_NONE, 0, &ThresholdDecrypt::new()),
        Some(DecryptionState::Ongoing(td)) => store_entry(epoch, n, p, ENTRY_ONGOING, 0, &td),
        Some(DecryptionState::Complete(plaintext)) => store_entry(
            epoch,
            n,
            p,
            ENTRY_COMPLETE,
            plaintext,
            &ThresholdDecrypt::new(),
        ),
    }
}
