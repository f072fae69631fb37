// What the tag of a proposer's decryption entry means to a batch, which reads the word alone.
ghost use Rattle.std.specs.Prelude.{◌≡◌};
ghost use Rattle.epochwords.specs.Words.{is_settled, is_open};

// No entry, `DecryptionState::Ongoing`, `DecryptionState::Complete`: numbers, because they stand in words that the host keeps (docs/STATE.md). What the
// code hands on is the enum of entry.rt.
pub const ENTRY_NONE: u64 = 0;

pub const ENTRY_ONGOING: u64 = 1;

pub const ENTRY_COMPLETE: u64 = 2;

// Whether the epoch no longer waits for it.
#[tactic(auto, unfolding(crate::specs::Words::is_settled))]
pub fn is_settled(tag: u64) -> bool
    ensures { result ≡ is_settled tag }
{
    tag == ENTRY_COMPLETE
}

// Whether it has a plaintext, of which a batch asks whether it reads. The definitions ask this apart from the question above, though one tag answers both.
#[tactic(auto, unfolding(crate::specs::Words::is_open))]
pub fn is_open(tag: u64) -> bool
    ensures { result ≡ is_open tag }
{
    tag == ENTRY_COMPLETE
}
