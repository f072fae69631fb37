// Where the words of an epoch are (docs/STATE.md), by name; those that the subset uses are in its own words.rt.
//
// `EpochWords` and `Listed` stand in clauses and in no struct over the words, but for a batch's, which several functions read (batch.rt): elsewhere
// they are lent by `&mut`, as subset.rt says, or to one function, for which each caller would make a struct, with the same fact to prove.
ghost use Rattle.std.specs.Prelude.{◌≡◌, length};

// The epoch's own words.
pub const STATUS_AT: usize = 0;

pub const ACCEPTED_AT: usize = 2;
// Those from here on, up to the records, are 0.
pub const RESERVED_AT: usize = 4;

// The status: there is no such epoch, `SubsetState::Ongoing`, `SubsetState::Complete`. A number because it is a word of the interface, which the
// host keeps (docs/STATE.md), and compared where it stands.
pub const STATUS_VACANT: u64 = 0;

pub const STATUS_ONGOING: u64 = 1;

pub const STATUS_COMPLETE: u64 = 2;

// The words of a record: a decryption entry, and the shares by sender.
pub const DECRYPTION_FIELD: usize = 2;

pub const PLAINTEXT_FIELD: usize = 3;

pub const CIPHERTEXT_FIELD: usize = 4;

pub const HAD_INPUT_FIELD: usize = 5;

pub const TERMINATED_FIELD: usize = 6;

pub const SHARES_FIELD: usize = 8;

// Copies all words, one by one: the archive may want `memcpy` of the C library, and std's `copy_from_slice` wants `memmove`. By index: with
// the two slices zipped, the loop's invariant has to speak of what is left of both of std's iterators, and is longer than the loop.
pub fn copy(from: &[u64], to: &mut [u64])
    requires { length from.now ≡ length to.old }
    ensures { to.new ≡ from.now }
{
    for i in 0..to.len() {
        to[i] = from[i];
    }
}
