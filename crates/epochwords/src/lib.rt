// The words of one epoch: its entries of decryption, their ranges, and the batch that is read from them, after honey_badger/batch.rs.
#![tactic(auto)]

ghost use Rattle.std.specs.Prelude.{◌≡◌, cond, eqb};
ghost use Rattle.epochwords.specs.declared.SubsetHandlingStrategy.TheVariants.{Incremental, AllAtEnd};

pub mod batch;
pub mod entry;
pub mod range;
pub mod tags;
pub mod words;

// When the contributions that the subset hands up are handled: as they come, or all at the end.
#[derive(Clone, Copy)]
pub enum SubsetHandlingStrategy {
    Incremental,
    AllAtEnd,
}

impl From<u64> for SubsetHandlingStrategy {
    ghost from_gives = { λ number strategy. strategy ≡ cond (eqb number 0) Incremental AllAtEnd };

    // The interface's number. One above the last reads as the last.
    fn from(number: u64) -> SubsetHandlingStrategy {
        match number {
            0 => SubsetHandlingStrategy::Incremental,
            _ => SubsetHandlingStrategy::AllAtEnd,
        }
    }
}
