// One epoch, after honey_badger/epoch_state.rs and message.rs.
#![tactic(auto)]

pub mod epoch_state;
pub mod received;

use steps::reader::Content;

// The content of a message for an epoch: one of the subset's, or a decryption share.
#[derive(Clone, Copy)]
pub enum MessageContent {
    Subset(Content),
    DecryptionShare(u64),
}
