// The interface's numbers by name, for every crate (specs/Numbers.antt has the same for the definitions). What the code hands about is an enum
// with these as its discriminants (kinds.rt, and `Refusal` of the crate calls); a word that the host lends or keeps is compared with the number.

// Answer kinds: what an answer tells.
pub const INSTANCES_BUILT: u64 = 1;

pub const PROPOSAL_SERIALISED: u64 = 2;
// `Broadcast::broadcast`: the own proposal is broadcast.
pub const BROADCAST_PROPOSAL: u64 = 3;
// `Broadcast::handle_message`.
pub const BROADCAST_MESSAGE: u64 = 4;

pub const AGREEMENT_MESSAGE: u64 = 5;
// Vote 1 and vote 0.
pub const PROPOSE_TRUE: u64 = 6;

pub const PROPOSE_FALSE: u64 = 7;

pub const CIPHERTEXT_READS: u64 = 8;

pub const CIPHERTEXT_VERIFIES: u64 = 9;

pub const SHARE_VERIFIES: u64 = 10;

pub const OWN_DECRYPTION_SHARE: u64 = 11;

pub const CONTRIBUTION_DECRYPTED: u64 = 12;

pub const CONTRIBUTION_READS: u64 = 13;

// The parts of an answer.
pub const MESSAGE_PART: u64 = 16;

pub const FAULT_PART: u64 = 17;

pub const OUTPUT_PART: u64 = 18;

// The contents of a message that comes in, and the kinds of the step's messages.
pub const BROADCAST_CONTENT: u64 = 1;

pub const AGREEMENT_CONTENT: u64 = 2;

pub const SHARE_CONTENT: u64 = 3;

// The step's outputs.
pub const BATCH_OUTPUT: u64 = 1;

pub const ENTRY_OUTPUT: u64 = 2;

// The step's faults.
pub const UNEXPECTED_HB_MESSAGE_EPOCH: u64 = 1;

pub const UNEXPECTED_DECRYPTION_SHARE: u64 = 2;

pub const DESERIALIZE_CIPHERTEXT: u64 = 3;

pub const INVALID_CIPHERTEXT: u64 = 4;

pub const BATCH_DESERIALIZATION_FAILED: u64 = 5;

pub const MULTIPLE_DECRYPTION_SHARES: u64 = 6;

pub const UNVERIFIED_DECRYPTION_SHARE_SENDER: u64 = 7;

pub const BROADCAST_FAULT: u64 = 8;

pub const AGREEMENT_FAULT: u64 = 9;

// Replies: 0, and those that turn a call down.
pub const SUCCESS: u64 = 0;

pub const NUMBERS_OUT_OF_RANGE: u64 = 1;

pub const WRONG_STATE_LENGTH: u64 = 2;

pub const NOT_A_STATE: u64 = 3;

pub const SCRATCH_TOO_SHORT: u64 = 4;

pub const ANSWERS_MALFORMED: u64 = 5;

pub const EPOCH_TOO_HIGH: u64 = 6;

pub const MESSAGE_MALFORMED: u64 = 7;

pub const ANSWER_NOT_NEXT: u64 = 8;

pub const ANSWERS_UNREAD: u64 = 9;

pub const STEP_TABLE_TOO_SHORT: u64 = 10;

pub const UNKNOWN_SENDER: u64 = 11;

pub const TARGET_TOO_HIGH: u64 = 12;

// Failures: the Rust's own errors.
pub const CREATE_SUBSET: u64 = 20;

pub const PROPOSE_BINCODE: u64 = 21;

pub const INPUT_SUBSET: u64 = 22;

pub const HANDLE_SUBSET_MESSAGE: u64 = 23;

pub const DECRYPTION: u64 = 24;

pub const MULTIPLE_INPUTS: u64 = 25;

// Limits. Nodes, look-ahead, and the numbers of a schedule.
pub const NODE_LIMIT: u64 = 16;

pub const AHEAD_LIMIT: u64 = 15;

pub const SCHEDULE_LIMIT: u64 = 0xffff_ffff;
// The last handle. A fault's kind has the same limit.
pub const HANDLE_LIMIT: u64 = 0xffff_ffff;
// The fault count stops here.
pub const FAULT_LIMIT: u64 = 0xffff_ffff;
// The words of an answer table.
pub const TABLE_LIMIT: usize = 4096;

pub const LAST_EPOCH: u64 = 0x4000_0000_0000_0000;
// A step under construction counts its records up to here, far above what a call can write.
pub const COUNT_LIMIT: usize = 0x1_0000_0000;
