// Reply 5: whether a table of words is an answer table (include/belkjund.h).
#![tactic(auto)]

ghost use Rattle.std.specs.Prelude.{◌≡◌, ◌/◌, ◌<◌, ◌≤◌, true, length};
ghost use Rattle.steps.specs.Table.{handle, record_ok, context_after, shape_ok, link_ok, may_follow, table_ok};

use steps::numbers::{
    BROADCAST_MESSAGE, BROADCAST_PROPOSAL, CONTRIBUTION_DECRYPTED, CONTRIBUTION_READS, FAULT_PART,
    HANDLE_LIMIT, INSTANCES_BUILT, MESSAGE_PART, OUTPUT_PART, OWN_DECRYPTION_SHARE,
    PROPOSAL_SERIALISED, PROPOSE_FALSE, SHARE_VERIFIES, TABLE_LIMIT,
};

// A handle stands for bytes that the host holds.
pub fn is_handle(b: u64) -> bool
    ensures { result ≡ handle b }
{
    (1..=HANDLE_LIMIT).contains(&b)
}

// Whether a record keeps its kind's own range for a and b. The context is the kind of the answer that a part would belong to, or 0.
// Kinds are numbers: it is asked about any number that the host writes, where an `AnswerKind` would ask more of callers, and ranges of kinds
// share a rule.
#[tactic(auto, unfolding(steps::specs::Table::record_ok))]
pub fn record_ok(n: u64, context: u64, kind: u64, a: u64, b: u64) -> bool
    ensures { result ≡ record_ok n context kind a b }
{
    match kind {
        INSTANCES_BUILT => (a <= 1) & (b == 0),
        PROPOSAL_SERIALISED | CONTRIBUTION_DECRYPTED => if a == 0 {
            b == 0
        } else {
            (a == 1) & is_handle(b)
        },
        // 3 to 10, and 13: b names a proposer or sender.
        BROADCAST_PROPOSAL..=SHARE_VERIFIES | CONTRIBUTION_READS => (a <= 1) & (b < n),
        OWN_DECRYPTION_SHARE => (a == 1) & is_handle(b),
        MESSAGE_PART => (0 < context) & (a == 0),
        FAULT_PART => (0 < context) & (a < n) & (b <= HANDLE_LIMIT),
        // A handle after 3 and 4, 0 or 1 after 5 to 7.
        OUTPUT_PART => (0 < context)
            & (a == 0)
            & (if context <= BROADCAST_MESSAGE {
                is_handle(b)
            } else {
                b <= 1
            }),
        _ => false,
    }
}

// The context for what follows a record: an answer of 3 to 7 with a = 1 opens one, its parts keep it, all else ends it. Kinds are numbers for the
// reason above.
#[tactic(auto, unfolding(steps::specs::Table::context_after))]
fn context_after(context: u64, kind: u64, a: u64) -> u64
    ensures { result ≡ context_after context kind a }
{
    match kind {
        BROADCAST_PROPOSAL..=PROPOSE_FALSE => if a == 1 { kind } else { 0 },
        MESSAGE_PART..=OUTPUT_PART => context,
        _ => 0,
    }
}

// The table's length, and the three zeros of record 0.
#[tactic(auto, unfolding(steps::specs::Table::shape_ok))]
pub fn shape_ok(table: &[u64]) -> bool
    ensures value { result ≡ shape_ok table.now }
    ensures long { result ≡ true → 4 ≤ length table.now }
{
    let len = table.len();
    if len < 4 {
        return false;
    }
    (len <= TABLE_LIMIT) & (len % 4 == 0) & (table[1] == 0) & (table[2] == 0) & (table[3] == 0)
}

// Whether record `own` may have this next: 0, or above its own index and inside the table.
#[tactic(auto, unfolding(steps::specs::Table::link_ok))]
pub fn link_ok(table: &[u64], own: usize, next: usize) -> bool
    ensures value { result ≡ link_ok table.now own next }
    ensures inside { result ≡ true → 1 ≤ next → (own < next) × (next < length table.now / 4) }
{
    (next == 0) | ((own < next) & (next < table.len() / 4))
}

// Whether record `i` may follow record `own`: it may be its next, and it keeps its kind's rule.
#[tactic(auto, unfolding(steps::specs::Table::may_follow))]
fn may_follow(n: u64, answers: &[u64], own: usize, i: usize, context: u64) -> bool
    requires { 1 ≤ i }
    ensures value { result ≡ may_follow n answers.now own i context }
    ensures inside { result ≡ true → (own < i) × (i < length answers.now / 4) }
{
    if !link_ok(answers, own, i) {
        return false;
    }
    record_ok(
        n,
        context,
        answers[i * 4 + 1],
        answers[i * 4 + 2],
        answers[i * 4 + 3],
    )
}

// Whether the words are an answer table for a network of n nodes. Records off the chain are not looked at. The loop follows links and counts
// nothing: an iterator of links would have to carry the context that decides whether there is a next, and its proof, for this one use.
#[tactic(auto, unfolding(steps::specs::Table::table_ok))]
pub fn table_ok(n: u64, answers: &[u64]) -> bool
    ensures { result ≡ table_ok n answers.now }
{
    if !shape_ok(answers) {
        return false;
    }
    let mut own: usize = 0;
    let mut next = answers[0] as usize;
    let mut context: u64 = 0;
    while next != 0 {
        if !may_follow(n, answers, own, next, context) {
            return false;
        }
        context = context_after(context, answers[next * 4 + 1], answers[next * 4 + 2]);
        own = next;
        next = answers[own * 4] as usize;
    }
    true
}
