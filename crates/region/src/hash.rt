//! The hash of a row: a product of two words for each word.
//!
//! The words go to two states by turns, so that a processor works on two products at once. A
//! product of 128 bits is folded to its halves' sum without carries, so each bit of a hash depends
//! on each word. Its keys are constants, so whoever writes a file can compute it. It is not made
//! to withstand one who looks for rows whose hashes share many bits, though no way is known to
//! make them other than by trying.

ghost use Rattle.std.specs.Prelude.{◌≡◌};
ghost use Rattle.region.specs.Hashes.{folded, added, hash_of};

/// The state of the hash: what the next word is added to, and what the one after it is.
#[derive(Clone, Copy)]
struct State {
    next: u64,
    other: u64,
}

/// The state before any word.
const START: State = State {
    next: 0x243f_6a88_85a3_08d3,
    other: 0x1319_8a2e_0370_7344,
};

/// What a word is multiplied with.
const OF_WORD: u64 = 0xa409_3822_299f_31d1;

/// What the number of the words is multiplied with.
const OF_COUNT: u64 = 0x082e_fa98_ec4e_6c89;

/// What both states are multiplied with in the end.
const OF_STATES: u64 = 0x4528_21e6_38d0_1377;

/// The two halves of a product, added without carries.
#[tactic(auto, unfolding(crate::specs::Hashes::folded))]
fn folded(left: u64, right: u64) -> u64
    ensures { result ≡ folded left right }
{
    let (low, high) = left.carrying_mul(right, 0);
    high ^ low
}

/// The state after one more word.
#[tactic(auto, unfolding(crate::specs::Hashes::added))]
fn added(state: State, word: u64) -> State
    ensures { result ≡ added state word }
{
    State {
        next: state.other,
        other: folded(state.next ^ word, OF_WORD),
    }
}

/// The hash of a row: its words, then their number, and then both states.
#[tactic(auto, unfolding(crate::specs::Hashes::hash_of))]
pub fn hash(row: &[u64]) -> u64
    ensures { result ≡ hash_of row.now }
{
    let state = row.iter().fold(START, |state, word| added(state, *word));
    let counted = folded(state.next ^ row.len() as u64, OF_COUNT);
    folded(counted ^ state.other, OF_STATES)
}
