// Codes and ranks. docs/MEANING.md says what an arrangement and its codes are.
ghost use Rattle.std.specs.Prelude.{◌≡◌, ℕ, ◌<◌, ◌≤◌, map, length, take, slice_index};
ghost use Rattle.engine.specs.Arrangements.{EveryChoiceIsFollowed, blocks, opens_block, rank_after, ranks};
ghost use Rattle.engine.specs.Limits.{max_seats};

use crate::limits::MAX_SEATS;
use arrayvec::ArrayVec;

// An even code opens a block, and an odd one joins a block. A code stays a number, since it is refused by its size and
// compared and printed as one.
fn opens_block(code: u8) -> bool
    ensures { result ≡ opens_block code }
{
    code % 2 == 0
}

// How many blocks the codes open.
#[tactic(auto, using(crate::proofs::Codes::blocks_counted))]
pub(crate) fn count_blocks(codes: &[u8]) -> usize
    ensures value { result ≡ blocks codes.now }
    ensures bound { result ≤ length codes.now }
{
    codes.iter().filter(|code| opens_block(**code)).count()
}

// Opens a block at `block`: the seats of the blocks from there on move up by one.
fn open_block(ranks: &mut [u8], block: u8)
    requires { (k : ℕ) → k < length ranks.old → slice_index ranks.old k < 255 }
    ensures { ranks.new ≡ map (rank_after block) ranks.old }
{
    for rank in ranks.iter_mut() {
        if *rank >= block {
            *rank += 1;
        }
    }
}

// The rank of each seat that has a code. Codes past the eighth are not looked at.
pub(crate) fn rank_seats(codes: &[u8]) -> ArrayVec<u8, MAX_SEATS>
    ensures { result.items ≡ ranks (take max_seats codes.now) }
{
    let mut ranks = ArrayVec::new();
    for code in &codes[..codes.len().min(MAX_SEATS)] {
        let block = code / 2;
        if opens_block(*code) {
            open_block(ranks.as_mut_slice(), block);
        }
        ranks.push(block);
    }
    ranks
}

// Every choice of numbers for the seats follows exactly one arrangement, and codes that agree with the numbers begin it.
pub fn every_choice_is_followed()
    ensures { EveryChoiceIsFollowed }
{}
