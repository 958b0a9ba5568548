// What the bucket queue's calls write, once every test holds: a bucket's words and its bits.
#![tactic(auto)]

ghost use Rattle.std.specs.Prelude.{◌≡◌};
ghost use Rattle.bucket_model.specs.Calls.{found_low, found_room, taken_bits, taken_words, joined_bits, joined_words};
ghost use Rattle.bucket_step.specs.Tested.{Freeing};
ghost use Rattle.bucket_step.specs.Stores.{Joining, Swapping, Showing};

use bucket_bits::signal;
use bucket_model::{Bucket, Lay, Spot};
use bucket_node::links::{join_words, swap_words, take_words};
use strip::Element;

pub mod tests;

// Takes the head out of the lowest bucket, with its bits where that empties it.
pub fn take(bits: &mut [u64], words: &mut [u32], k: Lay, low: Bucket)
    requires { Freeing k bits.old words.old (found_low low) }
    ensures { (bits.new ≡ taken_bits k bits.old (found_low low)) × (words.new ≡ taken_words k words.old (found_low low)) }
{
    take_words(words, k, low);
    signal(
        bits,
        false,
        low.next == 0,
        k.bits,
        k.storeys,
        k.tower,
        low.rank,
    );
}

// Joins a newcomer to its bucket, with its bits where that was empty.
pub fn join(bits: &mut [u64], words: &mut [u32], k: Lay, e: Element, to: Spot)
    requires { Joining k bits.old words.old e.rank.0 to.tail }
    ensures { (bits.new ≡ joined_bits k bits.old e (found_room to)) × (words.new ≡ joined_words k words.old e (found_room to)) }
{
    join_words(words, k, e, to);
    show(bits, k, e, to);
}

// Takes the head out of the lowest bucket, with its bits where that empties it, and joins its node, with what the newcomer
// carries, to the newcomer's. It and what it calls are laid into the caller's code, as a replace of two storeys is 270
// instructions so, and 335 by calls.
#[inline(always)]
pub fn swap(bits: &mut [u64], words: &mut [u32], k: Lay, low: Bucket, e: Element, to: Spot)
    requires { Swapping k bits.old words.old (found_low low) e.rank.0 (found_room to) }
    ensures { (bits.new ≡ taken_bits k bits.old (found_low low)) × (words.new ≡ joined_words k (taken_words k words.old (found_low low)) e (found_room to)) }
{
    swap_words(words, k, low, e, to);
    signal(
        bits,
        false,
        low.next == 0,
        k.bits,
        k.storeys,
        k.tower,
        low.rank,
    );
}

// The newcomer's bits, where its bucket was empty.
#[inline(always)]
pub fn show(bits: &mut [u64], k: Lay, e: Element, to: Spot)
    requires { Showing k bits.old e.rank.0 to.tail }
    ensures { bits.new ≡ joined_bits k bits.old e (found_room to) }
{
    signal(
        bits,
        true,
        to.tail == 0,
        k.bits,
        k.storeys,
        k.tower,
        e.rank.0,
    );
}
