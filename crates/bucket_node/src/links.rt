// The bucket queue's words of 32 bits, written: a node taken out of its bucket, one joined, and both at once. Each function takes the layout and
// touches no other word.
ghost use Rattle.std.specs.Prelude.{◌≡◌, ◌<◌};
ghost use Rattle.bucket_model.specs.Calls.{found_low, found_room, taken_words, link_at, joined_words};
ghost use Rattle.bucket_node.specs.Places.{Takable, Linkable, Joinable, Swappable};

use crate::{LENGTH, NEXT, NODE, TAG, tail_left};
use bucket_model::{Bucket, Lay, Spot};
use strip::Element;

// ---- a pop

// Takes the head out of its bucket, and puts the freed node first in the free chain.
pub fn take_words(words: &mut [u32], k: Lay, low: Bucket)
    requires { Takable k words.old (found_low low) }
    ensures { words.new ≡ taken_words k words.old (found_low low) }
{
    let head_at = k.heads + low.rank as usize;
    let node = k.stem + NODE * (low.head as usize);
    let free = words[k.free];
    let held = words[k.held];
    words[head_at] = low.next;
    words[head_at + k.ranks as usize] = tail_left(low.next, low.tail);
    words[node + TAG] = 0;
    words[node + LENGTH] = 0;
    words[node + NEXT] = free;
    words[k.free] = low.head;
    words[k.held] = held - 1;
}

// ---- a push

// Where the link to a newcomer stands: the head of an empty bucket, or the next of its tail.
#[tactic(auto, unfolding(bucket_model::specs::Calls::link_at))]
pub fn link_at(k: Lay, rank: u32, tail: u32) -> usize
    requires { Linkable k rank tail }
    ensures is { result ≡ link_at k rank tail }
    ensures within { result < k.free }
{
    if tail == 0 {
        return k.heads + rank as usize;
    }
    k.stem + NODE * (tail as usize) + NEXT
}

// Takes the node at the free link, and joins it behind the tail.
pub fn join_words(words: &mut [u32], k: Lay, e: Element, to: Spot)
    requires { Joinable k words.old e.rank.0 to.tail }
    ensures { words.new ≡ joined_words k words.old e (found_room to) }
{
    let free = words[k.free];
    let held = words[k.held];
    let node = k.stem + NODE * (free as usize);
    let link = link_at(k, e.rank.0, to.tail);
    let tail_at = k.heads + e.rank.0 as usize + k.ranks as usize;
    words[k.free] = to.next;
    words[node + TAG] = e.tag.0;
    words[node + LENGTH] = e.length.0;
    words[node + NEXT] = 0;
    words[link] = free;
    words[tail_at] = free;
    words[k.held] = held + 1;
}

// ---- a replace

// Takes the head out of its bucket, and joins it, with what e carries, to that of e. The free chain and the held count end as
// they were, so they are not touched. Inline: see `bucket_step::swap`.
#[inline(always)]
pub fn swap_words(words: &mut [u32], k: Lay, low: Bucket, e: Element, to: Spot)
    requires { Swappable k words.old (found_low low) e.rank.0 (found_room to) }
    ensures { words.new ≡ joined_words k (taken_words k words.old (found_low low)) e (found_room to) }
{
    let head_at = k.heads + low.rank as usize;
    let node = k.stem + NODE * (low.head as usize);
    let link = link_at(k, e.rank.0, to.tail);
    let tail_at = k.heads + e.rank.0 as usize + k.ranks as usize;
    words[head_at] = low.next;
    words[head_at + k.ranks as usize] = tail_left(low.next, low.tail);
    words[node + TAG] = e.tag.0;
    words[node + LENGTH] = e.length.0;
    words[node + NEXT] = 0;
    words[link] = low.head;
    words[tail_at] = low.head;
}
