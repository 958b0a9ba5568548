// How many words a store needs: the least length that the calls take, and 0 for a bad shape.
ghost use Rattle.std.specs.Prelude.{◌≡◌};
ghost use Rattle.card_words.specs.Sizes.{tree_words, cluster_words, bucket_bits, bucket_words};

use bucket_node::queue_of;
use bucket_step::tests::{POOL, is_deep};
use tree_node::slot::SLOT_WORDS;
use tree_node::{SLOT_LIMIT, capacity, shape_ok};

pub fn tree_words(order: u32, levels: u32) -> u32
    ensures { result ≡ tree_words order levels }
{
    let m = order as usize;
    let l = levels as usize;
    if !shape_ok(m, l, SLOT_WORDS * SLOT_LIMIT) {
        return 0;
    }
    (SLOT_WORDS * capacity(m, l)) as u32
}

// 27,300 words are enough for any cluster heap: 5,460 places, and two counts for each of at most 2,730 nodes.
pub fn cluster_words(places: u32, levels: u32) -> u32
    ensures { result ≡ cluster_words places levels }
{
    let k = places as usize;
    let l = levels as usize;
    if !cluster::shape_ok(k, l, 27300) {
        return 0;
    }
    let n = cluster::nodes(l);
    (n * (2 + k * 4)) as u32
}

// A bucket queue's words of 64 bits.
pub fn bucket_bit_words(storeys: u32) -> u32
    ensures { result ≡ bucket_bits storeys }
{
    let d = storeys as usize;
    if !is_deep(d) {
        return 0;
    }
    let k = queue_of(d, 0);
    k.tower as u32
}

// .. and its words of 32 bits.
pub fn bucket_words(storeys: u32, nodes: u32) -> u32
    ensures { result ≡ bucket_words storeys nodes }
{
    let d = storeys as usize;
    if !is_deep(d) {
        return 0;
    }
    if nodes < 1 {
        return 0;
    }
    if POOL < nodes {
        return 0;
    }
    let k = queue_of(d, nodes);
    let last = k.held;
    (last + 1) as u32
}
