// The bucket queue's words of 32 bits: heads, tails, nodes, the free link and the held count, wherever they stand.
//
// A link is a node's number plus one, and 0 is "none". Each function takes the layout and touches no other word.
#![tactic(auto)]

ghost use Rattle.std.specs.Prelude.{◌≡◌, ◌+◌, ◌≤◌, ◌<◌, length};
ghost use Rattle.bucket_model.specs.Layout.{store_words, word, head_at, tail_at, load_in, loaded};
ghost use Rattle.bucket_model.specs.Layout as layout;
ghost use Rattle.bucket_model.specs.Checks.{next_of};
ghost use Rattle.bucket_model.specs.Calls.{fill, blank_word, tail_left, blank_cell};
ghost use Rattle.bucket_node.specs.Places.{Fits, NodeOf};

use bucket_model::Lay;
use strip::Element;

pub mod links;

// How many storeys of bits a queue has: two, or three.
pub const LEAST_STOREYS: usize = 2;

pub const MOST_STOREYS: usize = 3;

// How many words the bits have, and how many ranks they tell of: at two storeys, and at three.
const TOWER: usize = 1 + 64;

const RANKS: u32 = 64 * 64;

const TOWER_DEEP: usize = 1 + 64 * TOWER;

const RANKS_DEEP: u32 = 64 * RANKS;

// The words of a node, and which of them is its tag, which its length and which its next.
pub const NODE: usize = 3;

pub const TAG: usize = 0;

pub const LENGTH: usize = 1;

pub const NEXT: usize = 2;

// Where the words of a queue stand that has so many storeys, words of bits, ranks and nodes.
fn lay_of(storeys: usize, tower: usize, ranks: u32, n: u32) -> Lay
    requires { 2 ≤ ranks }
    ensures { result ≡ layout.lay_of storeys tower ranks n }
{
    let lists = 2 * (ranks as usize);
    let free = lists + NODE * (n as usize);
    Lay {
        storeys,
        tower,
        bits: 0,
        ranks,
        heads: 0,
        stem: lists - NODE,
        nodes: n,
        free,
        held: free + 1,
    }
}

// .. of a depth that there is: every number but n is then known where the depth is.
pub fn queue_of(storeys: usize, n: u32) -> Lay
    requires least { layout.least_storeys ≤ storeys }
    requires most { storeys ≤ layout.most_storeys }
    ensures { result ≡ layout.queue storeys n }
{
    if storeys == LEAST_STOREYS {
        return lay_of(LEAST_STOREYS, TOWER, RANKS, n);
    }
    lay_of(MOST_STOREYS, TOWER_DEEP, RANKS_DEEP, n)
}

// ---- reading

pub fn free_link(words: &[u32], k: Lay) -> u32
    requires { Fits k words.now }
    ensures { result ≡ word words.now k.free }
{
    words[k.free]
}

pub fn held_count(words: &[u32], k: Lay) -> u32
    requires { Fits k words.now }
    ensures { result ≡ word words.now k.held }
{
    words[k.held]
}

pub fn head_of(words: &[u32], k: Lay, rank: u32) -> u32
    requires { (Fits k words.now) × (rank < k.ranks) }
    ensures { result ≡ word words.now (head_at k rank) }
{
    words[k.heads + rank as usize]
}

pub fn tail_of(words: &[u32], k: Lay, rank: u32) -> u32
    requires { (Fits k words.now) × (rank < k.ranks) }
    ensures { result ≡ word words.now (tail_at k rank) }
{
    words[k.heads + rank as usize + k.ranks as usize]
}

// The next of the node that link names; 0 where it names none of the nodes, so that garbage can be read before it is tested.
#[tactic(auto, unfolding(bucket_model::specs::Checks::next_of))]
pub fn next_of(words: &[u32], k: Lay, link: u32) -> u32
    requires { Fits k words.now }
    ensures { result ≡ next_of k words.now link }
{
    if link == 0 {
        return 0;
    }
    if k.nodes < link {
        return 0;
    }
    words[k.stem + NODE * (link as usize) + NEXT]
}

// The element of this rank whose load is in the node that link names.
pub fn element_of(words: &[u32], k: Lay, rank: u32, link: u32) -> Element
    requires { NodeOf k words.now link }
    ensures { result ≡ loaded rank (load_in k.stem words.now link) }
{
    let node = k.stem + NODE * (link as usize);
    strip::element_of(rank, words[node + TAG], words[node + LENGTH])
}

// The tail of a bucket whose head is taken away.
#[tactic(auto, unfolding(bucket_model::specs::Calls::tail_left))]
pub fn tail_left(next: u32, tail: u32) -> u32
    ensures { result ≡ tail_left next tail }
{
    if next == 0 {
        return 0;
    }
    tail
}

// ---- clear

// The next of the node that link names, of n: the node after it, and of the last none.
fn blank_next(n: u32, link: u32) -> u32
    requires pool_in { n ≤ layout.pool }
    requires link_in { link ≤ n }
    ensures { result ≡ blank_cell n link layout.load_words }
{
    if link == n {
        return 0;
    }
    link + 1
}

// The heads and tails, the chain of free nodes, and the free link, which names its first.
pub fn wipe_lists(words: &mut [u32], k: Lay)
    requires laid { layout.Laid k }
    requires free_in { k.free < length words.old }
    requires pool_in { k.nodes ≤ layout.pool }
    ensures { words.new ≡ fill (blank_word k) (k.free + 1) words.old }
{
    let mut node = k.stem + NODE;
    words[..node].fill(0);
    for link in 1..k.nodes + 1 {
        words[node + TAG] = 0;
        words[node + LENGTH] = 0;
        words[node + NEXT] = blank_next(k.nodes, link);
        node += NODE;
    }
    words[node] = 1;
}

// .. and what is behind them, all 0.
pub fn wipe_words(words: &mut [u32], k: Lay)
    requires fits { Fits k words.old }
    requires pool_in { k.nodes ≤ layout.pool }
    ensures { words.new ≡ fill (blank_word k) (store_words k) words.old }
{
    wipe_lists(words, k);
    words[k.free + 1..=k.held].fill(0);
}
