// What the bucket queue's calls read and test, before anything is written.
ghost use Rattle.std.specs.Prelude.{◌≡◌, false, cond, not, ◌&&◌, ◌≤◌, ◌<◌, ◌^◌, leb, ltb, eqb};
ghost use Rattle.std.specs.Bool.{beq};
ghost use Rattle.strip.specs.Answers.{untagged};
ghost use Rattle.strip.specs.declared.Refusal.TheVariants.{Damaged, BadRank, NoTag};
ghost use Rattle.bucket_model.specs.Layout.{bit_words, word, head_at, tail_at};
ghost use Rattle.bucket_model.specs.Checks.{depth_ok, whole_ok, next_of};
ghost use Rattle.bucket_model.specs.Calls.{found_low, is_shaped, is_whole, taken_words, taken_bits};
ghost use Rattle.bucket_model.specs.Storeys.{storeys_at, rank_agrees};
ghost use Rattle.bucket_bits.specs.Climbs.{Tall, Switchable};
ghost use Rattle.bucket_node.specs.Places.{Fits, Takable};
ghost use Rattle.bucket_step.specs.Tested.{Stands, Roomy, FoundLow, FoundLinks, ends_ok, node_ok, links_ok, links_in, join_ok};

use bucket_bits::{agreement, lowest_rank};
use bucket_model::{Bucket, Lay, Spot};
use bucket_node::{
    LEAST_STOREYS, MOST_STOREYS, free_link, head_of, held_count, next_of, tail_left, tail_of,
};
use strip::{Element, Refusal, is_untagged};

// The most nodes that a pool may have.
pub const POOL: u32 = 65536;

// ---- the whole queue

// Whether there are queues so deep: two storeys, or three.
pub fn is_deep(storeys: usize) -> bool
    ensures { result ≡ depth_ok storeys }
{
    (LEAST_STOREYS <= storeys) & (storeys <= MOST_STOREYS)
}

// Whether the slices are long enough for the layout, and it has a depth and a number of nodes that there may be.
pub fn is_shaped(bits: &[u64], words: &[u32], k: Lay) -> bool
    requires { bit_words k ≤ 4294967296 }
    ensures { result ≡ is_shaped k bits.now words.now }
{
    is_deep(k.storeys)
        & (1 <= k.nodes)
        & (k.nodes <= POOL)
        & (k.bits + k.tower <= bits.len())
        & (k.held < words.len())
}

// What every call but clear tests.
fn whole(top: u64, free: u32, held: u32, n: u32) -> bool
    ensures { result ≡ whole_ok top free held n }
{
    (free <= n) & (held <= n) & ((free == 0) == (held == n)) & ((top == 0) == (held == 0))
}

// It, `has_some` and `has_room` differ in the test alone: a function that takes the test as a closure is no shorter than what they share.
pub fn is_whole(bits: &[u64], words: &[u32], k: Lay) -> bool
    requires { Stands k bits.now words.now }
    ensures { result ≡ is_whole k bits.now words.now }
{
    whole(
        bits[k.bits],
        free_link(words, k),
        held_count(words, k),
        k.nodes,
    )
}

// Whole, and something is held: then the top word is not 0.
fn some_held(top: u64, free: u32, held: u32, n: u32) -> bool
    ensures { result ≡ (whole_ok top free held n && not (eqb held 0)) }
{
    (held != 0) & (held <= n) & (top != 0) & (free <= n) & ((free == 0) == (held == n))
}

pub fn has_some(bits: &[u64], words: &[u32], k: Lay) -> bool
    requires { Stands k bits.now words.now }
    ensures { result ≡ (is_whole k bits.now words.now && not (eqb (word words.now k.held) 0)) }
{
    some_held(
        bits[k.bits],
        free_link(words, k),
        held_count(words, k),
        k.nodes,
    )
}

// Whole, and a node is free: then the free link is not 0.
fn room_left(top: u64, free: u32, held: u32, n: u32) -> bool
    ensures { result ≡ (whole_ok top free held n && not (eqb held n)) }
{
    (held < n) & (free != 0) & (free <= n) & ((top == 0) == (held == 0))
}

pub fn has_room(bits: &[u64], words: &[u32], k: Lay) -> bool
    requires { Stands k bits.now words.now }
    ensures { result ≡ (is_whole k bits.now words.now && not (eqb (word words.now k.held) k.nodes)) }
{
    room_left(
        bits[k.bits],
        free_link(words, k),
        held_count(words, k),
        k.nodes,
    )
}

// Why nothing can be given, or nothing taken in: the limit is met where the queue is whole.
pub fn limit_or_damage(bits: &[u64], words: &[u32], k: Lay, limit: Refusal) -> Refusal
    requires { Stands k bits.now words.now }
    ensures { result ≡ cond (is_whole k bits.now words.now) limit Damaged }
{
    if is_whole(bits, words, k) {
        return limit;
    }
    Refusal::Damaged
}

// ---- a newcomer

// Whether it has a rank that there is, and a tag.
pub fn may_come(k: Lay, e: Element) -> bool
    ensures { result ≡ (ltb e.rank.0 k.ranks && not (untagged e)) }
{
    (e.rank.0 < k.ranks) & !is_untagged(e)
}

// Why it may not: its rank, and otherwise its tag. It is asked only then, so that a call has one way out for both.
pub fn rank_or_tag(k: Lay, e: Element) -> Refusal
    ensures { result ≡ cond (ltb e.rank.0 k.ranks) NoTag BadRank }
{
    if e.rank.0 < k.ranks {
        return Refusal::NoTag;
    }
    Refusal::BadRank
}

// ---- the bucket that a pop takes from

// Whether a link names one of n nodes.
fn names_node(n: u32, link: u32) -> bool
    ensures { result ≡ (not (eqb link 0) && leb link n) }
{
    (link != 0) & (link <= n)
}

// What a pop tests of the ends of its bucket's chain; next is the head's.
fn ends_fit(words: &[u32], k: Lay, head: u32, tail: u32, next: u32) -> bool
    requires { Fits k words.now }
    ensures { result ≡ ends_ok k.nodes head tail next (next_of k words.now tail) }
{
    next <= k.nodes && next_of(words, k, tail) == 0 && (next == 0) == (head == tail)
}

// The lowest bucket, where it passes the tests.
pub fn find_lowest(bits: &[u64], words: &[u32], k: Lay) -> Option<Bucket>
    requires { Stands k bits.now words.now }
    ensures { FoundLow k bits.now words.now result }
{
    let rank = lowest_rank(bits, k.bits, k.storeys, k.tower)?;
    let head = head_of(words, k, rank);
    let tail = tail_of(words, k, rank);
    if !(names_node(k.nodes, head) & names_node(k.nodes, tail)) {
        return None;
    }
    let next = next_of(words, k, head);
    if !ends_fit(words, k, head, tail, next) {
        return None;
    }
    Some(Bucket {
        rank,
        head,
        tail,
        next,
    })
}

// ---- the bucket that a push joins

// What a push tests of the node that it takes; next is that node's.
fn node_fits(n: u32, used: u32, next: u32) -> bool
    requires { used < n }
    ensures { result ≡ node_ok n used next }
{
    (next <= n) & ((next == 0) == (used + 1 == n))
}

// What a push tests of its bucket's links, where the node at link free is to join it.
fn links_fit(words: &[u32], k: Lay, head: u32, tail: u32, free: u32) -> bool
    requires fits { Fits k words.now }
    requires free_some { 1 ≤ free }
    ensures { result ≡ links_ok k.nodes head tail (next_of k words.now tail) free }
{
    if tail == 0 {
        return head == 0;
    }
    names_node(k.nodes, head)
        && names_node(k.nodes, tail)
        && tail != free
        && next_of(words, k, tail) == 0
}

// Its links, where so many nodes of the pool are in use and they pass the tests.
pub fn find_room(words: &[u32], k: Lay, used: u32, rank: u32) -> Option<Spot>
    requires fits { Fits k words.now }
    requires rank_in { rank < k.ranks }
    requires roomy { Roomy k used words.now }
    ensures { FoundLinks k words.now rank (join_ok k used words.now rank) result }
{
    let free = free_link(words, k);
    let next = next_of(words, k, free);
    if !node_fits(k.nodes, used, next) {
        return None;
    }
    let head = head_of(words, k, rank);
    let tail = tail_of(words, k, rank);
    if !links_fit(words, k, head, tail, free) {
        return None;
    }
    Some(Spot { tail, next })
}

// Its bits: whether they agree with what is below them, a bucket that is empty or not and then the words.
pub fn agrees(bits: &[u64], k: Lay, rank: u32, empty: bool) -> bool
    requires tall { Tall bits.now k.bits k.storeys k.tower }
    requires rank_in { rank < 64 ^ k.storeys }
    ensures { result ≡ rank_agrees k bits.now rank empty }
{
    agreement(bits, k.bits, k.storeys, k.tower, false, rank, empty, rank).is_some()
}

// ---- a replace: what will stand after the pop of low, which is not done yet

fn head_after(words: &[u32], k: Lay, low: Bucket, rank: u32) -> u32
    requires takable { Takable k words.now (found_low low) }
    requires rank_in { rank < k.ranks }
    ensures { result ≡ word (taken_words k words.now (found_low low)) (head_at k rank) }
{
    if rank == low.rank {
        return low.next;
    }
    head_of(words, k, rank)
}

fn tail_after(words: &[u32], k: Lay, low: Bucket, rank: u32) -> u32
    requires takable { Takable k words.now (found_low low) }
    requires rank_in { rank < k.ranks }
    ensures { result ≡ word (taken_words k words.now (found_low low)) (tail_at k rank) }
{
    if rank == low.rank {
        return tail_left(low.next, low.tail);
    }
    tail_of(words, k, rank)
}

// The links of rank's bucket. The node to be taken is then the freed one, and its next the free link of today; so none of the
// node's tests is new.
pub fn room_after(words: &[u32], k: Lay, low: Bucket, rank: u32) -> Option<Spot>
    requires takable { Takable k words.now (found_low low) }
    requires rank_in { rank < k.ranks }
    ensures { FoundLinks k (taken_words k words.now (found_low low)) rank (links_in k (taken_words k words.now (found_low low)) rank) result }
{
    let head = head_after(words, k, low, rank);
    let tail = tail_after(words, k, low, rank);
    if !links_fit(words, k, head, tail, low.head) {
        return None;
    }
    Some(Spot {
        tail,
        next: free_link(words, k),
    })
}

// Its bits, and of the tests of the whole queue the only one that is new, the top word's; so many are held before the pop.
pub fn agrees_after(bits: &[u64], k: Lay, low: Bucket, rank: u32, empty: bool, held: u32) -> bool
    requires tall { Tall bits.now k.bits k.storeys k.tower }
    requires low_in { low.rank < 64 ^ k.storeys }
    requires rank_in { rank < 64 ^ k.storeys }
    requires switchable { Switchable false bits.now (storeys_at k) low.rank }
    ensures { result ≡ (rank_agrees k (taken_bits k bits.now (found_low low)) rank empty && beq (eqb (word (taken_bits k bits.now (found_low low)) k.bits) 0) (eqb held 1)) }
{
    let up = agreement(
        bits,
        k.bits,
        k.storeys,
        k.tower,
        low.next == 0,
        low.rank,
        empty,
        rank,
    );
    match up {
        None => false,
        Some(top) => (top == 0) == (held == 1),
    }
}
