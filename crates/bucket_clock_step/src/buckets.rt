// The buckets: heads, tails, nodes and free link. What a stage's tests read and what it writes are those of one operation at a time, but for the held
// count, which changes in the request's own cycle.
ghost use Rattle.std.specs.Prelude.{Some, true, ◌≡◌, ◌<◌};
ghost use Rattle.bucket_clock_model.specs.Links.{bucket_leaves, bucket_ok, bucket_put, bucket_put_ok, bucket_stage, bucket_take, bucket_take_ok};
ghost use Rattle.bucket_clock_model.specs.Lists.{takes};
ghost use Rattle.bucket_model.specs.Layout.{head_at, tail_at, word};
ghost use Rattle.bucket_node.specs.Places.{Fits};
ghost use Rattle.bucket_clock_step.specs.Buckets.{Found, Joins, Leaves, Seen};

use bucket_clock_model::Waiting;
use bucket_model::{Bucket, Lay};
use bucket_node::links::link_at;
use bucket_node::{
    LENGTH, NEXT, NODE, TAG, element_of, free_link, head_of, next_of, tail_left, tail_of,
};
use strip::{Element, Request};

// ---- the tests

// What a pop reads of a rank's bucket.
fn bucket_at(words: &[u32], k: Lay, rank: u32) -> Bucket
    requires fits { Fits k words.now }
    requires rank_in { rank < k.ranks }
    ensures { Seen k words.now rank result }
{
    let head = head_of(words, k, rank);
    Bucket {
        rank,
        head,
        tail: tail_of(words, k, rank),
        next: next_of(words, k, head),
    }
}

// D5: the bucket of a pop that has come this way, where it passes the tests.
fn find_first(words: &[u32], k: Lay, way: u32) -> Option<Bucket>
    requires { Fits k words.now }
    ensures { Found k words.now way result }
{
    if k.ranks <= way {
        return None;
    }
    let n = k.nodes;
    let low = bucket_at(words, k, way);
    let behind = next_of(words, k, low.tail);
    let ends = (low.head != 0)
        & (low.tail != 0)
        & (low.head <= n)
        & (low.tail <= n)
        & (low.next <= n)
        & (behind == 0)
        & ((low.next == 0) == (low.head == low.tail));
    if !((free_link(words, k) <= n) & ends) {
        return None;
    }
    Some(low)
}

// D4: a push of this rank.
fn put_ok(words: &[u32], k: Lay, rank: u32) -> bool
    requires { Fits k words.now }
    ensures { result ≡ bucket_put_ok k rank words.now }
{
    if k.ranks <= rank {
        return false;
    }
    let n = k.nodes;
    let head = head_of(words, k, rank);
    let tail = tail_of(words, k, rank);
    let free = free_link(words, k);
    let next = next_of(words, k, free);
    let behind = next_of(words, k, tail);
    ((head == 0) == (tail == 0))
        & (head <= n)
        & (tail <= n)
        & (free <= n)
        & (free != 0)
        & (next <= n)
        & (behind == 0)
        & (free != tail)
}

// The head of a rank as after the pop of low, which is not done yet. Not `head_after` of `bucket_step`: the contracts name another store, `bucket_take`.
fn head_after(words: &[u32], k: Lay, low: Bucket, rank: u32) -> u32
    requires leaves { Leaves k words.now low }
    requires rank_in { rank < k.ranks }
    ensures { result ≡ word (bucket_take k low.rank words.now) (head_at k rank) }
{
    if rank == low.rank {
        return low.next;
    }
    head_of(words, k, rank)
}

// .. and its tail.
fn tail_after(words: &[u32], k: Lay, low: Bucket, rank: u32) -> u32
    requires leaves { Leaves k words.now low }
    requires rank_in { rank < k.ranks }
    ensures { result ≡ word (bucket_take k low.rank words.now) (tail_at k rank) }
{
    if rank == low.rank {
        return tail_left(low.next, low.tail);
    }
    tail_of(words, k, rank)
}

// D4 on the words as after the pop of low. The node to be taken is then the freed one, and its next the free link of today.
fn put_after_ok(words: &[u32], k: Lay, low: Bucket, rank: u32) -> bool
    requires { Leaves k words.now low }
    ensures { result ≡ bucket_put_ok k rank (bucket_take k low.rank words.now) }
{
    if k.ranks <= rank {
        return false;
    }
    let n = k.nodes;
    let head = head_after(words, k, low, rank);
    let tail = tail_after(words, k, low, rank);
    if tail == low.head {
        return false;
    }
    let behind = next_of(words, k, tail);
    ((head == 0) == (tail == 0)) & (head <= n) & (tail <= n) & (behind == 0)
}

// What waits for the buckets finds them in order.
pub fn bucket_ok(words: &[u32], k: Lay, g: Waiting) -> bool
    requires { Fits k words.now }
    ensures { result ≡ bucket_ok k g.does g.way words.now }
{
    match g.does {
        Request::Idle => true,
        Request::Push(x) => put_ok(words, k, x.rank.0),
        Request::Pop => find_first(words, k, g.way).is_some(),
        Request::Replace(y) => match find_first(words, k, g.way) {
            None => false,
            Some(low) => put_after_ok(words, k, low, y.rank.0),
        },
    }
}

// ---- the work

// The head of the rank leaves, and its node is first in the free chain. Not `take_words` of `bucket_node`: that counts held down too, and here
// held changes in the request's own cycle, as `bucket_take` and `taken_words` say.
fn take_out(words: &mut [u32], k: Lay, low: Bucket) -> Element
    requires { Leaves k words.old low }
    ensures { (words.new ≡ bucket_take k low.rank words.old) × (Some result ≡ bucket_leaves k true low.rank words.old) }
{
    let out = element_of(words, k, low.rank, low.head);
    let head_at = k.heads + low.rank as usize;
    let node = k.stem + NODE * (low.head as usize);
    let free = words[k.free];
    words[head_at] = low.next;
    words[head_at + k.ranks as usize] = tail_left(low.next, low.tail);
    words[node + TAG] = 0;
    words[node + LENGTH] = 0;
    words[node + NEXT] = free;
    words[k.free] = low.head;
    out
}

// The newcomer takes the node at the free link and is joined behind the tail of its rank. Not `join_words` of `bucket_node`, for the same reason.
fn put_in(words: &mut [u32], k: Lay, e: Element)
    requires { Joins k words.old e.rank.0 }
    ensures { words.new ≡ bucket_put k e words.old }
{
    let rank = e.rank.0;
    let free = words[k.free];
    let next = next_of(words, k, free);
    let tail = tail_of(words, k, rank);
    let link = link_at(k, rank, tail);
    let node = k.stem + NODE * (free as usize);
    let tail_at = k.heads + rank as usize + k.ranks as usize;
    words[k.free] = next;
    words[node + TAG] = e.tag.0;
    words[node + LENGTH] = e.length.0;
    words[node + NEXT] = 0;
    words[link] = free;
    words[tail_at] = free;
}

// The buckets work at what waits for them. Answers what leaves.
pub fn work_buckets(words: &mut [u32], k: Lay, g: Waiting) -> Option<Element>
    requires fits { Fits k words.old }
    requires passes { bucket_ok k g.does g.way words.old ≡ true }
    ensures { (words.new ≡ bucket_stage k g.does g.way words.old) × (result ≡ bucket_leaves k (takes g.does) g.way words.old) }
{
    match g.does {
        Request::Idle => None,
        Request::Push(x) => {
            put_in(words, k, x);
            None
        }
        Request::Pop => {
            let low = bucket_at(words, k, g.way);
            Some(take_out(words, k, low))
        }
        Request::Replace(y) => {
            let low = bucket_at(words, k, g.way);
            let out = take_out(words, k, low);
            put_in(words, k, y);
            Some(out)
        }
    }
}
