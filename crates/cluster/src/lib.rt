// The cluster heap, one operation at a time, over lent words. Node m begins at word m * (2 + 4k): left, right, then k places of rank, tag, length, flag.
// Its children are nodes 2m + 1 and 2m + 2. Every node of a path is tested on the way down and written on the way back.
#![tactic(auto)]

ghost use Rattle.std.specs.Prelude.{◌≡◌, ◌++◌, ◌+◌, ◌*◌, ◌<◌, ◌≤◌, length, drop, replicate};
ghost use Rattle.cluster_model.specs.Words.{width};
ghost use Rattle.cluster_model.specs.Heap.{room};
ghost use Rattle.cluster_model.specs.Calls.{place_limit, shape_ok, outcome, called, cleared, held_count};
ghost use Rattle.cluster_node.specs.Seeing.{low_only};
ghost use Rattle.cluster_node.specs.Leaf.{elem_at, ok_by, look_node, place_in, Here, Lies};
ghost use Rattle.cluster.specs.Down.{went, put_end, TakeReady, PutReady, TakeMeets, SwapMeets, PutMeets};
ghost use Rattle.cluster.specs.Coded.{nodes_of, few_nodes, held_by, push_down, replace_down, Bars};

use cluster_node::{
    COUNTS, FOUR_LEFT, FOUR_RIGHT, PLACE_WORDS, RIGHT, Seen, bare_at, choice, choice_full, choose,
    clear_place, elem_at, high_lead, look, look_each, low_four, node_ok, raise, room_under,
    set_place, sink,
};
use strip::{Answer, Element, Refusal, Request, goes_down, is_untagged, lower, stays};

// ---- the three operations

// The node at word at has been tested, and gives from this place; so many levels are left below it, and each of its children has room for
// limit. A node's children begin at twice its own word and one or two widths of a node on, so that no word is found by a multiplication.
fn take(s: &mut [u32], k: usize, left: usize, at: usize, limit: usize, place: usize) -> bool
    requires { TakeReady k left at place s.old }
    ensures { TakeMeets k left at limit place s.old result s.new }
{
    let i = at + COUNTS + place * PLACE_WORDS;
    if left == 0 {
        clear_place(s, i);
        return true;
    }
    if bare_at(s, at) {
        clear_place(s, i);
        return true;
    }
    let below = room_under(k, limit);
    // at four places the children are scanned here and not behind a call, most are full and nothing else is asked; where that gives no choice,
    // place by place
    let four = if k == 4 {
        let p = low_four(s, at + at + FOUR_LEFT);
        let q = low_four(s, at + at + FOUR_RIGHT);
        choice_full(s, below, at, p, q)
    } else {
        None
    };
    let c = match four {
        Some(c) => c,
        None => choice(s, k, below, at),
    };
    if !c.ok {
        return false;
    }
    let l = s[at];
    let r = s[at + RIGHT];
    let done = take(s, k, left - 1, c.child, below, c.place);
    if !done {
        return false;
    }
    sink(s, at, c.right, l, r);
    set_place(s, i, c.up);
    true
}

// .. and x is swapped in.
fn swap(
    s: &mut [u32],
    k: usize,
    left: usize,
    at: usize,
    limit: usize,
    place: usize,
    x: Element,
) -> bool
    requires { TakeReady k left at place s.old }
    ensures { SwapMeets k left at limit place x s.old result s.new }
{
    let i = at + COUNTS + place * PLACE_WORDS;
    if left == 0 {
        set_place(s, i, x);
        return true;
    }
    if bare_at(s, at) {
        set_place(s, i, x);
        return true;
    }
    let below = room_under(k, limit);
    // here too, and not in a function with those of take
    let four = if k == 4 {
        let p = low_four(s, at + at + FOUR_LEFT);
        let q = low_four(s, at + at + FOUR_RIGHT);
        choice_full(s, below, at, p, q)
    } else {
        None
    };
    let c = match four {
        Some(c) => c,
        None => choice(s, k, below, at),
    };
    if !c.ok {
        return false;
    }
    if !lower(c.up, x) {
        set_place(s, i, x);
        return true;
    }
    let done = swap(s, k, left - 1, c.child, below, c.place, x);
    if !done {
        return false;
    }
    set_place(s, i, c.up);
    true
}

// The node at word at is not full: if it is in order, x goes to its first empty place.
fn put_end(s: &mut [u32], k: usize, limit: usize, at: usize, x: Element) -> bool
    requires { Lies k at (length s.old) }
    ensures { went result s.new ≡ put_end k limit at x s.old }
{
    let v = look_each(s, at + COUNTS, k);
    if !node_ok(s, k, limit, at, v) {
        return false;
    }
    if v.free < k {
        set_place(s, at + COUNTS + v.free * PLACE_WORDS, x);
        return true;
    }
    false
}

// x is put into the node at word at, which has not been tested. A full one's highest by rank exchanges with x or not, and one of them goes on.
fn put(s: &mut [u32], k: usize, left: usize, at: usize, limit: usize, x: Element) -> bool
    requires { PutReady k left at limit s.old }
    ensures { PutMeets k left at limit x s.old result s.new }
{
    // on the last level x stays or is refused, and the highest is not asked for
    if left == 0 {
        return put_end(s, k, limit, at, x);
    }
    let f = high_lead(s, at + COUNTS, k);
    if !f.full {
        return put_end(s, k, limit, at, x);
    }
    let l = s[at];
    let r = s[at + RIGHT];
    let right = r < l;
    // x goes on to the side that holds fewer; that side tells whether there is room, and the other whether both counts are within it
    let fewer = choose(right, r, l);
    let more = choose(right, l, r);
    if limit < more as usize {
        return false;
    }
    if limit <= fewer as usize {
        return false;
    }
    let width = COUNTS + k * PLACE_WORDS;
    let lc = at + at + width;
    let d = choose(right, lc + width, lc);
    let i = at + COUNTS + f.place * PLACE_WORDS;
    let e = elem_at(s, i);
    let kept = stays(x, e);
    let goes = goes_down(x, e);
    let below = room_under(k, limit);
    let done = put(s, k, left - 1, d, below, goes);
    if !done {
        return false;
    }
    raise(s, at, right, l, r);
    set_place(s, i, kept);
    true
}

// ---- the calls

// The largest capacity of a heap.
pub const PLACE_LIMIT: usize = 5460;

// 2^levels − 1, of more than 12 levels 2^13 − 1, which is above the limit (a number and no Option: `few_nodes` promises it). Every call asks for it, so it is a shift and no loop.
pub fn nodes(levels: usize) -> usize
    ensures { result ≡ few_nodes levels }
{
    if 12 < levels {
        return 8191;
    }
    (1 << levels) - 1
}

pub fn shape_ok(k: usize, levels: usize, len: usize) -> bool
    ensures { result ≡ shape_ok k levels len }
{
    if k < 2 || 16 < k || levels < 1 {
        return false;
    }
    let n = nodes(levels);
    if PLACE_LIMIT < n {
        return false;
    }
    (k * n <= PLACE_LIMIT) & (n * (COUNTS + k * PLACE_WORDS) <= len)
}

// How many elements so many levels hold.
fn capacity(k: usize, levels: usize) -> usize
    requires { (k ≤ 16) × (nodes_of levels ≤ place_limit) }
    ensures { result ≡ room k levels }
{
    k * nodes(levels)
}

// The root is node 0: its counts are words 0 and 1, its places begin at word 2. Its scan, its tests, what is held and an element of it.
fn root_look(s: &[u32], k: usize) -> Seen
    requires { Here k 0 (length s.now) }
    ensures { result ≡ low_only (look_node k s.now 0) }
{
    look(s, COUNTS, k)
}

fn root_ok(s: &[u32], k: usize, limit: usize, v: Seen) -> bool
    requires { Here k 0 (length s.now) }
    ensures { result ≡ ok_by k limit s.now (0 * width k) v }
{
    node_ok(s, k, limit, 0, v)
}

fn root_held(s: &[u32], k: usize, v: Seen) -> usize
    requires { (Here k 0 (length s.now)) × (v.count ≤ 16) }
    ensures { result ≡ held_by k s.now v }
{
    v.count + (s[0] as usize + s[RIGHT] as usize)
}

fn root_elem(s: &[u32], k: usize, place: usize) -> Element
    requires { (Here k 0 (length s.now)) × (place < k) }
    ensures { result ≡ elem_at s.now (place_in k 0 place) }
{
    elem_at(s, COUNTS + place * PLACE_WORDS)
}

// How many are held, by the root alone.
pub fn held(store: &[u32], places: usize, levels: usize) -> Result<u32, Refusal>
    ensures { result ≡ held_count places levels store.now }
{
    if !shape_ok(places, levels, store.len()) {
        return Err(Refusal::BadShape);
    }
    let limit = capacity(places, levels - 1);
    let v = root_look(store, places);
    if !root_ok(store, places, limit, v) {
        return Err(Refusal::Damaged);
    }
    Ok(root_held(store, places, v) as u32)
}

// A push or replace without a tag: the shape and the root are tested all the same, since damage comes first, and nothing below the root is read.
fn bar(store: &[u32], places: usize, levels: usize) -> Answer
    ensures { Bars places levels store.now result }
{
    held(store, places, levels)?;
    Err(Refusal::NoTag)
}

// x has a tag. The put comes first: where it is done there was room, and the root was read once.
fn push_tagged(store: &mut [u32], k: usize, levels: usize, x: Element) -> Answer
    ensures { outcome result store.new ≡ push_down k levels x store.old }
{
    if !shape_ok(k, levels, store.len()) {
        return Err(Refusal::BadShape);
    }
    let limit = capacity(k, levels - 1);
    if put(store, k, levels - 1, 0, limit, x) {
        return Ok(None);
    }
    // nothing is written: the root, and how many it holds, say why
    let n = held(store, k, levels)?;
    if n as usize == capacity(k, levels) {
        return Err(Refusal::Full);
    }
    Err(Refusal::Damaged)
}

pub fn push(store: &mut [u32], places: usize, levels: usize, x: Element) -> Answer
    ensures { outcome result store.new ≡ called places levels (Request.Push x) store.old }
{
    if is_untagged(x) {
        return bar(store, places, levels);
    }
    push_tagged(store, places, levels, x)
}

pub fn pop(store: &mut [u32], places: usize, levels: usize) -> Answer
    ensures { outcome result store.new ≡ called places levels Request.Pop store.old }
{
    if !shape_ok(places, levels, store.len()) {
        return Err(Refusal::BadShape);
    }
    let limit = capacity(places, levels - 1);
    let v = root_look(store, places);
    if !root_ok(store, places, limit, v) {
        return Err(Refusal::Damaged);
    }
    if root_held(store, places, v) == 0 {
        return Err(Refusal::Empty);
    }
    let low = root_elem(store, places, v.low);
    if !take(store, places, levels - 1, 0, limit, v.low) {
        return Err(Refusal::Damaged);
    }
    Ok(Some(low))
}

// x has a tag.
fn replace_tagged(store: &mut [u32], k: usize, levels: usize, x: Element) -> Answer
    ensures { outcome result store.new ≡ replace_down k levels x store.old }
{
    if !shape_ok(k, levels, store.len()) {
        return Err(Refusal::BadShape);
    }
    let limit = capacity(k, levels - 1);
    let v = root_look(store, k);
    if !root_ok(store, k, limit, v) {
        return Err(Refusal::Damaged);
    }
    if root_held(store, k, v) == 0 {
        return Err(Refusal::Empty);
    }
    let low = root_elem(store, k, v.low);
    if !swap(store, k, levels - 1, 0, limit, v.low, x) {
        return Err(Refusal::Damaged);
    }
    Ok(Some(low))
}

// A pop and then a push: the lowest held is answered, whatever the newcomer's rank.
pub fn replace(store: &mut [u32], places: usize, levels: usize, x: Element) -> Answer
    ensures { outcome result store.new ≡ called places levels (Request.Replace x) store.old }
{
    if is_untagged(x) {
        return bar(store, places, levels);
    }
    replace_tagged(store, places, levels, x)
}

pub fn clear(store: &mut [u32], places: usize, levels: usize) -> Answer
    ensures { outcome result store.new ≡ cleared places levels store.old }
{
    if !shape_ok(places, levels, store.len()) {
        return Err(Refusal::BadShape);
    }
    let n = nodes(levels) * (COUNTS + places * PLACE_WORDS);
    store[..n].fill(0);
    Ok(None)
}
