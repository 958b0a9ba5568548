// The packed heap, one operation at a time, over lent words: a forest of heaps, each a queue of its own. A call tests the shape, the heap's number, its held word and
// its top, then what its request asks; the ways are those of `packed_way`.
#![tactic(auto)]

ghost use Rattle.std.specs.Prelude.{◌≡◌, ◌+◌, ◌<◌, ◌≤◌, length};
ghost use Rattle.packed_model.specs.Calls.{called, cleared, held_count, outcome, root_ok, served, shape_ok};
ghost use Rattle.packed_model.specs.Node.{size};
ghost use Rattle.packed_model.specs.Words.{capacity, depth, slot_at};
ghost use Rattle.packed.specs.Open.{Around, Opened};

use packed_way::{climb, power, put_down, put_from, rest_slot, set_slot, slot};
use strip::{Answer, Element, Refusal, Request, is_blank, is_untagged, no_element};

// ---- the shape

pub fn shape_ok(heaps: usize, levels: usize, len: usize) -> bool
    ensures { result ≡ shape_ok heaps levels len }
{
    if heaps < 1 {
        return false;
    }
    if 256 < heaps {
        return false;
    }
    if levels < 1 {
        return false;
    }
    if 17 < levels {
        return false;
    }
    let n = power(levels) - 1;
    (heaps * n <= 131071) & (heaps + heaps * n * 3 <= len)
}

// How many a heap has room for.
fn capacity_of(levels: usize) -> usize
    requires { levels ≤ 17 }
    ensures { result ≡ capacity levels }
{
    power(levels) - 1
}

// The level of position t, counted from 0.
fn depth_of(levels: usize, t: usize) -> usize
    requires { levels ≤ 17 }
    ensures { result ≡ depth levels t }
{
    for k in (0..levels).rev() {
        if power(k) <= t {
            return k;
        }
    }
    0
}

// The slot of the position d levels below the top of a heap and r further.
fn slot_at(heaps: usize, heap: usize, d: usize, r: usize) -> usize
    requires { (heaps ≤ 256) × (heap < heaps) × (d ≤ 16) × (r < size d) }
    ensures { result ≡ slot_at heaps heap d r }
{
    let q = power(d);
    heaps * (q - 1) + (heap * q + r)
}

// ---- the calls

// The held word n, and the top of the heap.
fn root_ok(s: &[u32], heaps: usize, levels: usize, heap: usize) -> bool
    requires { Around heaps levels heap s.now }
    ensures { result ≡ root_ok heaps levels heap s.now }
{
    let n = s[heap];
    let e = slot(s, heaps, heap);
    if capacity_of(levels) < n as usize {
        return false;
    }
    if n == 0 {
        return is_blank(e);
    }
    !is_untagged(e)
}

pub fn held(store: &[u32], heaps: usize, levels: usize, heap: usize) -> Result<u32, Refusal>
    ensures { result ≡ held_count heaps levels heap store.now }
{
    if !shape_ok(heaps, levels, store.len()) {
        return Err(Refusal::BadShape);
    }
    if heaps <= heap {
        return Err(Refusal::NoHeap);
    }
    if !root_ok(store, heaps, levels, heap) {
        return Err(Refusal::Damaged);
    }
    Ok(store[heap])
}

// x towards the position after the n held ones.
fn push_open(
    store: &mut [u32],
    heaps: usize,
    levels: usize,
    heap: usize,
    n: u32,
    x: Element,
) -> Answer
    requires { Opened heaps levels heap n store.old }
    ensures { outcome result store.new ≡ served heaps levels heap (Request.Push x) store.old }
{
    if is_untagged(x) {
        return Err(Refusal::NoTag);
    }
    let count = n as usize;
    if capacity_of(levels) <= count {
        return Err(Refusal::Full);
    }
    let d = depth_of(levels, count + 1);
    let q = power(d);
    let end = slot_at(heaps, heap, d, count + 1 - q);
    let Some(from) = put_from(store, heaps, end, x) else {
        return Err(Refusal::Damaged);
    };
    put_down(store, heaps, end, from, x);
    store[heap] = n + 1;
    Ok(None)
}

// The last entry is taken away and sunk from the top.
fn pop_open(store: &mut [u32], heaps: usize, levels: usize, heap: usize, n: u32) -> Answer
    requires { Opened heaps levels heap n store.old }
    ensures { outcome result store.new ≡ served heaps levels heap Request.Pop store.old }
{
    if n == 0 {
        return Err(Refusal::Empty);
    }
    let count = n as usize;
    let d = depth_of(levels, count);
    let q = power(d);
    let p = slot_at(heaps, heap, d, count - q);
    let last = slot(store, heaps, p);
    if is_untagged(last) {
        return Err(Refusal::Damaged);
    }
    let top = slot(store, heaps, heap);
    if n == 1 {
        set_slot(store, heaps, p, no_element());
        store[heap] = 0;
        return Ok(Some(top));
    }
    let Some(end) = rest_slot(store, heaps, levels - 1, p - 1, p, heap, last) else {
        return Err(Refusal::Damaged);
    };
    set_slot(store, heaps, p, no_element());
    climb(store, heaps, end, last);
    store[heap] = n - 1;
    Ok(Some(top))
}

// The newcomer is sunk from the top.
fn replace_open(
    store: &mut [u32],
    heaps: usize,
    levels: usize,
    heap: usize,
    n: u32,
    x: Element,
) -> Answer
    requires { Opened heaps levels heap n store.old }
    ensures { outcome result store.new ≡ served heaps levels heap (Request.Replace x) store.old }
{
    if is_untagged(x) {
        return Err(Refusal::NoTag);
    }
    if n == 0 {
        return Err(Refusal::Empty);
    }
    let count = n as usize;
    let d = depth_of(levels, count);
    let q = power(d);
    let last = slot_at(heaps, heap, d, count - q);
    let top = slot(store, heaps, heap);
    let Some(end) = rest_slot(store, heaps, levels - 1, last, heap, heap, x) else {
        return Err(Refusal::Damaged);
    };
    climb(store, heaps, end, x);
    Ok(Some(top))
}

pub fn push(store: &mut [u32], heaps: usize, levels: usize, heap: usize, x: Element) -> Answer
    ensures { outcome result store.new ≡ called heaps levels heap (Request.Push x) store.old }
{
    let n = held(store, heaps, levels, heap)?;
    push_open(store, heaps, levels, heap, n, x)
}

pub fn pop(store: &mut [u32], heaps: usize, levels: usize, heap: usize) -> Answer
    ensures { outcome result store.new ≡ called heaps levels heap Request.Pop store.old }
{
    let n = held(store, heaps, levels, heap)?;
    pop_open(store, heaps, levels, heap, n)
}

// A pop and then a push: the top is answered, whatever the newcomer's rank.
pub fn replace(store: &mut [u32], heaps: usize, levels: usize, heap: usize, x: Element) -> Answer
    ensures { outcome result store.new ≡ called heaps levels heap (Request.Replace x) store.old }
{
    let n = held(store, heaps, levels, heap)?;
    replace_open(store, heaps, levels, heap, n, x)
}

pub fn clear(store: &mut [u32], heaps: usize, levels: usize) -> Answer
    ensures { outcome result store.new ≡ cleared heaps levels store.old }
{
    if !shape_ok(heaps, levels, store.len()) {
        return Err(Refusal::BadShape);
    }
    let n = capacity_of(levels);
    store[..heaps + heaps * n * 3].fill(0);
    Ok(None)
}
