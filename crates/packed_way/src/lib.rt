// The ways of the packed heap over lent words: first the heaps' held words, then the slots, three words each. Slot m's children are slots 2m + heaps and
// 2m + heaps + 1, so m + heaps is numbered as a heap of its own is: one above is half of it; the top of heap h is slot h. A way is walked twice, once to test it and
// once to write it, so that every test comes before the first write.
#![tactic(auto)]

ghost use Rattle.std.specs.Prelude.{cond, ◌≡◌, ◌*◌, ◌+◌, ◌<◌, ◌≤◌, leb, ltb, length};
ghost use Rattle.strip.specs.Words.{keep, pass};
ghost use Rattle.packed_model.specs.Node.{size};
ghost use Rattle.packed_model.specs.Words.{slot_in, write_slot};
ghost use Rattle.packed_way.specs.Put.{PutDone, PutReady, PutSought};
ghost use Rattle.packed_way.specs.Sink.{Climbed, EdgeReady, EdgeSought, SinkReady, Sought, sink_to, slot_but};

use strip::{Element, element_at, is_blank, is_untagged, no_element, write_element};

// ---- slots

pub fn slot(s: &[u32], heaps: usize, m: usize) -> Element
    requires { heaps + m * 3 + 3 ≤ length s.now }
    ensures { result ≡ slot_in heaps s.now m }
{
    element_at(s, heaps + m * 3)
}

pub fn set_slot(s: &mut [u32], heaps: usize, m: usize, x: Element)
    requires { heaps + m * 3 + 3 ≤ length s.old }
    ensures { s.new ≡ write_slot heaps s.old m x }
{
    write_element(s, heaps + m * 3, x)
}

// ---- positions

pub fn power(d: usize) -> usize
    requires { d ≤ 17 }
    ensures { result ≡ size d }
{
    1 << d
}

// ---- put

// A put's way is read from its end up, since a slot tells the one above it: every slot above the end has an element, and the end is empty. How many levels above the
// end x is first exchanged, 0 if nowhere; nothing where the way is damaged. Above that slot the way stands as it is.
pub fn put_from(s: &[u32], heaps: usize, end: usize, x: Element) -> Option<usize>
    requires { (0 < heaps) × (heaps + end * 3 + 3 ≤ length s.now) }
    ensures { PutSought heaps end x s.now result }
{
    let e = slot(s, heaps, end);
    if !is_blank(e) {
        return None;
    }
    let mut at = end;
    let mut k = 0;
    let mut best = 0;
    while heaps <= at {
        at = (at - heaps) / 2;
        k += 1;
        let e = slot(s, heaps, at);
        if is_untagged(e) {
            return None;
        }
        if x.rank.0 < e.rank.0 {
            best = k;
        }
    }
    Some(best)
}

// Of x and the element that it meets in slot m the lower stays there; of equal ranks the one met. The other goes on.
fn meet(s: &mut [u32], heaps: usize, m: usize, x: Element) -> Element
    requires { heaps + m * 3 + 3 ≤ length s.old }
    ensures { (result ≡ pass x (slot_in heaps s.old m)) × (s.new ≡ write_slot heaps s.old m (keep x (slot_in heaps s.old m))) }
{
    let e = slot(s, heaps, m);
    if e.rank.0 <= x.rank.0 {
        return x;
    }
    set_slot(s, heaps, m, x);
    e
}

// x is put towards the slot `end`, from so many levels above it.
pub fn put_down(s: &mut [u32], heaps: usize, end: usize, levels: usize, x: Element)
    requires { PutReady heaps end levels (length s.old) }
    ensures { PutDone heaps end levels x s.old s.new }
{
    let mut y = x;
    for k in (1..=levels).rev() {
        let m = ((end + heaps) >> k) - heaps;
        y = meet(s, heaps, m, y);
    }
    set_slot(s, heaps, end, y);
}

// ---- sink

// The slot m, as it is read: slot p, from which the last entry is taken away, counts as empty.
fn slot_but(s: &[u32], heaps: usize, m: usize, p: usize) -> Element
    requires { heaps + m * 3 + 3 ≤ length s.now }
    ensures { result ≡ slot_but heaps p s.now m }
{
    if m == p {
        return no_element();
    }
    slot(s, heaps, m)
}

// Where an element that is sunk goes from a position: to its left child, to its right one, or nowhere.
#[derive(Clone, Copy)]
enum Goes {
    Left,
    Right,
    Nowhere,
}

// Where x goes from a position whose left child is slot c; nothing where a child is damaged. Here the right child is not held.
fn edge_to(s: &[u32], heaps: usize, c: usize, last: usize, p: usize, x: Element) -> Option<Goes>
    requires { (heaps + c * 3 + 6 ≤ length s.now) × (last ≤ c) }
    ensures { result ≡ sink_to (leb c last) (leb (c + 1) last) x (slot_but heaps p s.now c) (slot_but heaps p s.now (c + 1)) }
{
    let a = slot_but(s, heaps, c, p);
    let b = slot_but(s, heaps, c + 1, p);
    if !is_blank(b) {
        return None;
    }
    if last < c {
        if !is_blank(a) {
            return None;
        }
        return Some(Goes::Nowhere);
    }
    if is_untagged(a) {
        return None;
    }
    if a.rank.0 < x.rank.0 {
        return Some(Goes::Left);
    }
    Some(Goes::Nowhere)
}

// The end of a sink's way, from slot m on with so many levels below it, where the right child is not held.
fn rest_edge(
    s: &[u32],
    heaps: usize,
    left: usize,
    last: usize,
    p: usize,
    m: usize,
    x: Element,
) -> Option<usize>
    requires { EdgeReady heaps left last m s.now }
    ensures { EdgeSought heaps left last p m x s.now result }
{
    let mut at = m;
    for _ in 0..left {
        let c = at + at + heaps;
        at = match edge_to(s, heaps, c, last, p, x)? {
            Goes::Left => c,
            Goes::Right => c + 1,
            Goes::Nowhere => return Some(at),
        };
    }
    Some(at)
}

// The word at which the lower child's slot begins, where the left one's begins at word i. A function of its own: written in place the compiler makes a branch of it, and
// as a sum it took a pair of push and pop 4 in 100 longer (tried).
fn lower_at(a: u32, b: u32, i: usize) -> usize
    requires { i + 3 ≤ 18446744073709551615 }
    ensures { result ≡ cond (ltb b a) (i + 3) i }
{
    if b < a { i + 3 } else { i }
}

// The slot where x, sunk from the top of a heap with so many levels below it, comes to rest; nothing where the way is damaged. While both children are held nothing but
// their ranks and tags is read, the way is known by the word w at which a slot begins, and which child is the lower is no branch.
pub fn rest_slot(
    s: &[u32],
    heaps: usize,
    left: usize,
    last: usize,
    p: usize,
    heap: usize,
    x: Element,
) -> Option<usize>
    requires { SinkReady heaps left last p heap s.now }
    ensures { Sought heaps left last p heap x s.now result }
{
    let end = heaps + last * 3;
    let mut w = heaps + heap * 3;
    for k in (1..=left).rev() {
        let i = w + w + (heaps + heaps);
        if end <= i {
            return rest_edge(s, heaps, k, last, p, (w - heaps) / 3, x);
        }
        let a = s[i];
        let b = s[i + 3];
        if (s[i + 1] == 0) | (s[i + 4] == 0) {
            return None;
        }
        if x.rank.0 <= a.min(b) {
            return Some((w - heaps) / 3);
        }
        w = lower_at(a, b, i);
    }
    Some((w - heaps) / 3)
}

// x comes to rest in slot end, and what stood on its way is lifted, each into the slot above.
pub fn climb(s: &mut [u32], heaps: usize, end: usize, x: Element)
    requires { (0 < heaps) × (heaps + end * 3 + 3 ≤ length s.old) }
    ensures { Climbed heaps end x s.old s.new }
{
    let mut m = end;
    let mut y = x;
    while heaps <= m {
        let e = slot(s, heaps, m);
        set_slot(s, heaps, m, y);
        y = e;
        m = (m - heaps) / 2;
    }
    set_slot(s, heaps, m, y);
}
