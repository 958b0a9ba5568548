// Several ports on one pool of buckets, over two lent slices, words of 64 bits and words of 32.
//
// Each port is a bucket queue among the others: a call finds the port's seat, tests the pool by one pass over the words of all
// ports, and then does what the bucket queue does. It reads everything first, tests once, and writes last, so that a refusal
// leaves every word as it was. Every contract is one equation: the answer and all words of both slices afterwards are what
// the definition says of the words before, whatever they were.
//
// Push and pop go through the depths one by one, and do their call at the one that is asked for: the compiler unrolls such a
// loop, so that each depth has code of its own with its numbers in it.
#![tactic(auto)]

ghost use Rattle.std.specs.Prelude.{◌≡◌, ◌+◌, ◌*◌, ◌≤◌, length};
ghost use Rattle.bucket_model.specs.Calls.{outcome, fill};
ghost use Rattle.ports_model.specs.Calls.{cleared, pushed, popped, replaced, held_count};
ghost use Rattle.ports.specs.Blank.{Wiping, blank_at};

use bucket_bits::wipe;
use bucket_model::Lay;
use bucket_node::{LEAST_STOREYS, MOST_STOREYS, element_of, held_count, wipe_lists};
use bucket_step::tests::{
    agrees, agrees_after, find_lowest, find_room, may_come, rank_or_tag, room_after,
};
use bucket_step::{join, show, swap, take};
use ports_model::Shape;
use ports_step::{
    CEILING, FLOOR, HELD, PORT, add_up, bit_words, ceiling_of, floor_of, has_room, has_some,
    is_known, is_shaped, is_whole, limit_or_damage, limits_fit, seat_of, shape_or_port,
};
use strip::{Answer, Element, Refusal};

// ---- clear

// Up to the free link as the bucket queue's, and behind it for each port held 0, its floor and its ceiling.
fn wipe_words(words: &mut [u32], k: Lay, limits: &[u32], ports: usize)
    requires wiping { Wiping k ports limits.now }
    requires words_in { k.free + (1 + 3 * ports) ≤ length words.old }
    ensures { words.new ≡ fill (blank_at k limits.now) (k.free + (1 + 3 * ports)) words.old }
{
    wipe_lists(words, k);
    for p in 0..ports {
        let port = k.free + PORT * p;
        words[port + HELD] = 0;
        words[port + FLOOR] = floor_of(limits, p);
        words[port + CEILING] = ceiling_of(limits, p);
    }
}

// Empty ports with these limits, a floor and a ceiling for each, whatever the slices held before.
pub fn clear(bits: &mut [u64], words: &mut [u32], s: Shape, limits: &[u32]) -> Answer
    ensures { outcome result bits.new words.new ≡ cleared s limits.now bits.old words.old }
{
    if !is_shaped(bits, words, s) {
        return Err(Refusal::BadShape);
    }
    if !limits_fit(s, limits) {
        return Err(Refusal::BadShape);
    }
    let first = seat_of(s, 0);
    wipe(bits, bit_words(s));
    wipe_words(words, first, limits, s.ports as usize);
    Ok(None)
}

// ---- at a port

// How many it holds.
pub fn held(bits: &[u64], words: &[u32], s: Shape, port: u32) -> Result<u32, Refusal>
    ensures { result ≡ held_count s port bits.now words.now }
{
    if !is_known(bits, words, s, port) {
        return Err(shape_or_port(bits, words, s));
    }
    let k = seat_of(s, port);
    let t = add_up(words, k.free, s.ports as usize);
    if !is_whole(bits, words, k, t) {
        return Err(Refusal::Damaged);
    }
    Ok(held_count(words, k))
}

// The first element of its lowest rank.
pub fn pop(bits: &mut [u64], words: &mut [u32], s: Shape, port: u32) -> Answer
    ensures { outcome result bits.new words.new ≡ popped s port bits.old words.old }
{
    for d in LEAST_STOREYS..MOST_STOREYS + 1 {
        if d == s.storeys {
            return pop_at(bits, words, Shape { storeys: d, ..s }, port);
        }
    }
    Err(Refusal::BadShape)
}

// A newcomer behind all of its rank there.
pub fn push(bits: &mut [u64], words: &mut [u32], s: Shape, port: u32, e: Element) -> Answer
    ensures { outcome result bits.new words.new ≡ pushed s port bits.old words.old e }
{
    for d in LEAST_STOREYS..MOST_STOREYS + 1 {
        if d == s.storeys {
            return push_at(bits, words, Shape { storeys: d, ..s }, port, e);
        }
    }
    Err(Refusal::BadShape)
}

// A pop, and then a push of the newcomer, at one port: the first element of its lowest rank, even if the newcomer's rank is
// lower. The freed node is the one taken, so no room is needed.
pub fn replace(bits: &mut [u64], words: &mut [u32], s: Shape, port: u32, e: Element) -> Answer
    ensures { outcome result bits.new words.new ≡ replaced s port bits.old words.old e }
{
    if !is_known(bits, words, s, port) {
        return Err(shape_or_port(bits, words, s));
    }
    let k = seat_of(s, port);
    if !may_come(k, e) {
        return Err(rank_or_tag(k, e));
    }
    let t = add_up(words, k.free, s.ports as usize);
    if !has_some(bits, words, k, t) {
        return Err(limit_or_damage(bits, words, k, t, Refusal::Empty));
    }
    let Some(low) = find_lowest(bits, words, k) else {
        return Err(Refusal::Damaged);
    };
    let Some(room) = room_after(words, k, low, e.rank.0) else {
        return Err(Refusal::Damaged);
    };
    let held = held_count(words, k);
    if !agrees_after(bits, k, low, e.rank.0, room.tail == 0, held) {
        return Err(Refusal::Damaged);
    }
    let first = element_of(words, k, low.rank, low.head);
    swap(bits, words, k, low, e, room);
    show(bits, k, e, room);
    Ok(Some(first))
}

// ---- the same at a depth that is known: the steps after the tests stand here as in `bucket`, since a function with two callers would not be inlined
// (docs/DECISIONS.md, "code for each depth, text for none")

fn pop_at(bits: &mut [u64], words: &mut [u32], s: Shape, port: u32) -> Answer
    ensures { outcome result bits.new words.new ≡ popped s port bits.old words.old }
{
    if !is_known(bits, words, s, port) {
        return Err(shape_or_port(bits, words, s));
    }
    let k = seat_of(s, port);
    let t = add_up(words, k.free, s.ports as usize);
    if !has_some(bits, words, k, t) {
        return Err(limit_or_damage(bits, words, k, t, Refusal::Empty));
    }
    let Some(low) = find_lowest(bits, words, k) else {
        return Err(Refusal::Damaged);
    };
    let out = element_of(words, k, low.rank, low.head);
    take(bits, words, k, low);
    Ok(Some(out))
}

fn push_at(bits: &mut [u64], words: &mut [u32], s: Shape, port: u32, e: Element) -> Answer
    ensures { outcome result bits.new words.new ≡ pushed s port bits.old words.old e }
{
    if !is_known(bits, words, s, port) {
        return Err(shape_or_port(bits, words, s));
    }
    let k = seat_of(s, port);
    if !may_come(k, e) {
        return Err(rank_or_tag(k, e));
    }
    let t = add_up(words, k.free, s.ports as usize);
    if !has_room(bits, words, k, t) {
        return Err(limit_or_damage(bits, words, k, t, Refusal::Full));
    }
    let Some(to) = find_room(words, k, t.used as u32, e.rank.0) else {
        return Err(Refusal::Damaged);
    };
    if !agrees(bits, k, e.rank.0, to.tail == 0) {
        return Err(Refusal::Damaged);
    }
    join(bits, words, k, e, to);
    Ok(None)
}
