// The bucket queue over two lent slices, words of 64 bits and words of 32.
//
// Each call reads everything first, tests once, and writes last, so that a refusal leaves every word as it
// was. Every contract is one equation: the answer and all words of both slices afterwards are what the
// definition says of the words before, whatever they were. The public calls are those of a queue of n nodes, two storeys
// deep or three; under each is the same call for any layout.
//
// Push and pop go through the depths one by one, and do their call at the one that is asked for: the compiler unrolls such a
// loop, so that each depth has code of its own with its numbers in it. Replace is too long for that.
#![tactic(auto)]

ghost use Rattle.std.specs.Prelude.{◌≡◌};
ghost use Rattle.bucket_model.specs.Layout.{queue};
ghost use Rattle.bucket_model.specs.Calls.{outcome, cleared, pushed, popped, replaced, held_count};
ghost use Rattle.bucket.specs.Stores.{Placed};

use bucket_bits::wipe;
use bucket_model::Lay;
use bucket_node::{LEAST_STOREYS, MOST_STOREYS, element_of, held_count, queue_of, wipe_words};
use bucket_step::tests::{
    agrees, agrees_after, find_lowest, find_room, has_room, has_some, is_deep, is_shaped, is_whole,
    limit_or_damage, may_come, rank_or_tag, room_after,
};
use bucket_step::{join, show, swap, take};
use strip::{Answer, Element, Refusal};

// ---- a queue of n nodes, of either depth

// An empty queue, whatever the slices held before.
pub fn clear(bits: &mut [u64], words: &mut [u32], storeys: usize, n: u32) -> Answer
    ensures { outcome result bits.new words.new ≡ cleared (queue storeys n) bits.old words.old }
{
    if !is_deep(storeys) {
        return Err(Refusal::BadShape);
    }
    clear_laid(bits, words, queue_of(storeys, n))
}

// How many are held.
pub fn held(bits: &[u64], words: &[u32], storeys: usize, n: u32) -> Result<u32, Refusal>
    ensures { result ≡ held_count (queue storeys n) bits.now words.now }
{
    if !is_deep(storeys) {
        return Err(Refusal::BadShape);
    }
    held_laid(bits, words, queue_of(storeys, n))
}

// The first element of the lowest rank.
pub fn pop(bits: &mut [u64], words: &mut [u32], storeys: usize, n: u32) -> Answer
    ensures { outcome result bits.new words.new ≡ popped (queue storeys n) bits.old words.old }
{
    // no return from within: with one the compiler makes one body of both depths, and a pop takes 151 instructions for 127
    let mut answer = Err(Refusal::BadShape);
    for d in LEAST_STOREYS..MOST_STOREYS + 1 {
        if d == storeys {
            answer = pop_laid(bits, words, queue_of(d, n));
        }
    }
    answer
}

// A newcomer behind all of its rank.
pub fn push(bits: &mut [u64], words: &mut [u32], storeys: usize, n: u32, e: Element) -> Answer
    ensures { outcome result bits.new words.new ≡ pushed (queue storeys n) bits.old words.old e }
{
    for d in LEAST_STOREYS..MOST_STOREYS + 1 {
        if d == storeys {
            return push_laid(bits, words, queue_of(d, n), e);
        }
    }
    Err(Refusal::BadShape)
}

// A pop, and then a push of the newcomer: the first element of the lowest rank, even if the newcomer's rank is lower.
pub fn replace(bits: &mut [u64], words: &mut [u32], storeys: usize, n: u32, e: Element) -> Answer
    ensures { outcome result bits.new words.new ≡ replaced (queue storeys n) bits.old words.old e }
{
    if !is_deep(storeys) {
        return Err(Refusal::BadShape);
    }
    replace_laid(bits, words, queue_of(storeys, n), e)
}

// ---- any layout

fn clear_laid(bits: &mut [u64], words: &mut [u32], k: Lay) -> Answer
    requires { Placed k }
    ensures { outcome result bits.new words.new ≡ cleared k bits.old words.old }
{
    if !is_shaped(bits, words, k) {
        return Err(Refusal::BadShape);
    }
    wipe(bits, k.bits + k.tower);
    wipe_words(words, k);
    Ok(None)
}

fn held_laid(bits: &[u64], words: &[u32], k: Lay) -> Result<u32, Refusal>
    requires { Placed k }
    ensures { result ≡ held_count k bits.now words.now }
{
    if !is_shaped(bits, words, k) {
        return Err(Refusal::BadShape);
    }
    if !is_whole(bits, words, k) {
        return Err(Refusal::Damaged);
    }
    Ok(held_count(words, k))
}

fn pop_laid(bits: &mut [u64], words: &mut [u32], k: Lay) -> Answer
    requires { Placed k }
    ensures { outcome result bits.new words.new ≡ popped k bits.old words.old }
{
    if !is_shaped(bits, words, k) {
        return Err(Refusal::BadShape);
    }
    if !has_some(bits, words, k) {
        return Err(limit_or_damage(bits, words, k, Refusal::Empty));
    }
    let Some(low) = find_lowest(bits, words, k) else {
        return Err(Refusal::Damaged);
    };
    let out = element_of(words, k, low.rank, low.head);
    take(bits, words, k, low);
    Ok(Some(out))
}

fn push_laid(bits: &mut [u64], words: &mut [u32], k: Lay, e: Element) -> Answer
    requires { Placed k }
    ensures { outcome result bits.new words.new ≡ pushed k bits.old words.old e }
{
    if !is_shaped(bits, words, k) {
        return Err(Refusal::BadShape);
    }
    if !may_come(k, e) {
        return Err(rank_or_tag(k, e));
    }
    if !has_room(bits, words, k) {
        return Err(limit_or_damage(bits, words, k, Refusal::Full));
    }
    let held = held_count(words, k);
    let Some(to) = find_room(words, k, held, e.rank.0) else {
        return Err(Refusal::Damaged);
    };
    if !agrees(bits, k, e.rank.0, to.tail == 0) {
        return Err(Refusal::Damaged);
    }
    join(bits, words, k, e, to);
    Ok(None)
}

fn replace_laid(bits: &mut [u64], words: &mut [u32], k: Lay, e: Element) -> Answer
    requires { Placed k }
    ensures { outcome result bits.new words.new ≡ replaced k bits.old words.old e }
{
    if !is_shaped(bits, words, k) {
        return Err(Refusal::BadShape);
    }
    if !may_come(k, e) {
        return Err(rank_or_tag(k, e));
    }
    if !has_some(bits, words, k) {
        return Err(limit_or_damage(bits, words, k, Refusal::Empty));
    }
    let Some(low) = find_lowest(bits, words, k) else {
        return Err(Refusal::Damaged);
    };
    let Some(room) = room_after(words, k, low, e.rank.0) else {
        return Err(Refusal::Damaged);
    };
    let held = held_count(words, k);
    if !agrees_after(bits, k, low, e.rank.0, room.tail == 0, held) {
        return Err(Refusal::Damaged);
    }
    let first = element_of(words, k, low.rank, low.head);
    swap(bits, words, k, low, e, room);
    show(bits, k, e, room);
    Ok(Some(first))
}
