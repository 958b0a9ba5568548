// The multi-way tree's calls, one operation at a time, over lent words.
#![tactic(auto)]

ghost use Rattle.std.specs.Prelude.{◌≡◌};
ghost use Rattle.tree_model.specs.Calls.{outcome, called, cleared, held_count};
ghost use Rattle.tree.specs.Untagged.{Bars};

use strip::{Answer, Element, Refusal, Request, is_untagged};
use tree_node::scan::{look_low, sum_counts};
use tree_node::slot::{SLOT_WORDS, slot_at, zero_words};
use tree_node::{capacity, shape_ok};
use tree_path::{put, swap, take};

// How many are held, by the root alone.
pub fn held(store: &[u32], order: usize, levels: usize) -> Result<u32, Refusal>
    ensures { result ≡ held_count order levels store.now }
{
    if !shape_ok(order, levels, store.len()) {
        return Err(Refusal::BadShape);
    }
    let v = look_low(store, 0, order, capacity(order, levels - 1));
    if !v.ok {
        return Err(Refusal::Damaged);
    }
    Ok(sum_counts(store, 0, order) as u32)
}

// A push or replace without a tag: the root is tested all the same, since damage comes first, and nothing below it is read.
fn bar(store: &[u32], order: usize, levels: usize) -> Answer
    ensures { Bars order levels store.now result }
{
    held(store, order, levels)?;
    Err(Refusal::NoTag)
}

// The put comes first: where it is done there was room, and the root was read once.
pub fn push(store: &mut [u32], order: usize, levels: usize, x: Element) -> Answer
    ensures { outcome result store.new ≡ called order levels (Request.Push x) store.old }
{
    if is_untagged(x) {
        return bar(store, order, levels);
    }
    if !shape_ok(order, levels, store.len()) {
        return Err(Refusal::BadShape);
    }
    let cap = capacity(order, levels - 1);
    if put(store, order, levels, 0, cap, x) {
        return Ok(None);
    }
    // nothing is written: the root, and how many it holds, say why
    let n = held(store, order, levels)?;
    if (n as usize) < capacity(order, levels) {
        return Err(Refusal::Damaged);
    }
    Err(Refusal::Full)
}

pub fn pop(store: &mut [u32], order: usize, levels: usize) -> Answer
    ensures { outcome result store.new ≡ called order levels Request.Pop store.old }
{
    if !shape_ok(order, levels, store.len()) {
        return Err(Refusal::BadShape);
    }
    let cap = capacity(order, levels - 1);
    let v = look_low(store, 0, order, cap);
    if !v.ok {
        return Err(Refusal::Damaged);
    }
    let j = v.place;
    if j == order {
        return Err(Refusal::Empty); // nothing to take
    }
    let low = slot_at(store, j).element;
    if !take(store, order, levels, 0, j, cap) {
        return Err(Refusal::Damaged);
    }
    Ok(Some(low))
}

// A pop and then a push in one: the lowest held element is answered even where x's rank is lower, and x is swapped in.
pub fn replace(store: &mut [u32], order: usize, levels: usize, x: Element) -> Answer
    ensures { outcome result store.new ≡ called order levels (Request.Replace x) store.old }
{
    if is_untagged(x) {
        return bar(store, order, levels);
    }
    if !shape_ok(order, levels, store.len()) {
        return Err(Refusal::BadShape);
    }
    let cap = capacity(order, levels - 1);
    let root = look_low(store, 0, order, cap);
    let j = root.place;
    if !root.ok {
        return Err(Refusal::Damaged);
    }
    if j == order {
        return Err(Refusal::Empty); // nothing to swap with
    }
    let least = slot_at(store, j).element;
    if !swap(store, order, levels, 0, j, cap, x) {
        return Err(Refusal::Damaged);
    }
    Ok(Some(least))
}

pub fn clear(store: &mut [u32], order: usize, levels: usize) -> Answer
    ensures { outcome result store.new ≡ cleared order levels store.old }
{
    if !shape_ok(order, levels, store.len()) {
        return Err(Refusal::BadShape);
    }
    zero_words(store, capacity(order, levels) * SLOT_WORDS);
    Ok(None)
}
