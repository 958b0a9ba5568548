// The packed heap for C and Rust: numbers and slices.
#![tactic(auto)]

ghost use Rattle.std.specs.Prelude.{◌≡◌};
ghost use Rattle.card_words.specs.Out.{count_after};
ghost use Rattle.card_words.specs.Store.{store_after, store_after_out};
ghost use Rattle.card_packed.specs.Packed.{packed_clear, packed_held, packed_pop, packed_push, packed_replace, packed_words};

use card_words::{OUT, tell, tell_count};
use packed_way::power;
use strip::{element_of, number};

pub fn card_packed_clear(store: &mut [u32], heaps: u32, levels: u32) -> u32
    ensures { store_after result store.new ≡ packed_clear heaps levels store.old }
{
    number(packed::clear(store, heaps as usize, levels as usize))
}

pub fn card_packed_push(
    store: &mut [u32],
    heaps: u32,
    levels: u32,
    heap: u32,
    rank: u32,
    tag: u32,
    length: u32,
) -> u32
    ensures { store_after result store.new ≡ packed_push heaps levels heap store.old rank tag length }
{
    let x = element_of(rank, tag, length);
    number(packed::push(store, heaps as usize, levels as usize, heap as usize, x))
}

pub fn card_packed_pop(
    store: &mut [u32],
    heaps: u32,
    levels: u32,
    heap: u32,
    out: &mut [u32],
) -> u32
    ensures { store_after_out result store.new out.new ≡ packed_pop heaps levels heap store.old out.old }
{
    if out.len() < OUT {
        return 1;
    }
    let answer = packed::pop(store, heaps as usize, levels as usize, heap as usize);
    tell(out, answer)
}

pub fn card_packed_replace(
    store: &mut [u32],
    heaps: u32,
    levels: u32,
    heap: u32,
    rank: u32,
    tag: u32,
    length: u32,
    out: &mut [u32],
) -> u32
    ensures { store_after_out result store.new out.new ≡ packed_replace heaps levels heap store.old rank tag length out.old }
{
    if out.len() < OUT {
        return 1;
    }
    let x = element_of(rank, tag, length);
    let answer = packed::replace(store, heaps as usize, levels as usize, heap as usize, x);
    tell(out, answer)
}

pub fn card_packed_held(store: &[u32], heaps: u32, levels: u32, heap: u32, out: &mut [u32]) -> u32
    ensures { count_after result out.new ≡ packed_held heaps levels heap store.now out.old }
{
    if out.len() < 1 {
        return 1;
    }
    let count = packed::held(store, heaps as usize, levels as usize, heap as usize);
    tell_count(out, count)
}

// The words of a store, and 0 for a bad shape: 256 held words and 131,071 slots are enough for any.
pub fn card_packed_words(heaps: u32, levels: u32) -> u32
    ensures { result ≡ packed_words heaps levels }
{
    let h = heaps as usize;
    let l = levels as usize;
    if !packed::shape_ok(h, l, 393469) {
        return 0;
    }
    let n = power(l) - 1;
    (h + h * n * 3) as u32
}
