// The boundary for C and Rust, the tree over numbers and slices. Each function returns 01's number, 0 where nothing is
// refused, and writes what it answers to `out`, zeros on a refusal. An `out` that is too short is refusal 1, and nothing changes.
#![tactic(auto)]

ghost use Rattle.std.specs.Prelude.{◌≡◌};
ghost use Rattle.card_words.specs.Out.{count_after};
ghost use Rattle.card_words.specs.Sizes.{tree_words};
ghost use Rattle.card_words.specs.Store.{store_after, store_after_out};
ghost use Rattle.card_tree.specs.Tree.{tree_clear, tree_push, tree_pop, tree_replace, tree_held};

pub mod repair;
pub mod weights;

use card_words::sizes::tree_words;
use card_words::{OUT, tell, tell_count};
use strip::{element_of, number};

pub fn card_tree_clear(store: &mut [u32], order: u32, levels: u32) -> u32
    ensures { store_after result store.new ≡ tree_clear order levels store.old }
{
    number(tree::clear(store, order as usize, levels as usize))
}

pub fn card_tree_push(
    store: &mut [u32],
    order: u32,
    levels: u32,
    rank: u32,
    tag: u32,
    length: u32,
) -> u32
    ensures { store_after result store.new ≡ tree_push order levels store.old rank tag length }
{
    let x = element_of(rank, tag, length);
    number(tree::push(store, order as usize, levels as usize, x))
}

pub fn card_tree_pop(store: &mut [u32], order: u32, levels: u32, out: &mut [u32]) -> u32
    ensures { store_after_out result store.new out.new ≡ tree_pop order levels store.old out.old }
{
    if out.len() < OUT {
        return 1;
    }
    let answer = tree::pop(store, order as usize, levels as usize);
    tell(out, answer)
}

pub fn card_tree_replace(
    store: &mut [u32],
    order: u32,
    levels: u32,
    rank: u32,
    tag: u32,
    length: u32,
    out: &mut [u32],
) -> u32
    ensures { store_after_out result store.new out.new ≡ tree_replace order levels store.old rank tag length out.old }
{
    if out.len() < OUT {
        return 1;
    }
    let x = element_of(rank, tag, length);
    let answer = tree::replace(store, order as usize, levels as usize, x);
    tell(out, answer)
}

pub fn card_tree_held(store: &[u32], order: u32, levels: u32, out: &mut [u32]) -> u32
    ensures { count_after result out.new ≡ tree_held order levels store.now out.old }
{
    if out.len() < 1 {
        return 1;
    }
    let count = tree::held(store, order as usize, levels as usize);
    tell_count(out, count)
}

// How many words a store needs: the least length that the calls take, and 0 for a bad shape.
pub fn card_tree_words(order: u32, levels: u32) -> u32
    ensures { result ≡ tree_words order levels }
{
    tree_words(order, levels)
}
