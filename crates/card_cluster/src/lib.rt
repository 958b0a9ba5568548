// The boundary for C and Rust, the cluster heap over numbers and slices. Each function returns 01's number, 0 where nothing is
// refused, and writes what it answers to `out`, zeros on a refusal. An `out` that is too short is refusal 1, and nothing changes.
#![tactic(auto)]

ghost use Rattle.std.specs.Prelude.{◌≡◌};
ghost use Rattle.card_words.specs.Out.{count_after};
ghost use Rattle.card_words.specs.Sizes.{cluster_words};
ghost use Rattle.card_words.specs.Store.{store_after, store_after_out};
ghost use Rattle.card_cluster.specs.Cluster.{cluster_clear, cluster_push, cluster_pop, cluster_replace, cluster_held};

pub mod stages;

use card_words::sizes::cluster_words;
use card_words::{OUT, tell, tell_count};
use strip::{element_of, number};

pub fn card_cluster_clear(store: &mut [u32], places: u32, levels: u32) -> u32
    ensures { store_after result store.new ≡ cluster_clear places levels store.old }
{
    number(cluster::clear(store, places as usize, levels as usize))
}

pub fn card_cluster_push(
    store: &mut [u32],
    places: u32,
    levels: u32,
    rank: u32,
    tag: u32,
    length: u32,
) -> u32
    ensures { store_after result store.new ≡ cluster_push places levels store.old rank tag length }
{
    let x = element_of(rank, tag, length);
    number(cluster::push(store, places as usize, levels as usize, x))
}

pub fn card_cluster_pop(store: &mut [u32], places: u32, levels: u32, out: &mut [u32]) -> u32
    ensures { store_after_out result store.new out.new ≡ cluster_pop places levels store.old out.old }
{
    if out.len() < OUT {
        return 1;
    }
    let answer = cluster::pop(store, places as usize, levels as usize);
    tell(out, answer)
}

pub fn card_cluster_replace(
    store: &mut [u32],
    places: u32,
    levels: u32,
    rank: u32,
    tag: u32,
    length: u32,
    out: &mut [u32],
) -> u32
    ensures { store_after_out result store.new out.new ≡ cluster_replace places levels store.old rank tag length out.old }
{
    if out.len() < OUT {
        return 1;
    }
    let x = element_of(rank, tag, length);
    let answer = cluster::replace(store, places as usize, levels as usize, x);
    tell(out, answer)
}

pub fn card_cluster_held(store: &[u32], places: u32, levels: u32, out: &mut [u32]) -> u32
    ensures { count_after result out.new ≡ cluster_held places levels store.now out.old }
{
    if out.len() < 1 {
        return 1;
    }
    let count = cluster::held(store, places as usize, levels as usize);
    tell_count(out, count)
}

// How many words a store needs: the least length that the calls take, and 0 for a bad shape.
pub fn card_cluster_words(places: u32, levels: u32) -> u32
    ensures { result ≡ cluster_words places levels }
{
    cluster_words(places, levels)
}
