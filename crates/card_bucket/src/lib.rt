// The boundary for C and Rust, the bucket queue over numbers and slices. Each function returns 01's number, 0 where nothing is
// refused, and writes what it answers to `out`, zeros on a refusal. An `out` that is too short is refusal 1, and nothing changes.
#![tactic(auto)]

ghost use Rattle.std.specs.Prelude.{◌≡◌};
ghost use Rattle.card_words.specs.Out.{count_after};
ghost use Rattle.card_words.specs.Sizes.{bucket_bits, bucket_words};
ghost use Rattle.card_bucket.specs.Bucket.{bucket_after, bucket_after_out, bucket_clear, bucket_push, bucket_pop, bucket_replace, bucket_held};

pub mod pool;

use card_words::sizes::{bucket_bit_words, bucket_words};
use card_words::{OUT, tell, tell_count};
use strip::{element_of, number};

pub fn card_bucket_clear(bits: &mut [u64], words: &mut [u32], storeys: u32, nodes: u32) -> u32
    ensures { bucket_after result bits.new words.new ≡ bucket_clear bits.old words.old storeys nodes }
{
    number(bucket::clear(bits, words, storeys as usize, nodes))
}

pub fn card_bucket_push(
    bits: &mut [u64],
    words: &mut [u32],
    storeys: u32,
    nodes: u32,
    rank: u32,
    tag: u32,
    length: u32,
) -> u32
    ensures { bucket_after result bits.new words.new ≡ bucket_push bits.old words.old storeys nodes rank tag length }
{
    let e = element_of(rank, tag, length);
    number(bucket::push(bits, words, storeys as usize, nodes, e))
}

pub fn card_bucket_pop(
    bits: &mut [u64],
    words: &mut [u32],
    storeys: u32,
    nodes: u32,
    out: &mut [u32],
) -> u32
    ensures { bucket_after_out result bits.new words.new out.new ≡ bucket_pop bits.old words.old storeys nodes out.old }
{
    if out.len() < OUT {
        return 1;
    }
    let answer = bucket::pop(bits, words, storeys as usize, nodes);
    tell(out, answer)
}

pub fn card_bucket_replace(
    bits: &mut [u64],
    words: &mut [u32],
    storeys: u32,
    nodes: u32,
    rank: u32,
    tag: u32,
    length: u32,
    out: &mut [u32],
) -> u32
    ensures { bucket_after_out result bits.new words.new out.new ≡ bucket_replace bits.old words.old storeys nodes rank tag length out.old }
{
    if out.len() < OUT {
        return 1;
    }
    let e = element_of(rank, tag, length);
    let answer = bucket::replace(bits, words, storeys as usize, nodes, e);
    tell(out, answer)
}

pub fn card_bucket_held(
    bits: &[u64],
    words: &[u32],
    storeys: u32,
    nodes: u32,
    out: &mut [u32],
) -> u32
    ensures { count_after result out.new ≡ bucket_held bits.now words.now storeys nodes out.old }
{
    if out.len() < 1 {
        return 1;
    }
    let count = bucket::held(bits, words, storeys as usize, nodes);
    tell_count(out, count)
}

// ---- how many words a store needs: the least length that the calls take, and 0 for a bad shape

// The words of 64 bits.
pub fn card_bucket_bits(storeys: u32) -> u32
    ensures { result ≡ bucket_bits storeys }
{
    bucket_bit_words(storeys)
}

// The words of 32 bits.
pub fn card_bucket_words(storeys: u32, nodes: u32) -> u32
    ensures { result ≡ bucket_words storeys nodes }
{
    bucket_words(storeys, nodes)
}
