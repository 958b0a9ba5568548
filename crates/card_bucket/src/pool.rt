// Several ports on one pool. Every number is 32 bits wide, and any may be handed over.
ghost use Rattle.std.specs.Prelude.{◌≡◌};
ghost use Rattle.card_bucket.specs.Bucket.{bucket_after, bucket_after_out};
ghost use Rattle.card_words.specs.Out.{count_after};
ghost use Rattle.card_bucket.specs.Ports.{shape, ports_clear, ports_push, ports_pop, ports_replace, ports_held, ports_bits, ports_words};

use card_words::{OUT, tell, tell_count};
use ports_model::Shape;
use ports_step::{bit_words, is_numbered, store_words};
use strip::{element_of, number};

fn shape_of(storeys: u32, nodes: u32, ports: u32) -> Shape
    ensures { result ≡ shape storeys nodes ports }
{
    Shape {
        storeys: storeys as usize,
        nodes,
        ports,
    }
}

// limits: for each port its floor, and then its ceiling.
pub fn card_ports_clear(
    bits: &mut [u64],
    words: &mut [u32],
    storeys: u32,
    nodes: u32,
    ports: u32,
    limits: &[u32],
) -> u32
    ensures { bucket_after result bits.new words.new ≡ ports_clear bits.old words.old storeys nodes ports limits.now }
{
    let s = shape_of(storeys, nodes, ports);
    number(ports::clear(bits, words, s, limits))
}

pub fn card_ports_push(
    bits: &mut [u64],
    words: &mut [u32],
    storeys: u32,
    nodes: u32,
    ports: u32,
    port: u32,
    rank: u32,
    tag: u32,
    length: u32,
) -> u32
    ensures { bucket_after result bits.new words.new ≡ ports_push bits.old words.old storeys nodes ports port rank tag length }
{
    let s = shape_of(storeys, nodes, ports);
    let e = element_of(rank, tag, length);
    number(ports::push(bits, words, s, port, e))
}

pub fn card_ports_pop(
    bits: &mut [u64],
    words: &mut [u32],
    storeys: u32,
    nodes: u32,
    ports: u32,
    port: u32,
    out: &mut [u32],
) -> u32
    ensures { bucket_after_out result bits.new words.new out.new ≡ ports_pop bits.old words.old storeys nodes ports port out.old }
{
    if out.len() < OUT {
        return 1;
    }
    let s = shape_of(storeys, nodes, ports);
    let answer = ports::pop(bits, words, s, port);
    tell(out, answer)
}

pub fn card_ports_replace(
    bits: &mut [u64],
    words: &mut [u32],
    storeys: u32,
    nodes: u32,
    ports: u32,
    port: u32,
    rank: u32,
    tag: u32,
    length: u32,
    out: &mut [u32],
) -> u32
    ensures { bucket_after_out result bits.new words.new out.new ≡ ports_replace bits.old words.old storeys nodes ports port rank tag length out.old }
{
    if out.len() < OUT {
        return 1;
    }
    let s = shape_of(storeys, nodes, ports);
    let e = element_of(rank, tag, length);
    let answer = ports::replace(bits, words, s, port, e);
    tell(out, answer)
}

pub fn card_ports_held(
    bits: &[u64],
    words: &[u32],
    storeys: u32,
    nodes: u32,
    ports: u32,
    port: u32,
    out: &mut [u32],
) -> u32
    ensures { count_after result out.new ≡ ports_held bits.now words.now storeys nodes ports port out.old }
{
    if out.len() < 1 {
        return 1;
    }
    let s = shape_of(storeys, nodes, ports);
    let count = ports::held(bits, words, s, port);
    tell_count(out, count)
}

// ---- how many words a store needs, and 0 for a bad shape

// The words of 64 bits, as many whatever the nodes.
pub fn card_ports_bits(storeys: u32, ports: u32) -> u32
    ensures { result ≡ ports_bits storeys ports }
{
    let s = shape_of(storeys, 1, ports);
    if !is_numbered(s) {
        return 0;
    }
    bit_words(s) as u32
}

// The words of 32 bits.
pub fn card_ports_words(storeys: u32, nodes: u32, ports: u32) -> u32
    ensures { result ≡ ports_words storeys nodes ports }
{
    let s = shape_of(storeys, nodes, ports);
    if !is_numbered(s) {
        return 0;
    }
    store_words(s) as u32
}
