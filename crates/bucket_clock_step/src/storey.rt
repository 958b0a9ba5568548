// One storey of bits, with a count for each bit. Its first word is word `base`, it has `words` of them, and its counts begin at count 64 × base: 64 for each
// word. `d` storeys are below it.
ghost use Rattle.std.specs.Prelude.{Some, true, ◌≡◌, ◌*◌, ◌<◌, length};
ghost use Rattle.bucket_clock_model.specs.Pipe.{lead};
ghost use Rattle.bucket_clock_model.specs.Words.{floor, put_if_ok, put_ok, storey_ok, storey_put, storey_take, take_ok, way_below};
ghost use Rattle.bucket_clock_step.specs.Storey.{Falls, Floored, Here, place, Rises, Worked};

use bucket_bits::word_or;
use bucket_clock_model::{Waiting, no_work};
use bucket_model::Lay;
use strip::{Element, Request};

// ---- the tests

// Where a rank's bit is: the rank without its last d digits.
pub fn lead_of(rank: u32, d: usize) -> usize
    ensures { result ≡ lead d rank }
{
    let mut j = rank as usize;
    for _ in 0..d {
        j /= 64;
    }
    j
}

// D3: a pop that has come this way.
fn take_ok(bits: &[u64], counts: &[u32], n: u32, base: usize, words: usize, way: usize) -> bool
    requires { Floored base words (length bits.now) (length counts.now) }
    ensures { result ≡ take_ok n (place base words) way (floor bits.now counts.now) }
{
    if words <= way {
        return false;
    }
    let word = bits[base + way];
    if word == 0 {
        return false;
    }
    let low = bitmap::lowest(word);
    let c = counts[64 * base + (64 * way + low)];
    (c != 0) & (c <= n)
}

// D2: a push below bit j.
fn put_ok(bits: &[u64], counts: &[u32], n: u32, base: usize, words: usize, j: usize) -> bool
    requires floored { Floored base words (length bits.now) (length counts.now) }
    requires place_in { j < 64 * words }
    ensures { result ≡ put_ok n (place base words) j (floor bits.now counts.now) }
{
    let c = counts[64 * base + j];
    let on = bitmap::bit(bits[base + j / 64], j % 64);
    ((c == 0) != on) & (c < n)
}

// D2 on the words as after the pop that has come this way, which is not done yet.
fn put_after_ok(
    bits: &[u64],
    counts: &[u32],
    n: u32,
    base: usize,
    words: usize,
    way: usize,
    j: usize,
) -> bool
    requires floored { Floored base words (length bits.now) (length counts.now) }
    requires place_in { j < 64 * words }
    requires falls { Falls (place base words) way (floor bits.now counts.now) }
    ensures { result ≡ put_ok n (place base words) j (storey_take (place base words) (way_below (place base words) bits.now way) (floor bits.now counts.now)) }
{
    let word = bits[base + way];
    let low = bitmap::lowest(word);
    let m = 64 * way + low;
    let taken = counts[64 * base + m];
    let left = bitmap::without(word, low, taken == 1);
    let own = word_or(bits, base + j / 64, j / 64 == way, left);
    let c = word_or(counts, 64 * base + j, j == m, taken - 1);
    let on = bitmap::bit(own, j % 64);
    ((c == 0) != on) & (c < n)
}

// A push: its rank is one of the ranks, and D2.
fn push_ok(
    bits: &[u64],
    counts: &[u32],
    k: Lay,
    base: usize,
    words: usize,
    d: usize,
    x: Element,
) -> bool
    requires { Here k base words d (length bits.now) (length counts.now) }
    ensures { result ≡ put_if_ok k (place base words) d (Some x) (floor bits.now counts.now) }
{
    let rank = x.rank.0;
    if k.ranks <= rank {
        return false;
    }
    let j = lead_of(rank, d);
    put_ok(bits, counts, k.nodes, base, words, j)
}

// A replace: the pop's tests, and then the push's on the words as after the pop.
fn replace_ok(
    bits: &[u64],
    counts: &[u32],
    k: Lay,
    base: usize,
    words: usize,
    d: usize,
    way: u32,
    x: Element,
) -> bool
    requires { Here k base words d (length bits.now) (length counts.now) }
    ensures { result ≡ storey_ok k (place base words) d (Request.Replace x) way (floor bits.now counts.now) }
{
    let rank = x.rank.0;
    let way = way as usize;
    if !take_ok(bits, counts, k.nodes, base, words, way) {
        return false;
    }
    if k.ranks <= rank {
        return false;
    }
    let j = lead_of(rank, d);
    put_after_ok(bits, counts, k.nodes, base, words, way, j)
}

// What waits for the storey finds its words in order.
pub fn storey_ok(
    bits: &[u64],
    counts: &[u32],
    k: Lay,
    base: usize,
    words: usize,
    d: usize,
    g: Waiting,
) -> bool
    requires { Here k base words d (length bits.now) (length counts.now) }
    ensures { result ≡ storey_ok k (place base words) d g.does g.way (floor bits.now counts.now) }
{
    match g.does {
        Request::Idle => true,
        Request::Push(x) => push_ok(bits, counts, k, base, words, d, x),
        Request::Pop => take_ok(bits, counts, k.nodes, base, words, g.way as usize),
        Request::Replace(y) => replace_ok(bits, counts, k, base, words, d, g.way, y),
    }
}

// ---- the work

// The lowest set bit of the word that the way names: its count falls by one, and at 0 the bit is cleared. Answers the way below.
fn storey_take(bits: &mut [u64], counts: &mut [u32], base: usize, words: usize, way: usize) -> usize
    requires floored { Floored base words (length bits.old) (length counts.old) }
    requires falls { Falls (place base words) way (floor bits.old counts.old) }
    ensures { (floor bits.new counts.new ≡ storey_take (place base words) (way_below (place base words) bits.old way) (floor bits.old counts.old)) × (result ≡ way_below (place base words) bits.old way) × (result < 64 * words) }
{
    let word = bits[base + way];
    let low = bitmap::lowest(word);
    let m = 64 * way + low;
    let left = counts[64 * base + m] - 1;
    let bare = bitmap::without(word, low, left == 0);
    counts[64 * base + m] = left;
    bits[base + way] = bare;
    m
}

// The count of bit j rises by one, and the bit is set.
fn storey_put(bits: &mut [u64], counts: &mut [u32], base: usize, words: usize, j: usize)
    requires floored { Floored base words (length bits.old) (length counts.old) }
    requires place_in { j < 64 * words }
    requires rises { Rises (place base words) j (floor bits.old counts.old) }
    ensures { floor bits.new counts.new ≡ storey_put (place base words) j (floor bits.old counts.old) }
{
    let n = counts[64 * base + j];
    let full = bitmap::with(bits[base + j / 64], j % 64, n == 0);
    counts[64 * base + j] = n + 1;
    bits[base + j / 64] = full;
}

// The storey works at what waits for it. Answers what then waits below it.
pub fn work_storey(
    bits: &mut [u64],
    counts: &mut [u32],
    k: Lay,
    base: usize,
    words: usize,
    d: usize,
    g: Waiting,
) -> Waiting
    requires here { Here k base words d (length bits.old) (length counts.old) }
    requires passes { storey_ok k (place base words) d g.does g.way (floor bits.old counts.old) ≡ true }
    ensures { Worked (place base words) d g (floor bits.old counts.old) (floor bits.new counts.new) result }
{
    match g.does {
        Request::Idle => no_work(),
        Request::Push(x) => {
            let j = lead_of(x.rank.0, d);
            storey_put(bits, counts, base, words, j);
            Waiting {
                does: Request::Push(x),
                way: 0,
            }
        }
        Request::Pop => {
            let m = storey_take(bits, counts, base, words, g.way as usize);
            Waiting {
                does: Request::Pop,
                way: m as u32,
            }
        }
        Request::Replace(y) => {
            let m = storey_take(bits, counts, base, words, g.way as usize);
            let j = lead_of(y.rank.0, d);
            storey_put(bits, counts, base, words, j);
            Waiting {
                does: Request::Replace(y),
                way: m as u32,
            }
        }
    }
}
