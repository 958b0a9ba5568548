// The bucket queue's bits: storeys of 64-bit words above one another, as many as there are, the top word first.
//
// The words are numbered from the top one, 0, on, and past the last of them the ranks: with `tower` words, rank r is number
// tower + r. Bit k of word w tells of number 64 w + k + 1, so the way up from number i leads to bit (i - 1) % 64 of word
// (i - 1) / 64, however many storeys there are.
#![tactic(auto)]

ghost use Rattle.std.specs.Prelude.{◌≡◌, true, false, cond, ◌&&◌, ◌+◌, ◌≤◌, ◌<◌, ◌^◌, length, set, HoldsAt};
ghost use Rattle.bucket_model.specs.Layout.{word};
ghost use Rattle.bucket_model.specs.Storeys.{storeys_from, switched, tells_above, edit};
ghost use Rattle.bucket_model.specs.Calls.{fill};
ghost use Rattle.bucket_bits.specs.Climbs.{Tall, Switchable, Switching, Signalling, Leads, Agreed, climbed, Climbable};

// The way up from a rank, on the bits as after a pop: whether the pop clears a bit in the next storey; whether what is below
// the next bit is empty; and the last word read.
#[derive(Clone, Copy)]
pub struct Climb {
    pub clears: bool,
    pub empty: bool,
    pub top: u64,
}

// ---- down

// The lowest rank: from the top word down, the lowest set bit names the next word. None where a word on the way is 0.
pub fn lowest_rank(bits: &[u64], base: usize, storeys: usize, tower: usize) -> Option<u32>
    requires { Tall bits.now base storeys tower }
    ensures { Leads bits.now base storeys result }
{
    let mut i = 0;
    for _ in 0..storeys {
        let word = bits[base + i];
        if word == 0 {
            return None;
        }
        i = 64 * i + 1 + bitmap::lowest(word);
    }
    Some((i - tower) as u32)
}

// ---- up, writing

// Sets or clears one bit, where it changes. Answers whether its word was 0, or is 0 now, so that the storey above hears of it;
// a bit that does not change is set, so that its word is not 0. No closures for `on`: `edit` and `switched` go by it.
fn switch(bits: &mut [u64], on: bool, changes: bool, at: usize, k: usize) -> bool
    requires { Switching bits.old on changes at k }
    ensures { (bits.new ≡ cond changes (set bits.old at (switched on (word bits.old at) k)) bits.old) × (result ≡ (changes && tells_above on (word bits.old at) (switched on (word bits.old at) k))) }
{
    let word = bits[at];
    if on {
        bits[at] = bitmap::with(word, k, changes);
        return word == 0;
    }
    let left = bitmap::without(word, k, changes);
    bits[at] = left;
    left == 0
}

// The bits of a rank, where its bucket was empty and no longer is, or is empty now and was not. The lowest storey's word is
// written in any case: whether a bucket changes so can often not be foretold, whether a whole word does mostly can. Inline: see `bucket_step::swap`.
#[inline(always)]
pub fn signal(
    bits: &mut [u64],
    on: bool,
    changes: bool,
    base: usize,
    storeys: usize,
    tower: usize,
    rank: u32,
)
    requires tall { Tall bits.old base storeys tower }
    requires rank_in { rank < 64 ^ storeys }
    requires signalling { Signalling on changes bits.old (storeys_from base storeys) rank }
    ensures { bits.new ≡ cond changes (edit on bits.old (storeys_from base storeys) rank) bits.old }
{
    let low = tower + rank as usize - 1;
    let mut more = switch(bits, on, changes, base + low / 64, low % 64);
    let mut i = low / 64;
    for _ in 1..storeys {
        if !more {
            return;
        }
        let bit = i - 1;
        more = switch(bits, on, true, base + bit / 64, bit % 64);
        i = bit / 64;
    }
}

// The first words, all 0.
pub fn wipe(bits: &mut [u64], end: usize)
    requires { end ≤ length bits.old }
    ensures { bits.new ≡ fill (λ j. 0) end bits.old }
{
    bits[..end].fill(0);
}

// ---- up, reading what will stand after a pop that is not done yet

// The word at place `at`, or the one that is known where it is the same.
pub fn word_or<T: Copy>(words: &[T], at: usize, same: bool, known: T) -> T
    requires { at < length words.now }
    ensures { HoldsAt (λ v. result ≡ cond same known v) words.now at }
{
    if same {
        return known;
    }
    words[at]
}

// One storey: the pop's bit there is number gone, the rank's is number own. None where that does not agree with what is below it.
fn climb_one(bits: &[u64], base: usize, c: Climb, gone: usize, own: usize) -> Option<Climb>
    requires { Climbable bits.now base c.clears gone own }
    ensures { result ≡ climbed bits.now base c gone own }
{
    let left = bitmap::without(bits[base + gone / 64], gone % 64, c.clears);
    let word = word_or(bits, base + own / 64, gone / 64 == own / 64, left);
    if c.empty == bitmap::bit(word, own % 64) {
        return None;
    }
    Some(Climb {
        clears: c.clears & (left == 0),
        empty: word == 0,
        top: word,
    })
}

// Whether the bits of rank own agree with what is below them, a bucket that is empty or not and then the words, once the bits
// of rank gone are cleared where its pop clears them: the top word then, where all agree.
pub fn agreement(
    bits: &[u64],
    base: usize,
    storeys: usize,
    tower: usize,
    clears: bool,
    gone: u32,
    empty: bool,
    own: u32,
) -> Option<u64>
    requires tall { Tall bits.now base storeys tower }
    requires gone_in { gone < 64 ^ storeys }
    requires own_in { own < 64 ^ storeys }
    requires switchable { (clears ≡ true → Switchable false bits.now (storeys_from base storeys) gone) }
    ensures { Agreed bits.now base storeys clears gone empty own result }
{
    let mut c = Climb {
        clears,
        empty,
        top: 0,
    };
    let mut g = tower + gone as usize;
    let mut i = tower + own as usize;
    for _ in 0..storeys {
        c = climb_one(bits, base, c, g - 1, i - 1)?;
        g = (g - 1) / 64;
        i = (i - 1) / 64;
    }
    Some(c.top)
}
