// The clocked bucket queue for C and Rust: numbers and slices. The host lends its pending records, structs of five words each. A cycle reads the records, has
// the cycle made on what was read, and writes the records back.
#![tactic(auto)]

ghost use Rattle.std.specs.Prelude.{cond, ◌≡◌};
ghost use Rattle.card_words.specs.Out.{count_after, Long};
ghost use Rattle.card_bucket_clock.specs.Calls.{clock_after, clock_after_out, clock_clear, clock_counts, clock_cycle, clock_held_at, leaves_out, leaves_told, leave_words};

use bucket_clock::{clear, cycle, fresh_records, held};
use bucket_clock_records::{hand_back, is_lent, load};
use card_words::{request_of, tell_count};
use strip::{Element, has_run, no_element, number};

// The words of what leaves: 1 or 0, then rank, tag and length.
pub const LEAVES: usize = 4;

// ---- what `out` receives

fn tell_element(out: &mut [u32], some: u32, x: Element)
    requires { Long leave_words out.old }
    ensures { out.new ≡ leaves_out some x out.old }
{
    let rank = x.rank.0;
    let tag = x.tag.0;
    let length = x.length.0;
    out[0] = some;
    out[1] = rank;
    out[2] = tag;
    out[3] = length;
}

// An element that leaves, or that none does.
fn tell_leaves(out: &mut [u32], leaves: Option<Element>)
    requires { Long leave_words out.old }
    ensures { out.new ≡ leaves_told leaves out.old }
{
    match leaves {
        None => tell_element(out, 0, no_element()),
        Some(x) => tell_element(out, 1, x),
    }
}

// How many records are written back: one for each storey where a cycle ran, and else none.
fn records_due(ran: bool, storeys: usize) -> usize
    ensures { result ≡ cond ran storeys 0 }
{
    if ran {
        return storeys;
    }
    0
}

// ---- the calls

// The least number of counts, and 0 where no queue has so many storeys.
pub fn card_bucket_clock_counts(storeys: u32) -> u32
    ensures { result ≡ clock_counts storeys }
{
    if storeys == 2 {
        return 4160;
    }
    if storeys == 3 {
        return 266304;
    }
    0
}

// It reads no record.
pub fn card_bucket_clock_clear(
    bits: &mut [u64],
    words: &mut [u32],
    counts: &mut [u32],
    storeys: u32,
    nodes: u32,
    records: &mut [[u32; 5]],
) -> u32
    ensures { clock_after result bits.new words.new counts.new records.new ≡ clock_clear storeys nodes bits.old words.old counts.old records.old }
{
    let s = storeys as usize;
    if !is_lent(s, records.len()) {
        return 1;
    }
    let none = fresh_records();
    let c = clear(bits, words, counts, s, nodes, none);
    let answer = c.answer;
    let works = c.records;
    let due = records_due(has_run(answer), s);
    hand_back(records, works, due);
    number(answer)
}

pub fn card_bucket_clock_cycle(
    bits: &mut [u64],
    words: &mut [u32],
    counts: &mut [u32],
    storeys: u32,
    nodes: u32,
    records: &mut [[u32; 5]],
    request: u32,
    rank: u32,
    tag: u32,
    length: u32,
    out: &mut [u32],
) -> u32
    ensures { clock_after_out result bits.new words.new counts.new records.new out.new ≡ clock_cycle storeys nodes bits.old words.old counts.old records.old request rank tag length out.old }
{
    if out.len() < LEAVES {
        return 1;
    }
    let s = storeys as usize;
    let read = load(records, s);
    let works = read.works;
    if !(read.ok & (request <= 3)) {
        tell_leaves(out, None);
        return 1;
    }
    let q = request_of(request, rank, tag, length);
    let c = cycle(bits, words, counts, s, nodes, works, q);
    let answer = c.answer;
    let leaves = c.leaves;
    let left = c.records;
    tell_leaves(out, leaves);
    let due = records_due(has_run(answer), s);
    hand_back(records, left, due);
    number(answer)
}

// Reads the held word alone, and no record.
pub fn card_bucket_clock_held(
    bits: &[u64],
    words: &[u32],
    counts: &[u32],
    storeys: u32,
    nodes: u32,
    out: &mut [u32],
) -> u32
    ensures { count_after result out.new ≡ clock_held_at storeys nodes bits.now words.now counts.now out.old }
{
    if out.len() < 1 {
        return 1;
    }
    let count = held(bits, words, counts, storeys as usize, nodes);
    tell_count(out, count)
}
