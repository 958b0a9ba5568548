// The bucket queue by clock cycles, over three lent slices, words of 64 bits, words of 32 and the counts, with records that go by value: one behind each
// storey. An operation may be asked for in every cycle: nothing is ever too soon, and what leaves belongs to the request of `storeys` cycles ago.
#![tactic(auto)]

ghost use Rattle.std.specs.Prelude.{cond, ◌&&◌, ◌≡◌, leb, length};
ghost use Rattle.strip.specs.declared.Refusal.TheVariants.{Damaged};
ghost use Rattle.bucket_clock_model.specs.Clock.{held_after};
ghost use Rattle.bucket_clock_model.specs.Desk.{clock_cleared, count_words, cycle_done, cycled, cycle_ok, cycle_outcome, cycle_still, desk, fresh, rule_now};
ghost use Rattle.std.specs.Prelude.{None};
ghost use Rattle.bucket_clock_step.specs.Stages.{Ready};
ghost use Rattle.bucket_model.specs.Checks.{shape_ok};
ghost use Rattle.bucket_model.specs.Layout.{queue};
ghost use Rattle.bucket_clock.specs.Rules.{Counts, HeldIs, Rules};

use bucket_bits::wipe;
use bucket_clock_model::{BucketCycled, RECORDS, Waiting, no_work};
use bucket_clock_step::stages::{run_stages, stages_ok};
use bucket_model::Lay;
use bucket_node::{held_count, queue_of, wipe_words};
use bucket_step::tests::{is_deep, is_shaped};
use strip::{Answer, Element, Refusal, Request, asks_something, is_untagged};

// ---- a request

// What a request comes to: its answer, and what goes into the top storey. No Result: `Rules` promises what goes in where it is refused too.
#[derive(Clone, Copy)]
pub struct Ruled {
    pub answer: Answer,
    pub op: Request,
}

// A refused request's cycle runs as an idle one.
fn refuse(r: Refusal) -> Ruled
    ensures { (result.answer ≡ Err r) × (result.op ≡ Request.Idle) }
{
    Ruled {
        answer: Err(r),
        op: Request::Idle,
    }
}

// 4, 7, then 5.
fn rule_push(k: Lay, held: u32, x: Element) -> Ruled
    ensures { Rules k (Request.Push x) held result }
{
    if k.ranks <= x.rank.0 {
        return refuse(Refusal::BadRank);
    }
    if is_untagged(x) {
        return refuse(Refusal::NoTag);
    }
    if k.nodes <= held {
        return refuse(Refusal::Full);
    }
    Ruled {
        answer: Ok(None),
        op: Request::Push(x),
    }
}

// 6.
fn rule_pop(k: Lay, held: u32) -> Ruled
    ensures { Rules k Request.Pop held result }
{
    if held == 0 {
        return refuse(Refusal::Empty);
    }
    Ruled {
        answer: Ok(None),
        op: Request::Pop,
    }
}

// 4, 7, then 6.
fn rule_replace(k: Lay, held: u32, x: Element) -> Ruled
    ensures { Rules k (Request.Replace x) held result }
{
    if k.ranks <= x.rank.0 {
        return refuse(Refusal::BadRank);
    }
    if is_untagged(x) {
        return refuse(Refusal::NoTag);
    }
    if held == 0 {
        return refuse(Refusal::Empty);
    }
    Ruled {
        answer: Ok(None),
        op: Request::Replace(x),
    }
}

fn rule(k: Lay, held: u32, request: Request) -> Ruled
    ensures { Rules k request held result }
{
    // each arm hands over other values: a closure for the step would be no plainer
    match request {
        Request::Idle => Ruled {
            answer: Ok(None),
            op: Request::Idle,
        },
        Request::Push(x) => rule_push(k, held, x),
        Request::Pop => rule_pop(k, held),
        Request::Replace(y) => rule_replace(k, held, y),
    }
}

// How many are held after a request that goes in.
fn held_after(n: u32, op: Request, held: u32) -> u32
    requires { Counts n op held }
    ensures { result ≡ held_after op held }
{
    match op {
        Request::Idle => held,
        Request::Push(_) => held + 1,
        Request::Pop => held - 1,
        Request::Replace(_) => held,
    }
}

// ---- a cycle

fn left_as(refusal: Refusal, records: [Waiting; RECORDS]) -> BucketCycled
    ensures { (result.answer ≡ Err refusal) × (result.leaves ≡ None) × (result.records ≡ records) }
{
    BucketCycled {
        answer: Err(refusal),
        leaves: None,
        records,
    }
}

// All tests come before the first write. Held changes in the request's own cycle.
fn cycle_shaped(
    bits: &mut [u64],
    words: &mut [u32],
    counts: &mut [u32],
    k: Lay,
    records: [Waiting; RECORDS],
    request: Request,
) -> BucketCycled
    requires { Ready k (length bits.old) (length counts.old) (length words.old) }
    ensures { cycle_outcome result.answer result.leaves (desk bits.new counts.new words.new result.records) ≡ cond (cycle_ok k request (desk bits.old counts.old words.old records)) (cycle_done k (rule_now k request (desk bits.old counts.old words.old records)) (desk bits.old counts.old words.old records)) (cycle_still (desk bits.old counts.old words.old records) Damaged) }
{
    let held = held_count(words, k);
    let ruled = rule(k, held, request);
    let first = Waiting {
        does: ruled.op,
        way: 0,
    };
    if asks_something(request) & (k.nodes < held) {
        return left_as(Refusal::Damaged, records);
    }
    if !stages_ok(bits, counts, words, k, first, records) {
        return left_as(Refusal::Damaged, records);
    }
    let ran = run_stages(bits, counts, words, k, first, records);
    words[k.held] = held_after(k.nodes, ruled.op, held);
    let left = ran.records; // a variable, since an array of another struct's cannot be put into a literal straight
    BucketCycled {
        answer: ruled.answer,
        leaves: ran.leaves,
        records: left,
    }
}

// Whether there is a queue of so many storeys and nodes, and the slices are long enough for it.
fn is_lent(bits: &[u64], words: &[u32], counts: &[u32], storeys: usize, n: u32) -> bool
    ensures { result ≡ (shape_ok (queue storeys n) (length bits.now) (length words.now) && leb (count_words (queue storeys n)) (length counts.now)) }
{
    if !is_deep(storeys) {
        return false;
    }
    let k = queue_of(storeys, n);
    is_shaped(bits, words, k) & (64 * (k.bits + k.tower) <= counts.len())
}

// One cycle with this request, or idle.
pub fn cycle(
    bits: &mut [u64],
    words: &mut [u32],
    counts: &mut [u32],
    storeys: usize,
    n: u32,
    records: [Waiting; RECORDS],
    request: Request,
) -> BucketCycled
    ensures { cycle_outcome result.answer result.leaves (desk bits.new counts.new words.new result.records) ≡ cycled (queue storeys n) request (desk bits.old counts.old words.old records) }
{
    if !is_lent(bits, words, counts, storeys, n) {
        return left_as(Refusal::BadShape, records);
    }
    let k = queue_of(storeys, n);
    cycle_shaped(bits, words, counts, k, records, request)
}

pub fn push(
    bits: &mut [u64],
    words: &mut [u32],
    counts: &mut [u32],
    storeys: usize,
    n: u32,
    records: [Waiting; RECORDS],
    x: Element,
) -> BucketCycled
    ensures { cycle_outcome result.answer result.leaves (desk bits.new counts.new words.new result.records) ≡ cycled (queue storeys n) (Request.Push x) (desk bits.old counts.old words.old records) }
{
    cycle(bits, words, counts, storeys, n, records, Request::Push(x))
}

pub fn pop(
    bits: &mut [u64],
    words: &mut [u32],
    counts: &mut [u32],
    storeys: usize,
    n: u32,
    records: [Waiting; RECORDS],
) -> BucketCycled
    ensures { cycle_outcome result.answer result.leaves (desk bits.new counts.new words.new result.records) ≡ cycled (queue storeys n) Request.Pop (desk bits.old counts.old words.old records) }
{
    cycle(bits, words, counts, storeys, n, records, Request::Pop)
}

pub fn replace(
    bits: &mut [u64],
    words: &mut [u32],
    counts: &mut [u32],
    storeys: usize,
    n: u32,
    records: [Waiting; RECORDS],
    x: Element,
) -> BucketCycled
    ensures { cycle_outcome result.answer result.leaves (desk bits.new counts.new words.new result.records) ≡ cycled (queue storeys n) (Request.Replace x) (desk bits.old counts.old words.old records) }
{
    cycle(
        bits,
        words,
        counts,
        storeys,
        n,
        records,
        Request::Replace(x),
    )
}

// ---- clear and held

// Nothing pending, for a machine that was never used.
pub fn fresh_records() -> [Waiting; RECORDS]
    ensures { result ≡ fresh }
{
    [no_work(); RECORDS]
}

// An empty machine, whatever the slices held before. Refused, the records that were handed over come back.
pub fn clear(
    bits: &mut [u64],
    words: &mut [u32],
    counts: &mut [u32],
    storeys: usize,
    n: u32,
    records: [Waiting; RECORDS],
) -> BucketCycled
    ensures { cycle_outcome result.answer result.leaves (desk bits.new counts.new words.new result.records) ≡ clock_cleared (queue storeys n) (desk bits.old counts.old words.old records) }
{
    if !is_lent(bits, words, counts, storeys, n) {
        return left_as(Refusal::BadShape, records);
    }
    let k = queue_of(storeys, n);
    wipe(bits, k.bits + k.tower);
    counts[..64 * (k.bits + k.tower)].fill(0);
    wipe_words(words, k);
    let none = fresh_records();
    BucketCycled {
        answer: Ok(None),
        leaves: None,
        records: none,
    }
}

// How many are held, in the middle of any work too: the held word, and no record is read.
pub fn held(
    bits: &[u64],
    words: &[u32],
    counts: &[u32],
    storeys: usize,
    n: u32,
) -> Result<u32, Refusal>
    ensures { HeldIs (queue storeys n) bits.now counts.now words.now result }
{
    if !is_lent(bits, words, counts, storeys, n) {
        return Err(Refusal::BadShape);
    }
    let k = queue_of(storeys, n);
    let held = held_count(words, k);
    if k.nodes < held {
        return Err(Refusal::Damaged);
    }
    Ok(held)
}
