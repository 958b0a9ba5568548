// All stages in one cycle, from the top storey down: every stage is tested, and only then each works at what waits for it. The old record is carried from
// one stage to the next, so that each finds what was pending at the cycle's start.
ghost use Rattle.std.specs.Prelude.{true, ◌≡◌, length};
ghost use Rattle.bucket_clock_model.specs.Desk.{desk, stages, stages_ok};
ghost use Rattle.bucket_model.specs.Layout.{word};
ghost use Rattle.promise.specs.Queue.{step};
ghost use Rattle.bucket_clock_step.specs.Stages.{Ready};

use crate::buckets::{bucket_ok, work_buckets};
use crate::storey::{storey_ok, work_storey};
use bucket_clock_model::{RECORDS, Waiting};
use bucket_model::Lay;
use strip::Element;

// What the stages leave: what leaves the queue, and the records.
#[derive(Clone, Copy)]
pub struct Ran {
    pub leaves: Option<Element>,
    pub records: [Waiting; RECORDS],
}

// Does every stage find its words in order? The top storey is handed g, each other stage the record above it.
pub fn stages_ok(
    bits: &[u64],
    counts: &[u32],
    words: &[u32],
    k: Lay,
    g: Waiting,
    records: [Waiting; RECORDS],
) -> bool
    requires { Ready k (length bits.now) (length counts.now) (length words.now) }
    ensures { result ≡ stages_ok k 0 k.storeys g (desk bits.now counts.now words.now records) }
{
    let mut ok = true;
    let mut work = g;
    let mut base = k.bits;
    let mut width = 1;
    for e in 0..k.storeys {
        ok &= storey_ok(bits, counts, k, base, width, k.storeys - e - 1, work);
        work = records[e];
        base += width;
        width *= 64;
    }
    ok & bucket_ok(words, k, work)
}

// Every stage works: the top storey at g, each other at what was pending above it. None writes the held count.
pub fn run_stages(
    bits: &mut [u64],
    counts: &mut [u32],
    words: &mut [u32],
    k: Lay,
    g: Waiting,
    records: [Waiting; RECORDS],
) -> Ran
    requires ready { Ready k (length bits.old) (length counts.old) (length words.old) }
    requires passes { stages_ok k 0 k.storeys g (desk bits.old counts.old words.old records) ≡ true }
    ensures is { step result.leaves (desk bits.new counts.new words.new result.records) ≡ stages k 0 k.storeys g (desk bits.old counts.old words.old records) }
    ensures held { word words.new k.held ≡ word words.old k.held }
{
    let mut left = records;
    let mut work = g;
    let mut base = k.bits;
    let mut width = 1;
    for e in 0..k.storeys {
        let next = left[e];
        left[e] = work_storey(bits, counts, k, base, width, k.storeys - e - 1, work);
        work = next;
        base += width;
        width *= 64;
    }
    let leaves = work_buckets(words, k, work);
    Ran {
        leaves,
        records: left,
    }
}
