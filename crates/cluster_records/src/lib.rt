// The steps between a lent slice of pending records and the by-value calls of the clocked cluster heap: what is read of a record, and what is written. A
// record as the host keeps it is six words: kind 0 nothing, 1 put, 2 fill, 3 swap; a node and a place of it; an element's rank, tag and length.
#![tactic(auto)]

ghost use Rattle.std.specs.Prelude.{◌≡◌, false, leb};
ghost use Rattle.cluster_records.specs.Lent.{kind_in, stage_of, bare_record, laden_record, record_of};
ghost use Rattle.cluster_records.specs.Steps.{lends, reach, ended_by, Written};

pub mod calls;
pub mod memory;

use cluster_clock_level::no_stage;
use cluster_clock_model::{Due, STAGES, Stage};
use strip::{Answer, Element, Refusal, element_of};

// What was read of the records: what each holds, and whether all the kinds are kinds.
// The flag stands beside the stages: a call that is refused answers with them as they were read (`cycle_from`).
#[derive(Clone, Copy)]
pub struct ClusterRead {
    pub stages: [Stage; STAGES],
    pub ok: bool,
}

// What a by-value call has left: the records, its report, and how many records are to be written.
#[derive(Clone, Copy)]
pub struct ClusterEnded {
    pub stages: [Stage; STAGES],
    pub answer: Answer,
    pub cycles: usize,
    pub left: bool,
    pub count: usize,
}

// ---- reading

// Whether some heap has so many levels, and a slice of so many records has one for each level from 2.
pub fn is_lent(levels: usize, len: usize) -> bool
    ensures { result ≡ lends levels len }
{
    if levels == 0 {
        return false;
    }
    (levels - 1 <= STAGES) & (levels - 1 <= len)
}

// How many records are read.
pub fn reached(levels: usize, len: usize) -> usize
    ensures { result ≡ reach levels len }
{
    if is_lent(levels, len) {
        return levels - 1;
    }
    0
}

// What a record holds; the numbers that its kind does not use are not read.
pub fn stage_of(r: [u32; 6]) -> Stage
    ensures { result ≡ stage_of r }
{
    let node = r[1] as usize;
    let place = r[2] as usize;
    let x = element_of(r[3], r[4], r[5]);
    let due = match r[0] {
        1 => Due::Put(x),
        2 => Due::Fill(place),
        3 => Due::Swap(place, x),
        _ => return no_stage(),
    };
    Stage { due, node }
}

// Whether a record's kind is one.
pub fn is_kind(r: [u32; 6]) -> bool
    ensures { result ≡ leb (kind_in r) 3 }
{
    r[0] <= 3
}

// ---- what a call has left

pub fn ended_by(
    answer: Answer,
    cycles: usize,
    left: bool,
    stages: [Stage; STAGES],
    count: usize,
) -> ClusterEnded
    ensures { result ≡ ended_by answer cycles left stages count }
{
    ClusterEnded {
        stages,
        answer,
        cycles,
        left,
        count,
    }
}

pub fn refused(stages: [Stage; STAGES]) -> ClusterEnded
    ensures { result ≡ ended_by (Err Refusal.BadShape) 0 false stages 0 }
{
    ended_by(Err(Refusal::BadShape), 0, false, stages, 0)
}

// ---- writing

// A record as it is written: 0 for what its kind does not use.
pub fn record_of(q: Stage) -> [u32; 6]
    requires { Written q }
    ensures { result ≡ record_of q }
{
    match q.due {
        Due::Nothing => bare(0, 0, 0),
        Due::Put(y) => laden(1, q.node as u32, 0, y),
        Due::Fill(j) => bare(2, q.node as u32, j as u32),
        Due::Swap(j, x) => laden(3, q.node as u32, j as u32, x),
    }
}

// A record that carries no element.
fn bare(kind: u32, node: u32, place: u32) -> [u32; 6]
    ensures { result ≡ bare_record kind node place }
{
    [kind, node, place, 0, 0, 0]
}

// A record that carries one.
fn laden(kind: u32, node: u32, place: u32, x: Element) -> [u32; 6]
    ensures { result ≡ laden_record kind node place x }
{
    [kind, node, place, x.rank.0, x.tag.0, x.length.0]
}
