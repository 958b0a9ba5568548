// The steps between a lent slice of pending records and the by-value calls of the clocked tree: a record as the host keeps it, what is read of
// the records, how many are to be written after a call, and what each becomes.
#![tactic(auto)]

ghost use Rattle.std.specs.Prelude.{◌≡◌, cond, false, ◌-◌, ◌<◌, leb};
ghost use Rattle.tree_records.specs.Lent.{work_of, bare_record, laden_record, record_of, stands, handed};
ghost use Rattle.tree_records.specs.Steps.{word_limit, lends, reach, ended};

pub mod calls;
pub mod memory;

use strip::{Answer, Element, Refusal, element_of};
use tree_clock_level::records::is_idle;
use tree_clock_model::{RECORDS, State};
use tree_model::{Op, Work};

// A pending record as the host keeps it: kind 0 nothing, 1 put, 2 take, 3 swap; a node; an element's rank, tag and length. It stays in numbers,
// since C has it so.
#[repr(C)]
#[derive(Clone, Copy)]
pub struct Record {
    pub kind: u32,
    pub node: u32,
    pub rank: u32,
    pub tag: u32,
    pub length: u32,
}

// What was read of the records: the work of each, and whether all the kinds are kinds. It is no Option, since the works are promised where a
// kind is none too (`cycle_from`, `drain_from`).
#[derive(Clone, Copy)]
pub struct Read {
    pub works: [Work; RECORDS],
    pub ok: bool,
}

// What a by-value call has left: the state as it came back, its report, and how many records are to be written. The state stands in it as it is,
// so that it is copied once.
#[derive(Clone, Copy)]
pub struct Ended {
    pub state: State,
    pub answer: Answer,
    pub cycles: usize,
    pub left: bool,
    pub count: usize,
}

// ---- reading

// Whether some tree has so many levels, and a slice of so many records has one for each level from 2.
#[tactic(auto, unfolding(crate::specs::Steps::lends))]
pub fn is_lent(levels: usize, len: usize) -> bool
    ensures { result ≡ lends levels len }
{
    levels != 0 && levels - 1 <= RECORDS && levels - 1 <= len
}

// How many records are read.
#[tactic(auto, unfolding(crate::specs::Steps::lends))]
pub fn reached(levels: u32, len: usize) -> usize
    ensures { result ≡ reach levels len }
{
    let levels = levels as usize;
    if is_lent(levels, len) { levels - 1 } else { 0 }
}

// The work that a record holds; the numbers that its kind does not use are not read.
#[tactic(auto, unfolding(crate::specs::Lent::work_of))]
pub fn work_of(r: Record) -> Work
    ensures { result ≡ work_of r }
{
    let node = r.node as usize;
    let x = element_of(r.rank, r.tag, r.length);
    match r.kind {
        1 => Work {
            op: Op::Put(x),
            node,
        },
        2 => Work { op: Op::Take, node },
        3 => Work {
            op: Op::Swap(x),
            node,
        },
        // no cycle writes this number, so that it tells afterwards that the record stands
        _ => Work {
            op: Op::Nothing,
            node: 1,
        },
    }
}

// Whether a record's kind is one.
pub fn is_kind(r: Record) -> bool
    ensures { result ≡ leb r.kind 3 }
{
    r.kind <= 3
}

// ---- what a by-value call leaves

pub fn ended_by(answer: Answer, cycles: usize, left: bool, state: State, count: usize) -> Ended
    ensures { result ≡ ended answer cycles left state count }
{
    Ended {
        state,
        answer,
        cycles,
        left,
        count,
    }
}

pub fn refused(state: State) -> Ended
    ensures { result ≡ ended (Err Refusal.BadShape) 0 false state 0 }
{
    ended_by(Err(Refusal::BadShape), 0, false, state, 0)
}

// ---- writing

fn record_of(w: Work) -> Record
    requires { (record_of w).node < word_limit }
    ensures { result ≡ record_of w }
{
    match w.op {
        Op::Nothing => bare(0, 0),
        Op::Put(x) => laden(1, w.node as u32, x),
        Op::Take => bare(2, w.node as u32),
        Op::Swap(x) => laden(3, w.node as u32, x),
    }
}

// A record that carries no element.
fn bare(kind: u32, node: u32) -> Record
    ensures { result ≡ bare_record kind node }
{
    Record {
        kind,
        node,
        rank: 0,
        tag: 0,
        length: 0,
    }
}

// A record that carries one.
fn laden(kind: u32, node: u32, x: Element) -> Record
    ensures { result ≡ laden_record kind node x }
{
    Record {
        kind,
        node,
        rank: x.rank.0,
        tag: x.tag.0,
        length: x.length.0,
    }
}

fn is_standing(w: Work) -> bool
    ensures { result ≡ stands w }
{
    is_idle(w) && w.node != 0
}

// What a record of the host's becomes.
#[tactic(auto, unfolding(crate::specs::Lent::handed))]
pub fn returned(r: Record, w: Work) -> Record
    requires { (record_of w).node < word_limit }
    ensures { result ≡ handed r w }
{
    if is_standing(w) {
        return r;
    }
    record_of(w)
}
