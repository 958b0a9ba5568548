// The clocked lines' calls over a record in the host's own memory: what is read of it, the by-value call on that, and what is written back. A
// record as the host keeps it is five words: kind 0 nothing, 1 push, 2 pop, 3 replace; a line; an element's rank, tag and length.
#![tactic(auto)]

ghost use Rattle.std.specs.Prelude.{◌≡◌, ◌<◌};
ghost use Rattle.lines_records.specs.Lent.{bare_record, laden_record, lent_cleared, lent_cycled, lent_drain, lent_drains, lent_outcome, line_in, pending_of, readable, record_of, word_limit};

use lines_clock::{clear, cycle, drain};
use lines_model::{Due, Rows};
use strip::{Answer, Element, Refusal, Request, element_of, has_run};

// What a drain reports: its answer, the cycles that it ran, whether work is left.
#[derive(Clone, Copy)]
pub struct LinesReport {
    pub answer: Answer,
    pub cycles: u32,
    pub left: bool,
}

// ---- reading

// Whether there is a record, and its kind is one.
fn is_readable(records: &[[u32; 5]]) -> bool
    ensures { result ≡ readable records.now }
{
    !records.is_empty() && records[0][0] <= 3
}

// What a record holds; the numbers that its kind does not use are not read.
fn pending_of(r: [u32; 5]) -> Due
    ensures { result ≡ pending_of r }
{
    let line = r[1] as usize;
    let x = element_of(r[2], r[3], r[4]);
    match r[0] {
        1 => Due::Put(line, x),
        2 => Due::Take(line),
        3 => Due::Swap(line, x),
        _ => Due::Rest,
    }
}

// ---- writing

// A record as it is written: 0 for what its kind does not use.
fn record_of(due: Due) -> [u32; 5]
    requires { line_in (record_of due) < word_limit }
    ensures { result ≡ record_of due }
{
    // each arm hands over other values: a closure for the step would be no plainer
    match due {
        Due::Rest => bare(0, 0),
        Due::Put(l, x) => laden(1, l as u32, x),
        Due::Take(l) => bare(2, l as u32),
        Due::Swap(l, x) => laden(3, l as u32, x),
    }
}

// A record that carries no element.
fn bare(kind: u32, line: u32) -> [u32; 5]
    ensures { result ≡ bare_record kind line }
{
    [kind, line, 0, 0, 0]
}

// A record that carries one.
fn laden(kind: u32, line: u32, x: Element) -> [u32; 5]
    ensures { result ≡ laden_record kind line x }
{
    [kind, line, x.rank.0, x.tag.0, x.length.0]
}

// ---- the calls

// One cycle. The record is written where the cycle ran.
pub fn cycle_lent(store: &mut [u32], k: Rows, records: &mut [[u32; 5]], request: Request) -> Answer
    ensures { lent_outcome result store.new records.new ≡ lent_cycled k records.old store.old request }
{
    if !is_readable(records) {
        return Err(Refusal::BadShape);
    }
    let due = pending_of(records[0]);
    let c = cycle(store, k, due, request);
    if has_run(c.answer) {
        records[0] = record_of(c.state);
    }
    c.answer
}

// A drain. The record is written where a cycle was run.
pub fn drain_lent(store: &mut [u32], k: Rows, records: &mut [[u32; 5]], budget: u32) -> LinesReport
    ensures { lent_drain result.answer result.cycles result.left store.new records.new ≡ lent_drains k records.old store.old budget }
{
    if !is_readable(records) {
        return LinesReport {
            answer: Err(Refusal::BadShape),
            cycles: 0,
            left: false,
        };
    }
    let due = pending_of(records[0]);
    let d = drain(store, k, due, budget);
    if d.cycles != 0 {
        records[0] = record_of(d.state);
    }
    LinesReport {
        answer: d.answer,
        cycles: d.cycles,
        left: d.left,
    }
}

// Clear: it asks that there is a record, and reads none.
pub fn clear_lent(store: &mut [u32], k: Rows, records: &mut [[u32; 5]]) -> Answer
    ensures { lent_outcome result store.new records.new ≡ lent_cleared k records.old store.old }
{
    if records.is_empty() {
        return Err(Refusal::BadShape);
    }
    let c = clear(store, k, Due::Rest);
    if has_run(c.answer) {
        records[0] = bare(0, 0);
    }
    c.answer
}
