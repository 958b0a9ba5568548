// The by-value calls of the clocked tree on what was read of a lent slice of records, and how many records are then to be written.
ghost use Rattle.std.specs.Prelude.{◌≡◌};
ghost use Rattle.tree_records.specs.Steps.{cycle_from, drain_from, clear_from, ended_cycle, ended_drain};

use crate::{Ended, Read, ended_by, is_lent, refused};
use strip::{Request, due, has_run};
use tree_clock::{clear, cycle, drain, fresh_state};
use tree_clock_model::State;

// One cycle on what was read of a slice of `len` records.
pub fn cycle_read(
    store: &mut [u32],
    order: usize,
    levels: usize,
    len: usize,
    read: Read,
    mark: bool,
    request: Request,
) -> Ended
    ensures { (store.new ≡ (cycle_from order levels len mark store.old read request).words) × (result ≡ ended_cycle levels (cycle_from order levels len mark store.old read request)) }
{
    let works = read.works; // tried in place: no proof, since an array is not moved from a field into a literal
    let state = State {
        records: works,
        mark,
    };
    if !(is_lent(levels, len) & read.ok) {
        return refused(state);
    }
    let c = cycle(store, order, levels, state, request);
    let written = due(has_run(c.answer), levels);
    ended_by(c.answer, 0, false, c.state, written)
}

// A drain on what was read of a slice of `len` records.
pub fn drain_read(
    store: &mut [u32],
    order: usize,
    levels: usize,
    len: usize,
    read: Read,
    mark: bool,
    budget: usize,
) -> Ended
    ensures { (store.new ≡ (drain_from order levels len mark store.old read budget).words) × (result ≡ ended_drain levels (drain_from order levels len mark store.old read budget)) }
{
    let works = read.works; // tried in place: no proof, since an array is not moved from a field into a literal
    let state = State {
        records: works,
        mark,
    };
    if !(is_lent(levels, len) & read.ok) {
        return refused(state);
    }
    let d = drain(store, order, levels, state, budget);
    let written = due(0 < d.cycles, levels);
    ended_by(d.answer, d.cycles, d.left, d.state, written)
}

// A clear beside a slice of `len` records, none of which it reads.
pub fn clear_beside(store: &mut [u32], order: usize, levels: usize, len: usize, mark: bool) -> Ended
    ensures { (store.new ≡ (clear_from order levels len mark store.old).words) × (result ≡ ended_cycle levels (clear_from order levels len mark store.old)) }
{
    let mut state = fresh_state();
    state.mark = mark;
    if !is_lent(levels, len) {
        return refused(state);
    }
    let cleared = clear(store, order, levels, state);
    let written = due(has_run(cleared.answer), levels);
    ended_by(cleared.answer, 0, false, cleared.state, written)
}
