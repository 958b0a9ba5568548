// The by-value calls of the clocked cluster heap on what was read of a lent slice of records, and how many records are then to be written.
ghost use Rattle.std.specs.Prelude.{◌≡◌};
ghost use Rattle.cluster_records.specs.Steps.{clear_from, cycle_from, drains_from, ended_cycle, ended_drain};

use crate::{ClusterEnded, ClusterRead, ended_by, is_lent, refused};
use cluster_clock::{clear, cycle, drain};
use cluster_clock_level::shaped::fresh_records;
use strip::{Request, due, has_run};

// One cycle on what was read of a slice of `len` records.
pub fn cycle_read(
    store: &mut [u32],
    places: usize,
    levels: usize,
    len: usize,
    read: ClusterRead,
    request: Request,
) -> ClusterEnded
    ensures { (store.new ≡ (cycle_from places levels len store.old read request).words) × (result ≡ ended_cycle levels (cycle_from places levels len store.old read request)) }
{
    if !(is_lent(levels, len) & read.ok) {
        return refused(read.stages);
    }
    let c = cycle(store, places, levels, read.stages, request);
    ended_by(c.answer, 0, false, c.state, due(has_run(c.answer), levels))
}

// A drain on what was read of a slice of `len` records.
pub fn drain_read(
    store: &mut [u32],
    places: usize,
    levels: usize,
    len: usize,
    read: ClusterRead,
    budget: usize,
) -> ClusterEnded
    ensures { (store.new ≡ (drains_from places levels len store.old read budget).words) × (result ≡ ended_drain levels (drains_from places levels len store.old read budget)) }
{
    if !(is_lent(levels, len) & read.ok) {
        return refused(read.stages);
    }
    let d = drain(store, places, levels, read.stages, budget);
    ended_by(
        d.answer,
        d.cycles,
        d.left,
        d.state,
        due(0 < d.cycles, levels),
    )
}

// A clear beside a slice of `len` records, none of which it reads.
pub fn clear_beside(store: &mut [u32], places: usize, levels: usize, len: usize) -> ClusterEnded
    ensures { (store.new ≡ (clear_from places levels len store.old).words) × (result ≡ ended_cycle levels (clear_from places levels len store.old)) }
{
    let none = fresh_records();
    if !is_lent(levels, len) {
        return refused(none);
    }
    let c = clear(store, places, levels, none);
    ended_by(c.answer, 0, false, c.state, due(has_run(c.answer), levels))
}
