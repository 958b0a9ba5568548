// The two passes of a cycle over the levels, from the root down: all records are tested, and only then each level settles the record below it and begins its
// work. `below` levels are below the root.
ghost use Rattle.std.specs.Prelude.{◌≡◌, ◌≤◌, length};
ghost use Rattle.cluster_clock_model.specs.Calls.{stage_count};
ghost use Rattle.cluster_clock_model.specs.Stage.{pass};
ghost use Rattle.cluster_clock_model.specs.Test.{stages_ok};
ghost use Rattle.cluster_model.specs.Heap.{room};
ghost use Rattle.cluster_clock_level.specs.Stage.{work_of};
ghost use Rattle.cluster_clock_level.specs.Round.{Lies, passed, RoundReady};

use crate::{Task, begin, settle, stage_ok};
use cluster_clock_model::{STAGES, Stage};
use cluster_node::room_under;

// Is all that the records name and read in order? A child of the root has room for `top`.
pub fn stages_ok(s: &[u32], k: usize, below: usize, top: usize, records: [Stage; STAGES]) -> bool
    requires { Lies k below 0 (length s.now) × (below ≤ stage_count) × (top ≡ room k below) }
    ensures { result ≡ stages_ok k below 0 0 records s.now }
{
    let mut ok = true;
    let mut limit = top;
    let mut a = 0;
    for i in 0..below {
        ok &= stage_ok(s, k, limit, a, records[i]);
        limit = room_under(k, limit);
        a = a + a + 1;
    }
    ok
}

// Every level settles the record below it, then begins its work: the root the task handed in, each other level what the level above hands down. The level
// below is read before it is written.
pub fn run_levels(
    s: &mut [u32],
    k: usize,
    below: usize,
    first: Task,
    records: [Stage; STAGES],
) -> [Stage; STAGES]
    requires { RoundReady k below 0 first 0 records s.old }
    ensures { passed k s.new result ≡ pass k below 0 (work_of first) 0 records s.old }
{
    let mut left = records;
    let mut task = first;
    let mut a = 0;
    for i in 0..below {
        let q = left[i];
        let next = settle(s, k, a, q);
        // through a local: where the record was written in place an idle cycle took 312 ns for 264 (4 x 10, x86-64)
        let load = begin(s, k, a, task);
        left[i] = load;
        task = next;
        a = a + a + 1;
    }
    begin(s, k, a, task);
    left
}
