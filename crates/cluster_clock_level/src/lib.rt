// One level of the cluster heap in a clock cycle: what is pending between it and the next is tested and settled, then the level's work is begun. The level's
// first node is number a of the store, node n of it number a + n.
#![tactic(auto)]

ghost use Rattle.std.specs.Prelude.{◌≡◌, ◌&&◌, eqb, ltb, length, ◌+◌, ◌<◌};
ghost use Rattle.std.specs.Bool.{beq};
ghost use Rattle.cluster_clock_model.specs.Stage.{below, filled, handed, no_stage};
ghost use Rattle.cluster_clock_model.specs.Test.{gives_ok, is_gap, sane_at};
ghost use Rattle.cluster_model.specs.Node.{fill, place_at, put, swap, take, trial};
ghost use Rattle.cluster_model.specs.Way.{node_in, roomy};
ghost use Rattle.cluster_node.specs.Leaf.{Here, under_of};
ghost use Rattle.cluster_clock_level.specs.Stage.{Begins, Gives, LevelIn, op_of, Pends, Settles, Sited, StageTest, Three, wait_by, Waits, work_of, Works};

pub mod levels;
pub mod shaped;

use cluster_clock_model::{Due, Stage};
use cluster_node::{
    COUNTS, FLAG, PLACE_WORDS, RIGHT, bare_at, both_full, choice, choose, clear_place, elem_at,
    look, look_each, node_ok, raise, room_under, set_place, sink,
};
use strip::{Element, goes_down, lower, stays};

// What a level has to do in a cycle. (`tree_model::Op` has the same variants; the two queues share no crate where it could stand.)
#[derive(Clone, Copy)]
pub enum Job {
    Rest,
    Put(Element),
    Take,
    Swap(Element),
}

// .. at which node of it and, for a take and a swap, the place that gives: the level above has read it.
#[derive(Clone, Copy)]
pub struct Task {
    pub job: Job,
    pub node: usize,
    pub place: usize,
}

// ---- the tests

// Node m, read for its lowest if its count is not 0: one place of it may be waiting.
pub fn gives_ok(s: &[u32], k: usize, limit: usize, m: usize, count: u32) -> bool
    requires { Here k m (length s.now) }
    ensures { result ≡ gives_ok k (eqb count 0) limit s.now m }
{
    if count == 0 {
        return true;
    }
    let at = m * (COUNTS + k * PLACE_WORDS);
    let v = look(s, at + COUNTS, k);
    let fine = node_ok(s, k - 1, limit, at, v);
    fine & (v.count != 0)
}

// Node m, onto which an element is put.
pub fn put_ok(s: &[u32], k: usize, limit: usize, m: usize) -> bool
    requires { Here k m (length s.now) }
    ensures { result ≡ (sane_at k limit s.now m && roomy limit (node_in k s.now m)) }
{
    let at = m * (COUNTS + k * PLACE_WORDS);
    let v = look(s, at + COUNTS, k);
    let fine = node_ok(s, k - 1, limit, at, v);
    let full = both_full(limit, s[at], s[at + RIGHT]);
    fine & ((v.count < k) | !full)
}

// Node m, that waits for a child's lowest.
pub fn wait_ok(s: &[u32], k: usize, limit: usize, m: usize) -> bool
    requires { Three k m (length s.now) }
    ensures { result ≡ wait_by k limit (under_of k limit) m s.now }
{
    let at = m * (COUNTS + k * PLACE_WORDS);
    let v = look(s, at + COUNTS, k);
    let fine = node_ok(s, k - 1, limit, at, v);
    let bare = bare_at(s, at);
    let deeper = room_under(k, limit);
    let left = gives_ok(s, k, deeper, m + m + 1, s[at]);
    let right = gives_ok(s, k, deeper, m + m + 2, s[at + RIGHT]);
    fine & (!bare & (left & right))
}

// Is this place of node m a gap?
pub fn is_gap(s: &[u32], k: usize, m: usize, place: usize) -> bool
    requires { Here k m (length s.now) × (place < k) }
    ensures { result ≡ is_gap (place_at (node_in k s.now m).places place) }
{
    let at = m * (COUNTS + k * PLACE_WORDS);
    s[at + COUNTS + place * PLACE_WORDS + FLAG] == 0
}

// A put onto node n of the next level: the node is there, in order, and has room.
fn put_stage_ok(s: &[u32], k: usize, limit: usize, a: usize, n: usize) -> bool
    requires { LevelIn k a (length s.now) }
    ensures { result ≡ (ltb n (below a + 1) && (sane_at k (under_of k limit) s.now (below a + n) && roomy (under_of k limit) (node_in k s.now (below a + n)))) }
{
    let next = a + a + 1;
    if next < n {
        return false;
    }
    let deeper = room_under(k, limit);
    put_ok(s, k, deeper, next + n)
}

// A gap to be filled at this place of node n of the level, or an element on trial there: node and place are there, and the node waits.
fn wait_stage_ok(
    s: &[u32],
    k: usize,
    limit: usize,
    a: usize,
    n: usize,
    place: usize,
    gap: bool,
) -> bool
    requires { LevelIn k a (length s.now) }
    ensures { result ≡ (ltb n (a + 1) && (ltb place k && (beq (is_gap (place_at (node_in k s.now (a + n)).places place)) gap && wait_by k limit (under_of k limit) (a + n) s.now))) }
{
    if a < n {
        return false;
    }
    if k <= place {
        return false;
    }
    let m = a + n;
    let is = is_gap(s, k, m, place);
    let fine = wait_ok(s, k, limit, m);
    (is == gap) & fine
}

// A record below the level, each of whose nodes has children with room for limit: what it names is there, and all that it reads is in order.
pub fn stage_ok(s: &[u32], k: usize, limit: usize, a: usize, q: Stage) -> bool
    requires { LevelIn k a (length s.now) }
    ensures { StageTest k limit a q s.now result }
{
    let n = q.node;
    match q.due {
        Due::Nothing => true,
        Due::Put(_) => put_stage_ok(s, k, limit, a, n),
        Due::Fill(place) => wait_stage_ok(s, k, limit, a, n, place, true),
        Due::Swap(place, _) => wait_stage_ok(s, k, limit, a, n, place, false),
    }
}

// ---- what is pending is settled

// The gap at this place of node n gets the lower child's lowest, and that child's count falls by one; the child takes.
pub fn fill_gap(s: &mut [u32], k: usize, a: usize, n: usize, place: usize) -> Task
    requires { Waits k (a + n) place s.old }
    ensures { Settles k a n (fill place) s.old s.new result }
{
    let m = a + n;
    let at = m * (COUNTS + k * PLACE_WORDS);
    let l = s[at];
    let r = s[at + RIGHT];
    let c = choice(s, k, 0, at);
    sink(s, at, c.right, l, r);
    set_place(s, at + COUNTS + place * PLACE_WORDS, c.up);
    let node = choose(c.right, n + n + 1, n + n);
    Task {
        job: Job::Take,
        node,
        place: c.place,
    }
}

// x stands at this place of node n on trial: if the lower child's lowest is strictly lower they change places, and the child swaps x in.
pub fn try_out(s: &mut [u32], k: usize, a: usize, n: usize, place: usize, x: Element) -> Task
    requires { Waits k (a + n) place s.old }
    ensures { Settles k a n (trial place x) s.old s.new result }
{
    let m = a + n;
    let at = m * (COUNTS + k * PLACE_WORDS);
    let c = choice(s, k, 0, at);
    let node = choose(c.right, n + n + 1, n + n);
    if !lower(c.up, x) {
        return Task {
            job: Job::Rest,
            node,
            place: 0,
        };
    }
    set_place(s, at + COUNTS + place * PLACE_WORDS, c.up);
    Task {
        job: Job::Swap(x),
        node,
        place: c.place,
    }
}

// The record below the level is settled; what the next level has to do.
pub fn settle(s: &mut [u32], k: usize, a: usize, q: Stage) -> Task
    requires { Pends q.due k (a + q.node) s.old }
    ensures { (s.new ≡ filled k a q s.old) × (work_of result ≡ handed k q.due q.node a s.old) × Gives k (below a) result s.old }
{
    let n = q.node;
    match q.due {
        Due::Nothing => Task {
            job: Job::Rest,
            node: 0,
            place: 0,
        },
        Due::Put(y) => Task {
            job: Job::Put(y),
            node: n,
            place: 0,
        },
        Due::Fill(place) => fill_gap(s, k, a, n, place),
        Due::Swap(place, x) => try_out(s, k, a, n, place, x),
    }
}

// ---- the level's work is begun

pub fn no_stage() -> Stage
    ensures { result ≡ no_stage }
{
    Stage {
        due: Due::Nothing,
        node: 0,
    }
}

// y fills the first empty place of node n; into a full node it goes as far as its rank lets it, and what is left over is put onto the child that holds fewer.
pub fn put_in(s: &mut [u32], k: usize, a: usize, n: usize, y: Element) -> Stage
    requires { Sited k (a + n) s.old }
    ensures { Begins k a n 0 (put y) s.old s.new result }
{
    let at = (a + n) * (COUNTS + k * PLACE_WORDS);
    let v = look_each(s, at + COUNTS, k);
    if v.free < k {
        set_place(s, at + COUNTS + v.free * PLACE_WORDS, y);
        return no_stage();
    }
    let l = s[at];
    let r = s[at + RIGHT];
    let right = r < l;
    let i = at + COUNTS + v.high * PLACE_WORDS;
    let e = elem_at(s, i);
    let kept = stays(y, e);
    let rest = goes_down(y, e);
    raise(s, at, right, l, r);
    set_place(s, i, kept);
    let node = choose(right, n + n + 1, n + n);
    Stage {
        due: Due::Put(rest),
        node,
    }
}

// This place of node n gives; with something below it is then a gap to be filled.
pub fn take_from(s: &mut [u32], k: usize, a: usize, n: usize, place: usize) -> Stage
    requires { Sited k (a + n) s.old × (place < k) }
    ensures { Begins k a n place take s.old s.new result }
{
    let at = (a + n) * (COUNTS + k * PLACE_WORDS);
    let bare = bare_at(s, at);
    clear_place(s, at + COUNTS + place * PLACE_WORDS);
    if bare {
        return no_stage();
    }
    Stage {
        due: Due::Fill(place),
        node: n,
    }
}

// This place of node n gives, and x stands there; with something below x is then on trial.
pub fn swap_in(s: &mut [u32], k: usize, a: usize, n: usize, place: usize, x: Element) -> Stage
    requires { Sited k (a + n) s.old × (place < k) }
    ensures { Begins k a n place (swap x) s.old s.new result }
{
    let at = (a + n) * (COUNTS + k * PLACE_WORDS);
    let bare = bare_at(s, at);
    set_place(s, at + COUNTS + place * PLACE_WORDS, x);
    if bare {
        return no_stage();
    }
    Stage {
        due: Due::Swap(place, x),
        node: n,
    }
}

// The level's work is begun; the record that it leaves for the next cycle.
pub fn begin(s: &mut [u32], k: usize, a: usize, t: Task) -> Stage
    requires { Works t.job k (a + t.node) t.place s.old }
    ensures { Begins k a t.node t.place (op_of t.job) s.old s.new result }
{
    let n = t.node;
    match t.job {
        Job::Rest => no_stage(),
        Job::Put(y) => put_in(s, k, a, n, y),
        Job::Take => take_from(s, k, a, n, t.place),
        Job::Swap(x) => swap_in(s, k, a, n, t.place, x),
    }
}
