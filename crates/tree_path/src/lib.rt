// The three operations of the multi-way tree on their paths, over lent words: own step, then the same rule one level down, with the levels
// left falling.
#![tactic(auto)]

ghost use Rattle.tree_path.specs.Down.{Carried, Looked, Stands};

use strip::{Element, goes_down, lower, no_element, stays};
use tree_model::{Op, Slot};
use tree_node::scan::{find_least, find_low};
use tree_node::slot::{slot_at, write_slot};

// All three test on the way down and write on the way back, so that every test comes before the first write. They answer whether the
// whole path is in order; where it is not, nothing is written.
// The levels go by recursion, and `take` and `swap` stand apart, since docs name three functions that each recurse into the child node.
// A node is named by its first slot: all levels above it are whole, so that the node below slot i begins at slot (i + 1) * order.
// `cap` is the room below a slot of this level.
pub fn put(s: &mut [u32], order: usize, left: usize, at: usize, cap: usize, x: Element) -> bool
    requires { Stands order left at cap s.old }
    ensures { Carried order left at (Op.Put x) s.old result s.new }
{
    let Some(j) = find_least(s, at, order, cap) else {
        return false;
    };
    let i = at + j;
    let a = slot_at(s, i);
    let count = a.count;
    if cap < count as usize {
        return false;
    }
    if count == 0 {
        write_slot(
            s,
            i,
            Slot {
                element: x,
                count: 1,
            },
        );
        return true;
    }
    let y = a.element;
    let down = goes_down(x, y);
    let up = stays(x, y);
    let below = (i + 1) * order;
    let under = (cap - 1) / order;
    if !put(s, order, left - 1, below, under, down) {
        return false;
    }
    write_slot(
        s,
        i,
        Slot {
            element: up,
            count: count + 1,
        },
    );
    true
}

// The node has been looked at, and j is the place to take from: the node below is looked at before the work goes there.
pub fn take(s: &mut [u32], order: usize, left: usize, at: usize, j: usize, cap: usize) -> bool
    requires { Looked order left at j cap s.old }
    ensures { Carried order left at Op.Take s.old result s.new }
{
    let i = at + j;
    let a = slot_at(s, i);
    let count = a.count;
    if count <= 1 {
        write_slot(
            s,
            i,
            Slot {
                element: no_element(),
                count: 0,
            },
        );
        return true;
    }
    let below = (i + 1) * order;
    let under = (cap - 1) / order;
    let Some(p) = find_low(s, below, order, under) else {
        return false;
    };
    let up = slot_at(s, below + p).element;
    if !take(s, order, left - 1, below, p, under) {
        return false;
    }
    write_slot(
        s,
        i,
        Slot {
            element: up,
            count: count - 1,
        },
    );
    true
}

pub fn swap(
    s: &mut [u32],
    order: usize,
    left: usize,
    at: usize,
    j: usize,
    cap: usize,
    x: Element,
) -> bool
    requires { Looked order left at j cap s.old }
    ensures { Carried order left at (Op.Swap x) s.old result s.new }
{
    let i = at + j;
    let a = slot_at(s, i);
    let count = a.count;
    if count <= 1 {
        write_slot(s, i, Slot { element: x, count });
        return true;
    }
    let below = (i + 1) * order;
    let under = (cap - 1) / order;
    let Some(p) = find_low(s, below, order, under) else {
        return false;
    };
    let up = slot_at(s, below + p).element;
    if !lower(up, x) {
        write_slot(s, i, Slot { element: x, count });
        return true;
    }
    if !swap(s, order, left - 1, below, p, under, x) {
        return false;
    }
    write_slot(s, i, Slot { element: up, count });
    true
}
