// The shape of a tree, computed once a call.
ghost use Rattle.std.specs.Prelude.{◌≡◌, ◌≤◌, ℕ};
ghost use Rattle.tree_model.specs.Calls.{shape_ok, slot_limit};
ghost use Rattle.tree_node.specs.Shaping.{Shaped};

use crate::slot::SLOT_WORDS;
use crate::{SLOT_LIMIT, capacity, order_ok, room_under};

// How many slots a tree has, how many levels are below its root, and the room below a root's slot; all 0 where there is no such tree.
#[derive(Clone, Copy)]
pub struct Shape {
    pub slots: usize,
    pub below: usize,
    pub room: usize,
}

fn no_shape() -> Shape
    ensures { (result.slots ≡ 0) × (result.below ≡ 0) × (result.room ≡ 0) }
{
    Shape {
        slots: 0,
        below: 0,
        room: 0,
    }
}

// No number of levels, however large, wraps: the count of slots stops once it is above the limit.
pub fn shape_of(order: usize, levels: usize) -> Shape
    ensures { Shaped order levels result }
{
    if !order_ok(order) {
        return no_shape();
    }
    if levels == 0 {
        return no_shape();
    }
    let slots = capacity(order, levels);
    if SLOT_LIMIT < slots {
        return no_shape();
    }
    let room = room_under(order, slots);
    Shape {
        slots,
        below: levels - 1,
        room,
    }
}

// Whether there is such a tree, and a slice of so many words holds it.
pub fn shape_fits(shape: Shape, len: usize) -> bool
    requires { shape.slots ≤ slot_limit }
    ensures { (m levels : ℕ) → Shaped m levels shape → result ≡ shape_ok m levels len }
{
    let slots = shape.slots;
    (slots != 0) & (SLOT_WORDS * slots <= len)
}
