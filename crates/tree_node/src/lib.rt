// What is known of a tree by its order and levels: its capacity, its shape, the room below a slot. A node's slots and scans are
// modules of their own.
#![tactic(auto)]

ghost use Rattle.std.specs.Prelude.{◌≡◌, ◌<◌, ◌^◌, ◌≤◌};
ghost use Rattle.tree_model.specs.Calls.{order_ok, shape_ok};
ghost use Rattle.tree_node.specs.Room.{Capacity, RoomUnder, slots_counted};

pub mod full;
pub mod scan;
pub mod shape;
pub mod slot;

use shape::{shape_fits, shape_of};

// The largest capacity of a tree.
pub const SLOT_LIMIT: usize = 87380;

// The slots counted level by level, for any order, until they are above the limit.
fn count_slots(order: usize, levels: usize) -> usize
    requires { (0 < order) × (order ≤ 8) }
    ensures counts { Capacity order levels result }
    ensures stops { result ≡ slots_counted order levels }
{
    let mut slots: usize = 0;
    for i in 0..levels {
        if SLOT_LIMIT < slots {
            break;
        }
        slots = order * (slots + 1);
    }
    slots
}

// How many elements so many levels under one slot hold, where that is within the limit; else a number above the limit. Every call asks for
// it, so for the orders of trees it is no loop but the sum of the powers, by the slots of the last level. 16, 9 and 6 levels are the first
// that are above the limit.
pub fn capacity(order: usize, levels: usize) -> usize
    requires { (0 < order) × (order ≤ 8) }
    ensures counts { Capacity order levels result }
    ensures stops { result ≡ slots_counted order levels }
{
    match order {
        2 => (2 << levels.min(16)) - 2,
        4 => ((4 << (2 * levels.min(9))) - 4) / 3,
        8 => ((8 << (3 * levels.min(6))) - 8) / 7,
        _ => count_slots(order, levels), // no tree has another order
    }
}

pub fn order_ok(order: usize) -> bool
    ensures { result ≡ order_ok order }
{
    // with `matches!` (tried) the proof's last arm has no fact that the order is none of the three
    (order == 2) | ((order == 4) | (order == 8))
}

// Whether order, levels and the slice's length are those of a tree.
pub fn shape_ok(order: usize, levels: usize, len: usize) -> bool
    ensures { result ≡ shape_ok order levels len }
{
    let shape = shape_of(order, levels);
    shape_fits(shape, len)
}

// The room below a slot of the next level, by the room below a slot of this one.
pub fn room_under(order: usize, room: usize) -> usize
    requires { 0 < order }
    ensures { RoomUnder order room result }
{
    let others = room.saturating_sub(1);
    match order {
        2 => others / 2,
        4 => others / 4,
        8 => others / 8,
        _ => others / order,
    }
}
