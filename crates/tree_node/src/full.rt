// A full node, scanned by pairs and then by their winners: no slot waits for the one before it, and one number of the winner says whether
// every slot is occupied and has no more below it than there is room for.
ghost use Rattle.std.specs.Prelude.{◌≡◌, List, ◌+◌, ◌*◌, ◌≤◌, ℕ, length, IfSome};
ghost use Rattle.tree_model.specs.Calls.{slot_limit};
ghost use Rattle.tree_model.specs.Words.{node_of, slot_words};
ghost use Rattle.tree_node.specs.Full.{below, FullLow, Keys, Wins};
ghost use Rattle.tree_node.specs.Look.{NodeIn};

use crate::slot::slot_at;
use strip::turn_of;
use tree_model::Slot;

// The winner among some places of a node: its place, the number that it wins by, and the most that is below any of these places.
#[derive(Clone, Copy)]
pub struct Winner {
    pub place: usize,
    pub key: u64,
    pub most: u32,
}

// How many are below a slot's own element. For an empty slot this is above every room.
fn below_of(a: Slot) -> u32
    ensures { result ≡ below a }
{
    if a.count == 0 {
        return u32::MAX;
    }
    a.count - 1
}

// The winner of two neighbouring stretches, by the winner of each. On a tie the left one stays, so that the leftmost wins.
fn winner_of(a: Winner, b: Winner) -> Winner
    ensures { (f : Slot → ℕ) (ws : List ℕ) (i lo mid hi : ℕ) → Wins f ws i lo mid a → Wins f ws i mid hi b → Wins f ws i lo hi result }
{
    let most = a.most.max(b.most);
    if b.key < a.key {
        return Winner { most, ..b };
    }
    Winner { most, ..a }
}

// ---- one, two, four and eight places from place j on: `key` says what a slot wins by

fn one<F: Fn(Slot) -> u64>(s: &[u32], at: usize, j: usize, key: &F) -> Winner
    requires inside { slot_words * (at + j + 1) ≤ length s.now }
    requires calls { F.IsAlwaysCallable key.now }
    ensures { (f : Slot → ℕ) → Keys (F.post key.now) f → Wins f s.now at j (j + 1) result }
{
    let a = slot_at(s, at + j);
    let k = key(a);
    Winner {
        place: j,
        key: k,
        most: below_of(a),
    }
}

fn two<F: Fn(Slot) -> u64>(s: &[u32], at: usize, j: usize, key: &F) -> Winner
    requires inside { slot_words * (at + j + 2) ≤ length s.now }
    requires calls { F.IsAlwaysCallable key.now }
    ensures { (f : Slot → ℕ) → Keys (F.post key.now) f → Wins f s.now at j (j + 2) result }
{
    let left = one(s, at, j, key);
    let right = one(s, at, j + 1, key);
    winner_of(left, right)
}

fn four<F: Fn(Slot) -> u64>(s: &[u32], at: usize, j: usize, key: &F) -> Winner
    requires inside { slot_words * (at + j + 4) ≤ length s.now }
    requires calls { F.IsAlwaysCallable key.now }
    ensures { (f : Slot → ℕ) → Keys (F.post key.now) f → Wins f s.now at j (j + 4) result }
{
    let left = two(s, at, j, key);
    let right = two(s, at, j + 2, key);
    winner_of(left, right)
}

fn eight<F: Fn(Slot) -> u64>(s: &[u32], at: usize, key: &F) -> Winner
    requires inside { slot_words * (at + 8) ≤ length s.now }
    requires calls { F.IsAlwaysCallable key.now }
    ensures { (f : Slot → ℕ) → Keys (F.post key.now) f → Wins f s.now at 0 8 result }
{
    let left = four(s, at, 0, key);
    let right = four(s, at, 4, key);
    winner_of(left, right)
}

// The winner of a full node with no more below any place than there is room for; none says nothing of the node.
pub fn full<F: Fn(Slot) -> u64>(
    s: &[u32],
    at: usize,
    order: usize,
    room: usize,
    key: &F,
) -> Option<Winner>
    requires inside { NodeIn order at s.now × (room ≤ slot_limit) }
    requires calls { F.IsAlwaysCallable key.now }
    ensures { (f : Slot → ℕ) → Keys (F.post key.now) f → IfSome result (λ v. Wins f s.now at 0 order v × (v.most ≤ room)) }
{
    let v = match order {
        2 => two(s, at, 0, key),
        4 => four(s, at, 0, key),
        8 => eight(s, at, key),
        _ => return None,
    };
    if v.most as usize <= room {
        return Some(v);
    }
    None
}

// The place of the element that leaves first in a full node that is not damaged; none says nothing of the node.
pub fn full_low(s: &[u32], at: usize, order: usize, room: usize) -> Option<usize>
    requires { NodeIn order at s.now × (room ≤ slot_limit) }
    ensures { IfSome result (FullLow order room (node_of order s.now at)) }
{
    let v = full(s, at, order, room, &|a: Slot| turn_of(a.element))?;
    Some(v.place)
}
