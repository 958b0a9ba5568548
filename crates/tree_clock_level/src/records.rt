// The pending records.
ghost use Rattle.std.specs.Prelude.{◌≡◌, ◌≤◌};
ghost use Rattle.tree_model.specs.Levels.{idle, work};
ghost use Rattle.tree_model.specs.Node.{is_nothing};
ghost use Rattle.tree_clock_model.specs.Calls.{record_count};
ghost use Rattle.tree_clock_model.specs.Cycle.{quiet};
ghost use Rattle.tree_clock_model.specs.Records.{landed, works_of};

use tree_clock_model::RECORDS;
use tree_model::{Op, Work};

#[tactic(auto, unfolding(tree_model::specs::Node::is_nothing))]
pub fn is_nothing(op: Op) -> bool
    ensures { result ≡ is_nothing op }
{
    matches!(op, Op::Nothing)
}

pub fn is_idle(w: Work) -> bool
    ensures { result ≡ is_nothing w.op }
{
    is_nothing(w.op)
}

pub fn no_work() -> Work
    ensures { result ≡ idle }
{
    Work {
        op: Op::Nothing,
        node: 0,
    }
}

// Work at a node; with nothing to do the node is 0.
#[tactic(auto, unfolding(tree_model::specs::Levels::work, tree_model::specs::Node::is_nothing))]
pub fn work_at(op: Op, node: usize) -> Work
    ensures { result ≡ work op node }
{
    if is_nothing(op) {
        return no_work();
    }
    Work { op, node }
}

// What a record becomes where the level above leaves `carry` for it. A record of nothing stands, whatever its number.
#[tactic(auto, unfolding(tree_clock_model::specs::Records::landed))]
pub fn land(carry: Work, own: Work) -> Work
    ensures { result ≡ landed carry own }
{
    if !is_idle(carry) {
        return carry;
    }
    if is_idle(own) {
        return own;
    }
    no_work()
}

// Whether nothing is pending in the first so many records.
pub fn is_quiet(count: usize, records: [Work; RECORDS]) -> bool
    requires { count ≤ record_count }
    ensures { result ≡ quiet count (works_of count records 0) }
{
    let mut ok = true;
    for own in &records[..count] {
        ok = ok & is_idle(*own);
    }
    ok
}
