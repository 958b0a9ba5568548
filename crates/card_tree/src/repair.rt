// The check of a tree's store, and its mending.
ghost use Rattle.std.specs.Prelude.{◌≡◌, ◌≤◌, length};
ghost use Rattle.tree_mend_model.specs.Check.{check_number};
ghost use Rattle.tree_mend_model.specs.Mend.{mend_number};
ghost use Rattle.card_words.specs.Out.{count_after};
ghost use Rattle.card_words.specs.Store.{store_after_out};
ghost use Rattle.card_tree.specs.Mend.{check_out, mend_out, tree_check, tree_mend};

use strip::Refusal;
use tree_mend::numbers::{check_number, check_slot, check_yes, mend_number, mend_skipped};

// The words of a check's answer: 1 for yes, and the slot that is named.
const CHECK_OUT: usize = 2;

// Writes a check's answer, zeros on a refusal, and returns its number.
fn tell_check(out: &mut [u32], c: Result<Option<u32>, Refusal>) -> u32
    requires { 2 ≤ length out.old }
    ensures { (result ≡ check_number c) × (out.new ≡ check_out c out.old) }
{
    out[0] = check_yes(c);
    out[1] = check_slot(c);
    check_number(c)
}

// Writes how many were skipped, 0 on a refusal, and returns the mending's number.
fn tell_mend(out: &mut [u32], a: Result<u32, Refusal>) -> u32
    requires { 1 ≤ length out.old }
    ensures { (result ≡ mend_number a) × (out.new ≡ mend_out a out.old) }
{
    out[0] = mend_skipped(a);
    mend_number(a)
}

pub fn card_tree_check(store: &[u32], order: u32, levels: u32, out: &mut [u32]) -> u32
    ensures { count_after result out.new ≡ tree_check order levels store.now out.old }
{
    if out.len() < CHECK_OUT {
        return 1;
    }
    let c = tree_mend::check(store, order as usize, levels as usize);
    tell_check(out, c)
}

pub fn card_tree_mend(from: &[u32], to: &mut [u32], order: u32, levels: u32, out: &mut [u32]) -> u32
    ensures { store_after_out result to.new out.new ≡ tree_mend order levels from.now to.old out.old }
{
    if out.len() < 1 {
        return 1;
    }
    let a = tree_mend::mend(from, to, order as usize, levels as usize);
    tell_mend(out, a)
}
