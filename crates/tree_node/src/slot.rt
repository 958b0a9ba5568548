// The slots of a node: their words.
ghost use Rattle.std.specs.Prelude.{◌≡◌, ◌++◌, ◌+◌, ◌*◌, ◌≤◌, length, drop, replicate};
ghost use Rattle.tree_model.specs.Words.{slot_words, slot_of, write};

use strip::{ELEMENT_WORDS, element_at, write_element};
use tree_model::Slot;

// A slot's words: its element's, and the count behind them.
const COUNT: usize = ELEMENT_WORDS;

// How many words a slot has.
pub const SLOT_WORDS: usize = COUNT + 1;

pub fn slot_at(s: &[u32], i: usize) -> Slot
    requires { slot_words * i + slot_words ≤ length s.now }
    ensures { result ≡ slot_of s.now i }
{
    let at = SLOT_WORDS * i;
    let element = element_at(s, at);
    let count = s[at + COUNT];
    Slot { element, count }
}

pub fn write_slot(s: &mut [u32], i: usize, slot: Slot)
    requires { slot_words * i + slot_words ≤ length s.old }
    ensures { s.new ≡ write s.old i slot }
{
    let at = SLOT_WORDS * i;
    let element = slot.element;
    write_element(s, at, element);
    s[at + COUNT] = slot.count;
}

// Writes zeros to the first n words.
pub fn zero_words(s: &mut [u32], n: usize)
    requires { n ≤ length s.old }
    ensures { s.new ≡ replicate n 0 ++ drop n s.old }
{
    s[..n].fill(0);
}
