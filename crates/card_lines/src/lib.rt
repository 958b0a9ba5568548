// Lines for C and Rust: numbers and slices. One operation at a time here, by clock cycles in `clock`.
#![tactic(auto)]

ghost use Rattle.std.specs.Prelude.{◌≡◌};
ghost use Rattle.card_words.specs.Out.{count_after};
ghost use Rattle.card_lines.specs.Lines.{lines_clear, lines_held, lines_pop, lines_push, lines_replace, lines_words, rows};
ghost use Rattle.card_words.specs.Store.{store_after, store_after_out};

pub mod clock;

use card_words::{OUT, tell, tell_count};
use lines::{clear, held, pop, push, replace};
use lines_model::Rows;
use lines_work::shape_ok;
use strip::{element_of, number};

// The numbers that every call is told.
fn rows_of(kind: u32, lines: u32, places: u32) -> Rows
    ensures { result ≡ rows kind lines places }
{
    Rows {
        kind,
        lines: lines as usize,
        places: places as usize,
    }
}

pub fn card_lines_clear(store: &mut [u32], kind: u32, lines: u32, places: u32) -> u32
    ensures { store_after result store.new ≡ lines_clear kind lines places store.old }
{
    let k = rows_of(kind, lines, places);
    number(clear(store, k))
}

pub fn card_lines_push(
    store: &mut [u32],
    kind: u32,
    lines: u32,
    places: u32,
    rank: u32,
    tag: u32,
    length: u32,
) -> u32
    ensures { store_after result store.new ≡ lines_push kind lines places store.old rank tag length }
{
    let k = rows_of(kind, lines, places);
    let x = element_of(rank, tag, length);
    number(push(store, k, x))
}

pub fn card_lines_pop(store: &mut [u32], kind: u32, lines: u32, places: u32, out: &mut [u32]) -> u32
    ensures { store_after_out result store.new out.new ≡ lines_pop kind lines places store.old out.old }
{
    if out.len() < OUT {
        return 1;
    }
    let k = rows_of(kind, lines, places);
    let answer = pop(store, k);
    tell(out, answer)
}

pub fn card_lines_replace(
    store: &mut [u32],
    kind: u32,
    lines: u32,
    places: u32,
    rank: u32,
    tag: u32,
    length: u32,
    out: &mut [u32],
) -> u32
    ensures { store_after_out result store.new out.new ≡ lines_replace kind lines places store.old rank tag length out.old }
{
    if out.len() < OUT {
        return 1;
    }
    let k = rows_of(kind, lines, places);
    let x = element_of(rank, tag, length);
    let answer = replace(store, k, x);
    tell(out, answer)
}

pub fn card_lines_held(store: &[u32], kind: u32, lines: u32, places: u32, out: &mut [u32]) -> u32
    ensures { count_after result out.new ≡ lines_held kind lines places store.now out.old }
{
    if out.len() < 1 {
        return 1;
    }
    let k = rows_of(kind, lines, places);
    let count = held(store, k);
    tell_count(out, count)
}

// The most words that a store needs: 512 counts, and 3 words for each of 524,288 places.
const MOST: usize = 1573376;

pub fn card_lines_words(kind: u32, lines: u32, places: u32) -> u32
    ensures { result ≡ lines_words kind lines places }
{
    let k = rows_of(kind, lines, places);
    if !shape_ok(k, MOST) {
        return 0;
    }
    (k.lines + 3 * (k.lines * k.places)) as u32
}
