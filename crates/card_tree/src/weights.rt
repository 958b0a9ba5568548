// Ranks from weights.
ghost use Rattle.std.specs.Prelude.{◌≡◌};
ghost use Rattle.fair_model.specs.Calls.{answer_number};
ghost use Rattle.card_words.specs.Out.{Long, answer_words, count_after};
ghost use Rattle.card_tree.specs.Fair.{fair_after, fair_after_out, fair_held, fair_out, fair_pop, fair_push, fair_reset, fair_words};

use card_words::{OUT, tell_count};
use fair::STATE_WORDS;
use fair::numbers::{given, number};
use fair_model::{FairAnswer, Flow, Weight};
use strip::{Length, Tag, write_element};

// How many words a state has.
pub fn card_fair_words() -> usize
    ensures { result ≡ fair_words }
{
    STATE_WORDS
}

// Writes what is served, zeros where nothing is, and returns the answer's number.
fn tell_served(out: &mut [u32], answer: FairAnswer) -> u32
    requires { Long answer_words out.old }
    ensures { (result ≡ answer_number answer) × (out.new ≡ fair_out answer out.old) }
{
    write_element(out, 0, given(answer));
    number(answer)
}

pub fn card_fair_reset(state: &mut [u32], store: &[u32], order: u32, levels: u32) -> u32
    ensures { fair_after result state.new store.now ≡ fair_reset order levels state.old store.now }
{
    number(fair::reset(state, store, order as usize, levels as usize))
}

pub fn card_fair_push(
    state: &mut [u32],
    store: &mut [u32],
    order: u32,
    levels: u32,
    flow: u32,
    weight: u32,
    tag: u32,
    length: u32,
) -> u32
    ensures { fair_after result state.new store.new ≡ fair_push order levels state.old store.old flow weight tag length }
{
    number(fair::push(
        state,
        store,
        order as usize,
        levels as usize,
        Flow(flow),
        Weight(weight),
        Tag(tag),
        Length(length),
    ))
}

pub fn card_fair_pop(
    state: &mut [u32],
    store: &mut [u32],
    order: u32,
    levels: u32,
    out: &mut [u32],
) -> u32
    ensures { fair_after_out result state.new store.new out.new ≡ fair_pop order levels state.old store.old out.old }
{
    if out.len() < OUT {
        return 1;
    }
    let answer = fair::pop(state, store, order as usize, levels as usize);
    tell_served(out, answer)
}

pub fn card_fair_held(store: &[u32], order: u32, levels: u32, out: &mut [u32]) -> u32
    ensures { count_after result out.new ≡ fair_held order levels store.now out.old }
{
    if out.len() < 1 {
        return 1;
    }
    let count = fair::held(store, order as usize, levels as usize);
    tell_count(out, count)
}
