// The tree for C and Rust: `card_tree`, with its check and mending and the ranks from weights.
ghost use Rattle.std.specs.Prelude.{◌≡◌};
ghost use Rattle.card_words.specs.Out.{count_after};
ghost use Rattle.card_words.specs.Sizes.{tree_words};
ghost use Rattle.card_words.specs.Store.{store_after, store_after_out};
ghost use Rattle.card_tree.specs.Tree.{tree_clear, tree_push, tree_pop, tree_replace, tree_held};
ghost use Rattle.card_tree.specs.Mend.{tree_check, tree_mend};
ghost use Rattle.card_tree.specs.Fair.{fair_words, fair_after, fair_reset, fair_push, fair_after_out, fair_pop, fair_held};

#[unsafe(no_mangle)]
pub extern "C" fn card_tree_clear(store: &mut [u32], order: u32, levels: u32) -> u32
    ensures { store_after result store.new ≡ tree_clear order levels store.old }
{
    card_tree::card_tree_clear(store, order, levels)
}

#[unsafe(no_mangle)]
pub extern "C" fn card_tree_push(
    store: &mut [u32],
    order: u32,
    levels: u32,
    rank: u32,
    tag: u32,
    length: u32,
) -> u32
    ensures { store_after result store.new ≡ tree_push order levels store.old rank tag length }
{
    card_tree::card_tree_push(store, order, levels, rank, tag, length)
}

#[unsafe(no_mangle)]
pub extern "C" fn card_tree_pop(store: &mut [u32], order: u32, levels: u32, out: &mut [u32]) -> u32
    ensures { store_after_out result store.new out.new ≡ tree_pop order levels store.old out.old }
{
    card_tree::card_tree_pop(store, order, levels, out)
}

#[unsafe(no_mangle)]
pub extern "C" fn card_tree_replace(
    store: &mut [u32],
    order: u32,
    levels: u32,
    rank: u32,
    tag: u32,
    length: u32,
    out: &mut [u32],
) -> u32
    ensures { store_after_out result store.new out.new ≡ tree_replace order levels store.old rank tag length out.old }
{
    card_tree::card_tree_replace(store, order, levels, rank, tag, length, out)
}

#[unsafe(no_mangle)]
pub extern "C" fn card_tree_held(store: &[u32], order: u32, levels: u32, out: &mut [u32]) -> u32
    ensures { count_after result out.new ≡ tree_held order levels store.now out.old }
{
    card_tree::card_tree_held(store, order, levels, out)
}

#[unsafe(no_mangle)]
pub extern "C" fn card_tree_words(order: u32, levels: u32) -> u32
    ensures { result ≡ tree_words order levels }
{
    card_tree::card_tree_words(order, levels)
}

// ---- check and mend

#[unsafe(no_mangle)]
pub extern "C" fn card_tree_check(store: &[u32], order: u32, levels: u32, out: &mut [u32]) -> u32
    ensures { count_after result out.new ≡ tree_check order levels store.now out.old }
{
    card_tree::repair::card_tree_check(store, order, levels, out)
}

#[unsafe(no_mangle)]
pub extern "C" fn card_tree_mend(
    from: &[u32],
    to: &mut [u32],
    order: u32,
    levels: u32,
    out: &mut [u32],
) -> u32
    ensures { store_after_out result to.new out.new ≡ tree_mend order levels from.now to.old out.old }
{
    card_tree::repair::card_tree_mend(from, to, order, levels, out)
}

// ---- ranks from weights

#[unsafe(no_mangle)]
pub extern "C" fn card_fair_words() -> usize
    ensures { result ≡ fair_words }
{
    card_tree::weights::card_fair_words()
}

#[unsafe(no_mangle)]
pub extern "C" fn card_fair_reset(state: &mut [u32], store: &[u32], order: u32, levels: u32) -> u32
    ensures { fair_after result state.new store.now ≡ fair_reset order levels state.old store.now }
{
    card_tree::weights::card_fair_reset(state, store, order, levels)
}

#[unsafe(no_mangle)]
pub extern "C" fn card_fair_push(
    state: &mut [u32],
    store: &mut [u32],
    order: u32,
    levels: u32,
    flow: u32,
    weight: u32,
    tag: u32,
    length: u32,
) -> u32
    ensures { fair_after result state.new store.new ≡ fair_push order levels state.old store.old flow weight tag length }
{
    card_tree::weights::card_fair_push(state, store, order, levels, flow, weight, tag, length)
}

#[unsafe(no_mangle)]
pub extern "C" fn card_fair_pop(
    state: &mut [u32],
    store: &mut [u32],
    order: u32,
    levels: u32,
    out: &mut [u32],
) -> u32
    ensures { fair_after_out result state.new store.new out.new ≡ fair_pop order levels state.old store.old out.old }
{
    card_tree::weights::card_fair_pop(state, store, order, levels, out)
}

#[unsafe(no_mangle)]
pub extern "C" fn card_fair_held(store: &[u32], order: u32, levels: u32, out: &mut [u32]) -> u32
    ensures { count_after result out.new ≡ fair_held order levels store.now out.old }
{
    card_tree::weights::card_fair_held(store, order, levels, out)
}
