// The tree by clock cycles for C and Rust: `card_tree_clock`.
ghost use Rattle.std.specs.Prelude.{◌≡◌};
ghost use Rattle.card_words.specs.Out.{count_after};
ghost use Rattle.card_tree_clock.specs.Clocked.{clocked_after, clocked_clear, clocked_after_out, clocked_cycle, clocked_drain, clocked_held};

use tree_records::Record;

#[unsafe(no_mangle)]
pub extern "C" fn card_clocked_clear(
    store: &mut [u32],
    order: u32,
    levels: u32,
    records: &mut [Record],
    mark: &mut [u32],
) -> u32
    ensures { clocked_after result store.new records.new mark.new ≡ clocked_clear order levels store.old records.old mark.old }
{
    card_tree_clock::card_clocked_clear(store, order, levels, records, mark)
}

#[unsafe(no_mangle)]
pub extern "C" fn card_clocked_cycle(
    store: &mut [u32],
    order: u32,
    levels: u32,
    records: &mut [Record],
    mark: &mut [u32],
    request: u32,
    rank: u32,
    tag: u32,
    length: u32,
    out: &mut [u32],
) -> u32
    ensures { clocked_after_out result store.new records.new mark.new out.new ≡ clocked_cycle order levels store.old records.old mark.old request rank tag length out.old }
{
    card_tree_clock::card_clocked_cycle(
        store, order, levels, records, mark, request, rank, tag, length, out,
    )
}

#[unsafe(no_mangle)]
pub extern "C" fn card_clocked_drain(
    store: &mut [u32],
    order: u32,
    levels: u32,
    records: &mut [Record],
    mark: &mut [u32],
    budget: u32,
    out: &mut [u32],
) -> u32
    ensures { clocked_after_out result store.new records.new mark.new out.new ≡ clocked_drain order levels store.old records.old mark.old budget out.old }
{
    card_tree_clock::card_clocked_drain(store, order, levels, records, mark, budget, out)
}

#[unsafe(no_mangle)]
pub extern "C" fn card_clocked_held(store: &[u32], order: u32, levels: u32, out: &mut [u32]) -> u32
    ensures { count_after result out.new ≡ clocked_held order levels store.now out.old }
{
    card_tree_clock::card_clocked_held(store, order, levels, out)
}
