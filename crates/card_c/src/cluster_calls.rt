// The cluster heap for C and Rust: `card_cluster`, one operation at a time and by clock cycles.
ghost use Rattle.std.specs.Prelude.{◌≡◌};
ghost use Rattle.card_words.specs.Out.{count_after};
ghost use Rattle.card_words.specs.Sizes.{cluster_words};
ghost use Rattle.card_words.specs.Store.{store_after, store_after_out};
ghost use Rattle.card_cluster.specs.Cluster.{cluster_clear, cluster_push, cluster_pop, cluster_replace, cluster_held};
ghost use Rattle.card_cluster.specs.ClockedCluster.{clocked_cluster_after, clocked_cluster_clear, clocked_cluster_after_out, clocked_cluster_cycle, clocked_cluster_drain, clocked_cluster_held};

#[unsafe(no_mangle)]
pub extern "C" fn card_cluster_clear(store: &mut [u32], places: u32, levels: u32) -> u32
    ensures { store_after result store.new ≡ cluster_clear places levels store.old }
{
    card_cluster::card_cluster_clear(store, places, levels)
}

#[unsafe(no_mangle)]
pub extern "C" fn card_cluster_push(
    store: &mut [u32],
    places: u32,
    levels: u32,
    rank: u32,
    tag: u32,
    length: u32,
) -> u32
    ensures { store_after result store.new ≡ cluster_push places levels store.old rank tag length }
{
    card_cluster::card_cluster_push(store, places, levels, rank, tag, length)
}

#[unsafe(no_mangle)]
pub extern "C" fn card_cluster_pop(
    store: &mut [u32],
    places: u32,
    levels: u32,
    out: &mut [u32],
) -> u32
    ensures { store_after_out result store.new out.new ≡ cluster_pop places levels store.old out.old }
{
    card_cluster::card_cluster_pop(store, places, levels, out)
}

#[unsafe(no_mangle)]
pub extern "C" fn card_cluster_replace(
    store: &mut [u32],
    places: u32,
    levels: u32,
    rank: u32,
    tag: u32,
    length: u32,
    out: &mut [u32],
) -> u32
    ensures { store_after_out result store.new out.new ≡ cluster_replace places levels store.old rank tag length out.old }
{
    card_cluster::card_cluster_replace(store, places, levels, rank, tag, length, out)
}

#[unsafe(no_mangle)]
pub extern "C" fn card_cluster_held(store: &[u32], places: u32, levels: u32, out: &mut [u32]) -> u32
    ensures { count_after result out.new ≡ cluster_held places levels store.now out.old }
{
    card_cluster::card_cluster_held(store, places, levels, out)
}

#[unsafe(no_mangle)]
pub extern "C" fn card_cluster_words(places: u32, levels: u32) -> u32
    ensures { result ≡ cluster_words places levels }
{
    card_cluster::card_cluster_words(places, levels)
}

// ---- by clock cycles

#[unsafe(no_mangle)]
pub extern "C" fn card_clocked_cluster_clear(
    store: &mut [u32],
    places: u32,
    levels: u32,
    records: &mut [[u32; 6]],
) -> u32
    ensures { clocked_cluster_after result store.new records.new ≡ clocked_cluster_clear places levels store.old records.old }
{
    card_cluster::stages::card_clocked_cluster_clear(store, places, levels, records)
}

#[unsafe(no_mangle)]
pub extern "C" fn card_clocked_cluster_cycle(
    store: &mut [u32],
    places: u32,
    levels: u32,
    records: &mut [[u32; 6]],
    request: u32,
    rank: u32,
    tag: u32,
    length: u32,
    out: &mut [u32],
) -> u32
    ensures { clocked_cluster_after_out result store.new records.new out.new ≡ clocked_cluster_cycle places levels store.old records.old request rank tag length out.old }
{
    card_cluster::stages::card_clocked_cluster_cycle(
        store, places, levels, records, request, rank, tag, length, out,
    )
}

#[unsafe(no_mangle)]
pub extern "C" fn card_clocked_cluster_drain(
    store: &mut [u32],
    places: u32,
    levels: u32,
    records: &mut [[u32; 6]],
    budget: u32,
    out: &mut [u32],
) -> u32
    ensures { clocked_cluster_after_out result store.new records.new out.new ≡ clocked_cluster_drain places levels store.old records.old budget out.old }
{
    card_cluster::stages::card_clocked_cluster_drain(store, places, levels, records, budget, out)
}

#[unsafe(no_mangle)]
pub extern "C" fn card_clocked_cluster_held(
    store: &[u32],
    places: u32,
    levels: u32,
    out: &mut [u32],
) -> u32
    ensures { count_after result out.new ≡ clocked_cluster_held places levels store.now out.old }
{
    card_cluster::stages::card_clocked_cluster_held(store, places, levels, out)
}
