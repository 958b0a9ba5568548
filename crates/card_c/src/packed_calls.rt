// The packed heap for C and Rust: `card_packed`.
ghost use Rattle.std.specs.Prelude.{◌≡◌};
ghost use Rattle.card_words.specs.Out.{count_after};
ghost use Rattle.card_words.specs.Store.{store_after, store_after_out};
ghost use Rattle.card_packed.specs.Packed.{packed_clear, packed_push, packed_pop, packed_replace, packed_held, packed_words};

#[unsafe(no_mangle)]
pub extern "C" fn card_packed_clear(store: &mut [u32], heaps: u32, levels: u32) -> u32
    ensures { store_after result store.new ≡ packed_clear heaps levels store.old }
{
    card_packed::card_packed_clear(store, heaps, levels)
}

#[unsafe(no_mangle)]
pub extern "C" fn card_packed_push(
    store: &mut [u32],
    heaps: u32,
    levels: u32,
    heap: u32,
    rank: u32,
    tag: u32,
    length: u32,
) -> u32
    ensures { store_after result store.new ≡ packed_push heaps levels heap store.old rank tag length }
{
    card_packed::card_packed_push(store, heaps, levels, heap, rank, tag, length)
}

#[unsafe(no_mangle)]
pub extern "C" fn card_packed_pop(
    store: &mut [u32],
    heaps: u32,
    levels: u32,
    heap: u32,
    out: &mut [u32],
) -> u32
    ensures { store_after_out result store.new out.new ≡ packed_pop heaps levels heap store.old out.old }
{
    card_packed::card_packed_pop(store, heaps, levels, heap, out)
}

#[unsafe(no_mangle)]
pub extern "C" fn card_packed_replace(
    store: &mut [u32],
    heaps: u32,
    levels: u32,
    heap: u32,
    rank: u32,
    tag: u32,
    length: u32,
    out: &mut [u32],
) -> u32
    ensures { store_after_out result store.new out.new ≡ packed_replace heaps levels heap store.old rank tag length out.old }
{
    card_packed::card_packed_replace(store, heaps, levels, heap, rank, tag, length, out)
}

#[unsafe(no_mangle)]
pub extern "C" fn card_packed_held(
    store: &[u32],
    heaps: u32,
    levels: u32,
    heap: u32,
    out: &mut [u32],
) -> u32
    ensures { count_after result out.new ≡ packed_held heaps levels heap store.now out.old }
{
    card_packed::card_packed_held(store, heaps, levels, heap, out)
}

#[unsafe(no_mangle)]
pub extern "C" fn card_packed_words(heaps: u32, levels: u32) -> u32
    ensures { result ≡ packed_words heaps levels }
{
    card_packed::card_packed_words(heaps, levels)
}
