// Lines for C and Rust: `card_lines`, one operation at a time and by clock cycles.
ghost use Rattle.std.specs.Prelude.{◌≡◌};
ghost use Rattle.card_words.specs.Out.{count_after};
ghost use Rattle.card_lines.specs.Lines.{lines_clear, lines_push, lines_pop, lines_replace, lines_held, lines_words};
ghost use Rattle.card_words.specs.Store.{store_after, store_after_out};
ghost use Rattle.card_lines.specs.Clocked.{clock_after, lines_clock_clear, clock_after_out, lines_clock_cycle, lines_clock_drain, lines_clock_held};

#[unsafe(no_mangle)]
pub extern "C" fn card_lines_clear(store: &mut [u32], kind: u32, lines: u32, places: u32) -> u32
    ensures { store_after result store.new ≡ lines_clear kind lines places store.old }
{
    card_lines::card_lines_clear(store, kind, lines, places)
}

#[unsafe(no_mangle)]
pub extern "C" fn card_lines_push(
    store: &mut [u32],
    kind: u32,
    lines: u32,
    places: u32,
    rank: u32,
    tag: u32,
    length: u32,
) -> u32
    ensures { store_after result store.new ≡ lines_push kind lines places store.old rank tag length }
{
    card_lines::card_lines_push(store, kind, lines, places, rank, tag, length)
}

#[unsafe(no_mangle)]
pub extern "C" fn card_lines_pop(
    store: &mut [u32],
    kind: u32,
    lines: u32,
    places: u32,
    out: &mut [u32],
) -> u32
    ensures { store_after_out result store.new out.new ≡ lines_pop kind lines places store.old out.old }
{
    card_lines::card_lines_pop(store, kind, lines, places, out)
}

#[unsafe(no_mangle)]
pub extern "C" fn card_lines_replace(
    store: &mut [u32],
    kind: u32,
    lines: u32,
    places: u32,
    rank: u32,
    tag: u32,
    length: u32,
    out: &mut [u32],
) -> u32
    ensures { store_after_out result store.new out.new ≡ lines_replace kind lines places store.old rank tag length out.old }
{
    card_lines::card_lines_replace(store, kind, lines, places, rank, tag, length, out)
}

#[unsafe(no_mangle)]
pub extern "C" fn card_lines_held(
    store: &[u32],
    kind: u32,
    lines: u32,
    places: u32,
    out: &mut [u32],
) -> u32
    ensures { count_after result out.new ≡ lines_held kind lines places store.now out.old }
{
    card_lines::card_lines_held(store, kind, lines, places, out)
}

#[unsafe(no_mangle)]
pub extern "C" fn card_lines_words(kind: u32, lines: u32, places: u32) -> u32
    ensures { result ≡ lines_words kind lines places }
{
    card_lines::card_lines_words(kind, lines, places)
}

// ---- by clock cycles

#[unsafe(no_mangle)]
pub extern "C" fn card_lines_clock_clear(
    store: &mut [u32],
    kind: u32,
    lines: u32,
    places: u32,
    records: &mut [[u32; 5]],
) -> u32
    ensures { clock_after result store.new records.new ≡ lines_clock_clear kind lines places store.old records.old }
{
    card_lines::clock::card_lines_clock_clear(store, kind, lines, places, records)
}

#[unsafe(no_mangle)]
pub extern "C" fn card_lines_clock_cycle(
    store: &mut [u32],
    kind: u32,
    lines: u32,
    places: u32,
    records: &mut [[u32; 5]],
    request: u32,
    rank: u32,
    tag: u32,
    length: u32,
    out: &mut [u32],
) -> u32
    ensures { clock_after_out result store.new records.new out.new ≡ lines_clock_cycle kind lines places store.old records.old request rank tag length out.old }
{
    card_lines::clock::card_lines_clock_cycle(
        store, kind, lines, places, records, request, rank, tag, length, out,
    )
}

#[unsafe(no_mangle)]
pub extern "C" fn card_lines_clock_drain(
    store: &mut [u32],
    kind: u32,
    lines: u32,
    places: u32,
    records: &mut [[u32; 5]],
    budget: u32,
    out: &mut [u32],
) -> u32
    ensures { clock_after_out result store.new records.new out.new ≡ lines_clock_drain kind lines places store.old records.old budget out.old }
{
    card_lines::clock::card_lines_clock_drain(store, kind, lines, places, records, budget, out)
}

#[unsafe(no_mangle)]
pub extern "C" fn card_lines_clock_held(
    store: &[u32],
    kind: u32,
    lines: u32,
    places: u32,
    out: &mut [u32],
) -> u32
    ensures { count_after result out.new ≡ lines_clock_held kind lines places store.now out.old }
{
    card_lines::clock::card_lines_clock_held(store, kind, lines, places, out)
}
