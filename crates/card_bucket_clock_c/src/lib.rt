// The clocked bucket queue for C and Rust, a static library of its own: each export calls the function of `card_bucket_clock` of its
// name and states its clauses again. The library's card.h does not declare them yet.
#![tactic(auto)]

ghost use Rattle.std.specs.Prelude.{◌≡◌};
ghost use Rattle.card_words.specs.Out.{count_after};
ghost use Rattle.card_bucket_clock.specs.Calls.{clock_counts, clock_after, clock_clear, clock_after_out, clock_cycle, clock_held_at};

#[unsafe(no_mangle)]
pub extern "C" fn card_bucket_clock_counts(storeys: u32) -> u32
    ensures { result ≡ clock_counts storeys }
{
    card_bucket_clock::card_bucket_clock_counts(storeys)
}

#[unsafe(no_mangle)]
pub extern "C" fn card_bucket_clock_clear(
    bits: &mut [u64],
    words: &mut [u32],
    counts: &mut [u32],
    storeys: u32,
    nodes: u32,
    records: &mut [[u32; 5]],
) -> u32
    ensures { clock_after result bits.new words.new counts.new records.new ≡ clock_clear storeys nodes bits.old words.old counts.old records.old }
{
    card_bucket_clock::card_bucket_clock_clear(bits, words, counts, storeys, nodes, records)
}

#[unsafe(no_mangle)]
pub extern "C" fn card_bucket_clock_cycle(
    bits: &mut [u64],
    words: &mut [u32],
    counts: &mut [u32],
    storeys: u32,
    nodes: u32,
    records: &mut [[u32; 5]],
    request: u32,
    rank: u32,
    tag: u32,
    length: u32,
    out: &mut [u32],
) -> u32
    ensures { clock_after_out result bits.new words.new counts.new records.new out.new ≡ clock_cycle storeys nodes bits.old words.old counts.old records.old request rank tag length out.old }
{
    card_bucket_clock::card_bucket_clock_cycle(
        bits, words, counts, storeys, nodes, records, request, rank, tag, length, out,
    )
}

#[unsafe(no_mangle)]
pub extern "C" fn card_bucket_clock_held(
    bits: &[u64],
    words: &[u32],
    counts: &[u32],
    storeys: u32,
    nodes: u32,
    out: &mut [u32],
) -> u32
    ensures { count_after result out.new ≡ clock_held_at storeys nodes bits.now words.now counts.now out.old }
{
    card_bucket_clock::card_bucket_clock_held(bits, words, counts, storeys, nodes, out)
}
