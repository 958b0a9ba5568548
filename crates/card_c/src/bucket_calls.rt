// The bucket queue for C and Rust: `card_bucket`, with several ports on one pool.
ghost use Rattle.std.specs.Prelude.{◌≡◌};
ghost use Rattle.card_words.specs.Out.{count_after};
ghost use Rattle.card_words.specs.Sizes.{bucket_bits, bucket_words};
ghost use Rattle.card_bucket.specs.Bucket.{bucket_after, bucket_clear, bucket_push, bucket_after_out, bucket_pop, bucket_replace, bucket_held};
ghost use Rattle.card_bucket.specs.Ports.{ports_clear, ports_push, ports_pop, ports_replace, ports_held, ports_bits, ports_words};

#[unsafe(no_mangle)]
pub extern "C" fn card_bucket_clear(
    bits: &mut [u64],
    words: &mut [u32],
    storeys: u32,
    nodes: u32,
) -> u32
    ensures { bucket_after result bits.new words.new ≡ bucket_clear bits.old words.old storeys nodes }
{
    card_bucket::card_bucket_clear(bits, words, storeys, nodes)
}

#[unsafe(no_mangle)]
pub extern "C" fn card_bucket_push(
    bits: &mut [u64],
    words: &mut [u32],
    storeys: u32,
    nodes: u32,
    rank: u32,
    tag: u32,
    length: u32,
) -> u32
    ensures { bucket_after result bits.new words.new ≡ bucket_push bits.old words.old storeys nodes rank tag length }
{
    card_bucket::card_bucket_push(bits, words, storeys, nodes, rank, tag, length)
}

#[unsafe(no_mangle)]
pub extern "C" fn card_bucket_pop(
    bits: &mut [u64],
    words: &mut [u32],
    storeys: u32,
    nodes: u32,
    out: &mut [u32],
) -> u32
    ensures { bucket_after_out result bits.new words.new out.new ≡ bucket_pop bits.old words.old storeys nodes out.old }
{
    card_bucket::card_bucket_pop(bits, words, storeys, nodes, out)
}

#[unsafe(no_mangle)]
pub extern "C" fn card_bucket_replace(
    bits: &mut [u64],
    words: &mut [u32],
    storeys: u32,
    nodes: u32,
    rank: u32,
    tag: u32,
    length: u32,
    out: &mut [u32],
) -> u32
    ensures { bucket_after_out result bits.new words.new out.new ≡ bucket_replace bits.old words.old storeys nodes rank tag length out.old }
{
    card_bucket::card_bucket_replace(bits, words, storeys, nodes, rank, tag, length, out)
}

#[unsafe(no_mangle)]
pub extern "C" fn card_bucket_held(
    bits: &[u64],
    words: &[u32],
    storeys: u32,
    nodes: u32,
    out: &mut [u32],
) -> u32
    ensures { count_after result out.new ≡ bucket_held bits.now words.now storeys nodes out.old }
{
    card_bucket::card_bucket_held(bits, words, storeys, nodes, out)
}

#[unsafe(no_mangle)]
pub extern "C" fn card_bucket_bits(storeys: u32) -> u32
    ensures { result ≡ bucket_bits storeys }
{
    card_bucket::card_bucket_bits(storeys)
}

#[unsafe(no_mangle)]
pub extern "C" fn card_bucket_words(storeys: u32, nodes: u32) -> u32
    ensures { result ≡ bucket_words storeys nodes }
{
    card_bucket::card_bucket_words(storeys, nodes)
}

// ---- several ports on one pool

#[unsafe(no_mangle)]
pub extern "C" fn card_ports_clear(
    bits: &mut [u64],
    words: &mut [u32],
    storeys: u32,
    nodes: u32,
    ports: u32,
    limits: &[u32],
) -> u32
    ensures { bucket_after result bits.new words.new ≡ ports_clear bits.old words.old storeys nodes ports limits.now }
{
    card_bucket::pool::card_ports_clear(bits, words, storeys, nodes, ports, limits)
}

#[unsafe(no_mangle)]
pub extern "C" fn card_ports_push(
    bits: &mut [u64],
    words: &mut [u32],
    storeys: u32,
    nodes: u32,
    ports: u32,
    port: u32,
    rank: u32,
    tag: u32,
    length: u32,
) -> u32
    ensures { bucket_after result bits.new words.new ≡ ports_push bits.old words.old storeys nodes ports port rank tag length }
{
    card_bucket::pool::card_ports_push(bits, words, storeys, nodes, ports, port, rank, tag, length)
}

#[unsafe(no_mangle)]
pub extern "C" fn card_ports_pop(
    bits: &mut [u64],
    words: &mut [u32],
    storeys: u32,
    nodes: u32,
    ports: u32,
    port: u32,
    out: &mut [u32],
) -> u32
    ensures { bucket_after_out result bits.new words.new out.new ≡ ports_pop bits.old words.old storeys nodes ports port out.old }
{
    card_bucket::pool::card_ports_pop(bits, words, storeys, nodes, ports, port, out)
}

#[unsafe(no_mangle)]
pub extern "C" fn card_ports_replace(
    bits: &mut [u64],
    words: &mut [u32],
    storeys: u32,
    nodes: u32,
    ports: u32,
    port: u32,
    rank: u32,
    tag: u32,
    length: u32,
    out: &mut [u32],
) -> u32
    ensures { bucket_after_out result bits.new words.new out.new ≡ ports_replace bits.old words.old storeys nodes ports port rank tag length out.old }
{
    card_bucket::pool::card_ports_replace(
        bits, words, storeys, nodes, ports, port, rank, tag, length, out,
    )
}

#[unsafe(no_mangle)]
pub extern "C" fn card_ports_held(
    bits: &[u64],
    words: &[u32],
    storeys: u32,
    nodes: u32,
    ports: u32,
    port: u32,
    out: &mut [u32],
) -> u32
    ensures { count_after result out.new ≡ ports_held bits.now words.now storeys nodes ports port out.old }
{
    card_bucket::pool::card_ports_held(bits, words, storeys, nodes, ports, port, out)
}

#[unsafe(no_mangle)]
pub extern "C" fn card_ports_bits(storeys: u32, ports: u32) -> u32
    ensures { result ≡ ports_bits storeys ports }
{
    card_bucket::pool::card_ports_bits(storeys, ports)
}

#[unsafe(no_mangle)]
pub extern "C" fn card_ports_words(storeys: u32, nodes: u32, ports: u32) -> u32
    ensures { result ≡ ports_words storeys nodes ports }
{
    card_bucket::pool::card_ports_words(storeys, nodes, ports)
}
