// The clocked cluster heap's calls: the host lends its pending records, structs of six words each. A call reads the records, has the call made on what
// was read, and writes the records back.
ghost use Rattle.std.specs.Prelude.{◌≡◌};
ghost use Rattle.card_words.specs.Out.{count_after};
ghost use Rattle.card_cluster.specs.ClockedCluster.{clocked_cluster_after, clocked_cluster_after_out, none_ended, told, told_out, clear_told, cycle_told, drain_told, clocked_cluster_clear, clocked_cluster_cycle, clocked_cluster_drain, clocked_cluster_held};

use card_words::{DRAIN_OUT, OUT, refuse, request_of, tell, tell_count, tell_drain};
use cluster_clock::held;
use cluster_records::calls::{clear_beside, cycle_read, drain_read};
use cluster_records::memory::{hand_back, load};
use cluster_records::{ClusterEnded, ClusterRead, refused};

// ---- the calls on what was read of the records: store and `out` are written, and what is left says what to write of the records

// Where the boundary says no, nothing is left to write.
fn none_ended(read: ClusterRead) -> ClusterEnded
    ensures { result ≡ none_ended read.stages }
{
    refused(read.stages)
}

fn clear_told(store: &mut [u32], places: u32, levels: u32, len: usize) -> ClusterEnded
    ensures { told result store.new ≡ clear_told places levels len store.old }
{
    clear_beside(store, places as usize, levels as usize, len)
}

fn cycle_told(
    store: &mut [u32],
    places: u32,
    levels: u32,
    len: usize,
    read: ClusterRead,
    request: u32,
    rank: u32,
    tag: u32,
    length: u32,
    out: &mut [u32],
) -> ClusterEnded
    ensures { told_out result store.new out.new ≡ cycle_told places levels len store.old read request rank tag length out.old }
{
    if 3 < request {
        refuse(out);
        return none_ended(read);
    }
    if out.len() < OUT {
        return none_ended(read);
    }
    let q = request_of(request, rank, tag, length);
    let ended = cycle_read(store, places as usize, levels as usize, len, read, q);
    tell(out, ended.answer);
    ended
}

fn drain_told(
    store: &mut [u32],
    places: u32,
    levels: u32,
    len: usize,
    read: ClusterRead,
    budget: u32,
    out: &mut [u32],
) -> ClusterEnded
    ensures { told_out result store.new out.new ≡ drain_told places levels len store.old read budget out.old }
{
    if out.len() < DRAIN_OUT {
        return none_ended(read);
    }
    let ended = drain_read(
        store,
        places as usize,
        levels as usize,
        len,
        read,
        budget as usize,
    );
    tell_drain(out, ended.cycles as u32, ended.left);
    ended
}

// ---- the calls

pub fn card_clocked_cluster_clear(
    store: &mut [u32],
    places: u32,
    levels: u32,
    records: &mut [[u32; 6]],
) -> u32
    ensures { clocked_cluster_after result store.new records.new ≡ clocked_cluster_clear places levels store.old records.old }
{
    let ended = clear_told(store, places, levels, records.len());
    hand_back(records, ended)
}

pub fn card_clocked_cluster_cycle(
    store: &mut [u32],
    places: u32,
    levels: u32,
    records: &mut [[u32; 6]],
    request: u32,
    rank: u32,
    tag: u32,
    length: u32,
    out: &mut [u32],
) -> u32
    ensures { clocked_cluster_after_out result store.new records.new out.new ≡ clocked_cluster_cycle places levels store.old records.old request rank tag length out.old }
{
    let read = load(records, levels as usize);
    let ended = cycle_told(
        store,
        places,
        levels,
        records.len(),
        read,
        request,
        rank,
        tag,
        length,
        out,
    );
    hand_back(records, ended)
}

pub fn card_clocked_cluster_drain(
    store: &mut [u32],
    places: u32,
    levels: u32,
    records: &mut [[u32; 6]],
    budget: u32,
    out: &mut [u32],
) -> u32
    ensures { clocked_cluster_after_out result store.new records.new out.new ≡ clocked_cluster_drain places levels store.old records.old budget out.old }
{
    let read = load(records, levels as usize);
    let ended = drain_told(store, places, levels, records.len(), read, budget, out);
    hand_back(records, ended)
}

// Reads the root alone, and no record.
pub fn card_clocked_cluster_held(store: &[u32], places: u32, levels: u32, out: &mut [u32]) -> u32
    ensures { count_after result out.new ≡ clocked_cluster_held places levels store.now out.old }
{
    if out.len() < 1 {
        return 1;
    }
    let count = held(store, places as usize, levels as usize);
    tell_count(out, count)
}
