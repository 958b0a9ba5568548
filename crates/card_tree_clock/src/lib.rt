// The clocked tree's calls: the host lends its pending records as structs and the mark as one word. Each call over records is
// thin: it reads the records, has the call made on what was read, and writes the records back.
#![tactic(auto)]

ghost use Rattle.std.specs.Prelude.{◌≡◌};
ghost use Rattle.card_words.specs.Out.{count_after};
ghost use Rattle.card_tree_clock.specs.Clocked.{clocked_after, clocked_after_out, none_ended, told, told_out, clear_told, cycle_told, drain_told, clocked_clear, clocked_cycle, clocked_drain, clocked_held};

use card_words::{
    DRAIN_OUT, OUT, is_asked, is_marked, refuse, request_of, tell, tell_count, tell_drain,
};
use strip::number;
use tree_clock::{fresh_state, held};
use tree_clock_model::State;
use tree_records::calls::{clear_beside, cycle_read, drain_read};
use tree_records::memory::{hand_back, load};
use tree_records::{Ended, Read, Record, refused};

// ---- the calls on what was read of the records: store, mark and `out` are written, and what is left says what to write of the records

// Where the boundary says no, nothing is left to write. The works go on as they were read: an array made anew would be copied work by work.
fn none_ended(read: Read) -> Ended
    ensures { result ≡ none_ended read.works }
{
    let works = read.works;
    let state = State {
        records: works,
        mark: false,
    };
    refused(state)
}

fn clear_told(store: &mut [u32], order: u32, levels: u32, len: usize, mark: &mut [u32]) -> Ended
    ensures { told result store.new mark.new ≡ clear_told order levels len store.old mark.old }
{
    if mark.len() < 1 {
        return refused(fresh_state());
    }
    let on = mark[0] == 1;
    let ended = clear_beside(store, order as usize, levels as usize, len, on);
    if number(ended.answer) == 0 {
        mark[0] = 0;
    }
    ended
}

fn cycle_told(
    store: &mut [u32],
    order: u32,
    levels: u32,
    len: usize,
    read: Read,
    mark: &mut [u32],
    request: u32,
    rank: u32,
    tag: u32,
    length: u32,
    out: &mut [u32],
) -> Ended
    ensures { told_out result store.new mark.new out.new ≡ cycle_told order levels len store.old mark.old read request rank tag length out.old }
{
    if !is_asked(mark, request) {
        refuse(out);
        return none_ended(read);
    }
    if out.len() < OUT {
        return none_ended(read);
    }
    let on = mark[0] == 1;
    let q = request_of(request, rank, tag, length);
    let ended = cycle_read(store, order as usize, levels as usize, len, read, on, q);
    let answer = ended.answer;
    mark[0] = u32::from(ended.state.mark);
    tell(out, answer);
    ended
}

fn drain_told(
    store: &mut [u32],
    order: u32,
    levels: u32,
    len: usize,
    read: Read,
    mark: &mut [u32],
    budget: u32,
    out: &mut [u32],
) -> Ended
    ensures { told_out result store.new mark.new out.new ≡ drain_told order levels len store.old mark.old read budget out.old }
{
    if out.len() < DRAIN_OUT {
        return none_ended(read);
    }
    if !is_marked(mark) {
        tell_drain(out, 0, false);
        return none_ended(read);
    }
    let on = mark[0] == 1;
    let ended = drain_read(
        store,
        order as usize,
        levels as usize,
        len,
        read,
        on,
        budget as usize,
    );
    mark[0] = u32::from(ended.state.mark);
    tell_drain(out, ended.cycles as u32, ended.left);
    ended
}

// ---- the calls

pub fn card_clocked_clear(
    store: &mut [u32],
    order: u32,
    levels: u32,
    records: &mut [Record],
    mark: &mut [u32],
) -> u32
    ensures { clocked_after result store.new records.new mark.new ≡ clocked_clear order levels store.old records.old mark.old }
{
    let ended = clear_told(store, order, levels, records.len(), mark);
    hand_back(records, ended)
}

pub fn card_clocked_cycle(
    store: &mut [u32],
    order: u32,
    levels: u32,
    records: &mut [Record],
    mark: &mut [u32],
    request: u32,
    rank: u32,
    tag: u32,
    length: u32,
    out: &mut [u32],
) -> u32
    ensures { clocked_after_out result store.new records.new mark.new out.new ≡ clocked_cycle order levels store.old records.old mark.old request rank tag length out.old }
{
    let read = load(records, levels);
    let ended = cycle_told(
        store,
        order,
        levels,
        records.len(),
        read,
        mark,
        request,
        rank,
        tag,
        length,
        out,
    );
    hand_back(records, ended)
}

pub fn card_clocked_drain(
    store: &mut [u32],
    order: u32,
    levels: u32,
    records: &mut [Record],
    mark: &mut [u32],
    budget: u32,
    out: &mut [u32],
) -> u32
    ensures { clocked_after_out result store.new records.new mark.new out.new ≡ clocked_drain order levels store.old records.old mark.old budget out.old }
{
    let read = load(records, levels);
    let ended = drain_told(store, order, levels, records.len(), read, mark, budget, out);
    hand_back(records, ended)
}

pub fn card_clocked_held(store: &[u32], order: u32, levels: u32, out: &mut [u32]) -> u32
    ensures { count_after result out.new ≡ clocked_held order levels store.now out.old }
{
    if out.len() < 1 {
        return 1;
    }
    let count = held(store, order as usize, levels as usize);
    tell_count(out, count)
}
