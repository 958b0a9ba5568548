// The clocked lines' calls: the host lends its pending record, a struct of five words.
ghost use Rattle.std.specs.Prelude.{◌≡◌};
ghost use Rattle.card_words.specs.Out.{count_after};
ghost use Rattle.card_lines.specs.Clocked.{clock_after, clock_after_out, lines_clock_clear, lines_clock_cycle, lines_clock_drain, lines_clock_held};

use crate::rows_of;
use card_words::{DRAIN_OUT, OUT, refuse, request_of, tell, tell_count, tell_drain};
use lines_clock::held;
use lines_records::{clear_lent, cycle_lent, drain_lent};
use strip::number;

pub fn card_lines_clock_clear(
    store: &mut [u32],
    kind: u32,
    lines: u32,
    places: u32,
    records: &mut [[u32; 5]],
) -> u32
    ensures { clock_after result store.new records.new ≡ lines_clock_clear kind lines places store.old records.old }
{
    let k = rows_of(kind, lines, places);
    number(clear_lent(store, k, records))
}

pub fn card_lines_clock_cycle(
    store: &mut [u32],
    kind: u32,
    lines: u32,
    places: u32,
    records: &mut [[u32; 5]],
    request: u32,
    rank: u32,
    tag: u32,
    length: u32,
    out: &mut [u32],
) -> u32
    ensures { clock_after_out result store.new records.new out.new ≡ lines_clock_cycle kind lines places store.old records.old request rank tag length out.old }
{
    if 3 < request {
        refuse(out);
        return 1;
    }
    if out.len() < OUT {
        return 1;
    }
    let k = rows_of(kind, lines, places);
    let q = request_of(request, rank, tag, length);
    let answer = cycle_lent(store, k, records, q);
    tell(out, answer)
}

pub fn card_lines_clock_drain(
    store: &mut [u32],
    kind: u32,
    lines: u32,
    places: u32,
    records: &mut [[u32; 5]],
    budget: u32,
    out: &mut [u32],
) -> u32
    ensures { clock_after_out result store.new records.new out.new ≡ lines_clock_drain kind lines places store.old records.old budget out.old }
{
    if out.len() < DRAIN_OUT {
        return 1;
    }
    let k = rows_of(kind, lines, places);
    let d = drain_lent(store, k, records, budget);
    let answer = d.answer;
    tell_drain(out, d.cycles, d.left);
    number(answer)
}

// Reads the counts alone, and no record.
pub fn card_lines_clock_held(
    store: &[u32],
    kind: u32,
    lines: u32,
    places: u32,
    out: &mut [u32],
) -> u32
    ensures { count_after result out.new ≡ lines_clock_held kind lines places store.now out.old }
{
    if out.len() < 1 {
        return 1;
    }
    let k = rows_of(kind, lines, places);
    let count = held(store, k);
    tell_count(out, count)
}
