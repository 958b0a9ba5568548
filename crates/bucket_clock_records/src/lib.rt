// The host's own records of the clocked bucket queue, read and written back. A record as the host keeps it is five words: kind 0 nothing, 1 push, 2 pop,
// 3 replace; the way that a pop or replace has come; an element's rank, tag and length.
#![tactic(auto)]

ghost use Rattle.std.specs.Prelude.{cond, ◌≡◌, ◌≤◌, leb, length};
ghost use Rattle.bucket_clock_model.specs.Desk.{record_count};
ghost use Rattle.bucket_clock_records.specs.Lent.{bare_record, kind_in, laden_record, lends, read_of, record_of, waiting_of, works_back};

use bucket_clock_model::{RECORDS, Waiting, no_work};
use strip::{Element, Request, element_of};

// What was read of the records: what each holds, and whether there are enough of them and all the kinds are kinds. No Option: `read_of` promises what
// each holds where `ok` is false too.
#[derive(Clone, Copy)]
pub struct WorksRead {
    pub works: [Waiting; RECORDS],
    pub ok: bool,
}

// ---- reading

// Whether a queue may have so many storeys, and a slice of so many records has one for each.
pub fn is_lent(storeys: usize, len: usize) -> bool
    ensures { result ≡ lends storeys len }
{
    (storeys <= RECORDS) & (storeys <= len)
}

fn reached(storeys: usize, len: usize) -> usize
    ensures { result ≡ cond (lends storeys len) storeys 0 }
{
    if is_lent(storeys, len) {
        return storeys;
    }
    0
}

// What a record holds; the numbers that its kind does not use are not read.
fn waiting_of(r: [u32; 5]) -> Waiting
    ensures { result ≡ waiting_of r }
{
    let [kind, way, rank, tag, length] = r;
    let x = element_of(rank, tag, length);
    match kind {
        1 => Waiting {
            does: Request::Push(x),
            way: 0,
        },
        2 => Waiting {
            does: Request::Pop,
            way,
        },
        3 => Waiting {
            does: Request::Replace(x),
            way,
        },
        _ => no_work(),
    }
}

// Whether a record's kind is one.
fn is_kind(r: [u32; 5]) -> bool
    ensures { result ≡ leb (kind_in r) 3 }
{
    r[0] <= 3
}

// What is read of the records: one for each storey, where the slice has them. The works are a local of the loop: what goes through a call for each record is
// one record, and no array.
pub fn load(records: &[[u32; 5]], storeys: usize) -> WorksRead
    ensures { result ≡ read_of storeys records.now }
{
    let len = records.len();
    let lent = is_lent(storeys, len);
    let n = reached(storeys, len);
    let mut works = [no_work(); RECORDS];
    let mut ok = lent;
    for i in 0..n {
        let r = records[i];
        works[i] = waiting_of(r);
        ok &= is_kind(r);
    }
    WorksRead { works, ok }
}

// ---- writing

// A record that carries no element.
fn bare(kind: u32, way: u32) -> [u32; 5]
    ensures { result ≡ bare_record kind way }
{
    [kind, way, 0, 0, 0]
}

// A record that carries one.
fn laden(kind: u32, way: u32, x: Element) -> [u32; 5]
    ensures { result ≡ laden_record kind way x }
{
    [kind, way, x.rank.0, x.tag.0, x.length.0]
}

// A record as it is written: 0 for what its kind does not use.
fn record_of(g: Waiting) -> [u32; 5]
    ensures { result ≡ record_of g }
{
    match g.does {
        Request::Idle => bare(0, 0),
        Request::Push(x) => laden(1, 0, x),
        Request::Pop => bare(2, g.way),
        Request::Replace(y) => laden(3, g.way, y),
    }
}

// Writes the first n records.
pub fn hand_back(records: &mut [[u32; 5]], works: [Waiting; RECORDS], n: usize)
    requires few { n ≤ record_count }
    requires long { n ≤ length records.old }
    ensures { records.new ≡ works_back n works records.old }
{
    for i in 0..n {
        records[i] = record_of(works[i]);
    }
}
