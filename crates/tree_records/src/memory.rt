// The host's own records, read and written back. These two functions are thin: whatever is decided or computed is in functions that have no
// slice of structs.
ghost use Rattle.std.specs.Prelude.{◌≡◌, length};
ghost use Rattle.strip.specs.Answers.{number_of};
ghost use Rattle.tree_records.specs.Lent.{works_back};
ghost use Rattle.tree_records.specs.Steps.{reach, read_of, Ready};

use crate::{Ended, Read, Record, is_kind, reached, returned, work_of};
use strip::number;
use tree_clock_level::records::no_work;
use tree_clock_model::RECORDS;

// What is read of the records: those of so many levels, where the slice has them. The works are a local of the loop: what goes through a call
// for each record is one record or one work, and no array.
#[tactic(auto, unfolding(crate::specs::Lent::works_read, crate::specs::Lent::kinds_ok, crate::specs::Steps::lends))]
pub fn load(records: &[Record], levels: u32) -> Read
    ensures { result ≡ read_of (reach levels (length records.now)) records.now }
{
    let n = reached(levels, records.len());
    let mut works = [no_work(); RECORDS];
    let mut ok = true;
    for i in 0..n {
        let r = records[i];
        works[i] = work_of(r);
        ok = ok & is_kind(r);
    }
    Read { works, ok }
}

// Writes the records that are to be written, and answers the call's number.
#[tactic(auto, unfolding(crate::specs::Lent::works_back))]
pub fn hand_back(records: &mut [Record], ended: Ended) -> u32
    requires { Ready ended (length records.old) }
    ensures { (records.new ≡ works_back ended.count ended.state.records records.old) × (result ≡ number_of ended.answer) }
{
    let works = ended.state.records; // in place, a cycle takes 3 in 100 more instructions: all of `ended` is copied
    for i in 0..ended.count {
        records[i] = returned(records[i], works[i]);
    }
    number(ended.answer)
}
