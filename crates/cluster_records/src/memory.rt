// The host's own records of the clocked cluster heap, read and written back.
ghost use Rattle.std.specs.Prelude.{◌≡◌, length};
ghost use Rattle.strip.specs.Answers.{number_of};
ghost use Rattle.cluster_records.specs.Lent.{stages_back};
ghost use Rattle.cluster_records.specs.Steps.{reach, read_of, Ready};

use crate::{ClusterEnded, ClusterRead, is_kind, reached, record_of, stage_of};
use cluster_clock_level::shaped::fresh_records;
use strip::number;

// What is read of the records: those of so many levels, where the slice has them. The stages are a local of the loop: what goes through a call
// for each record is one record or one stage, and no array.
pub fn load(records: &[[u32; 6]], levels: usize) -> ClusterRead
    ensures { result ≡ read_of (reach levels (length records.now)) records.now }
{
    let mut stages = fresh_records();
    let mut ok = true;
    for i in 0..reached(levels, records.len()) {
        let r = records[i];
        stages[i] = stage_of(r);
        ok &= is_kind(r);
    }
    ClusterRead { stages, ok }
}

// Writes the records that are to be written, and answers the call's number.
pub fn hand_back(records: &mut [[u32; 6]], ended: ClusterEnded) -> u32
    requires { Ready ended (length records.old) }
    ensures { (records.new ≡ stages_back ended.count ended.stages records.old) × (result ≡ number_of ended.answer) }
{
    // a local of the loop here too: read out of `ended`, all of it is copied, and a clear takes twice the stack
    let stages = ended.stages;
    for i in 0..ended.count {
        records[i] = record_of(stages[i]);
    }
    number(ended.answer)
}
