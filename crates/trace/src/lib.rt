// The trace program's work, all but reading and writing: a trace played piece by piece into a buffer.
#![tactic(auto)]

ghost use Rattle.std.specs.Prelude.{Some, ◌≡◌, ◌+◌, ◌*◌, ◌/◌, ◌≤◌, false, length};
ghost use Rattle.text.specs.Text.{Laid};
ghost use Rattle.trace_model.specs.Format.{longest_line, record_bytes, entry_at, records_from, cut_record, bad_line};
ghost use Rattle.trace_model.specs.Play.{Makes, after, carry, while_live, turn, played, ending, closing, shut, opening, begun, piece_of};
ghost use Rattle.trace_model.specs.Program.{next_number};

use strip::Request;
use text::{put_bytes, put_number};
use trace_bytes::lines::{put_end, put_line};
use trace_bytes::records::{read_header, record_at, record_bytes};
use trace_model::{Header, Piece, Playing, Version};
use tree_clock::fresh_state;
use tree_clock_model::State;

// More bytes than any line has.
const LINE: usize = 96;

// The play with another state, behind so many records, live or ended.
fn carried(play: Playing, state: State, number: u64, live: bool, written: usize) -> Piece
    ensures { (result.play ≡ carry play state number live) × (result.written ≡ written) }
{
    let play = Playing {
        state,
        number,
        live,
        ..play
    };
    Piece { play, written }
}

// ---- the records

// One cycle, and its line.
fn play_good(store: &mut [u32], play: Playing, request: Request, at: usize, out: &mut [u8]) -> Piece
    requires { at + longest_line ≤ length out.old }
    ensures { Makes (turn (Some request) play store.old) at out.old result store.new out.new }
{
    let done = tree_clock::cycle(store, play.order, play.levels, play.state, request);
    let number = play.number.wrapping_add(1);
    let written = put_line(out, at, play.version, number, request, done.answer);
    carried(play, done.state, number, true, written)
}

// The line of a bad record, which ends the play.
fn play_bad(play: Playing, at: usize, out: &mut [u8]) -> Piece
    requires { at + longest_line ≤ length out.old }
    ensures { (result.play ≡ carry play play.state play.number false) × Laid out.old at (bad_line (next_number play.number)) out.new result.written }
{
    let number = play.number.wrapping_add(1);
    let a = put_bytes(out, at, b"bad record ");
    let b = put_number(out, a, number);
    let written = put_bytes(out, b, b"\n");
    carried(play, play.state, play.number, false, written)
}

// The record at a place of the input, unless the play has ended.
fn play_record(store: &mut [u32], piece: Piece, bytes: &[u8], at: usize, out: &mut [u8]) -> Piece
    requires { (at + record_bytes piece.play.version ≤ length bytes.now) × (piece.written + longest_line ≤ length out.old) }
    ensures { Makes (while_live (turn (entry_at piece.play.version bytes.now at)) piece.play store.old) piece.written out.old result store.new out.new }
{
    let play = piece.play;
    if !play.live {
        return piece;
    }
    match record_at(play.version, bytes, at) {
        None => play_bad(play, piece.written, out),
        Some(request) => play_good(store, play, request, piece.written, out),
    }
}

// The whole records, one after the other.
fn play_records(store: &mut [u32], play: Playing, bytes: &[u8], out: &mut [u8]) -> Piece
    requires { longest_line * (length bytes.now / record_bytes play.version) ≤ length out.old }
    ensures makes { Makes (played (records_from play.version (length bytes.now / record_bytes play.version) 0 bytes.now) play store.old) 0 out.old result store.new out.new }
    ensures written_bound { result.written ≤ longest_line * (length bytes.now / record_bytes play.version) }
{
    let size = record_bytes(play.version);
    let mut piece = Piece { play, written: 0 };
    let mut at = 0;
    for _left in (0..bytes.len() / size).rev() {
        piece = play_record(store, piece, bytes, at, out);
        at += size;
    }
    piece
}

// ---- the end

// Drains the machine, and says how many are held and how many cycles that took.
fn play_end(store: &mut [u32], play: Playing, at: usize, out: &mut [u8]) -> Piece
    requires { at + longest_line ≤ length out.old }
    ensures { Makes (ending play store.old) at out.old result store.new out.new }
{
    let done = tree_clock::drain(store, play.order, play.levels, play.state, play.levels);
    let held = strip::count_of(tree_clock::held(store, play.order, play.levels));
    let written = put_end(out, at, held, done.cycles);
    carried(play, done.state, play.number, false, written)
}

// What comes behind the whole records: one that is cut is bad, and the end of the input drains.
fn play_rest(store: &mut [u32], piece: Piece, cut: bool, last: bool, out: &mut [u8]) -> Piece
    requires { piece.written + longest_line ≤ length out.old }
    ensures { Makes (after (played (cut_record cut) piece.play store.old) (closing last)) piece.written out.old result store.new out.new }
{
    let play = piece.play;
    if !play.live {
        return piece;
    }
    if cut {
        return play_bad(play, piece.written, out);
    }
    if last {
        return play_end(store, play, piece.written, out);
    }
    piece
}

// ---- the calls

// A play that was never live.
fn closed(written: usize) -> Piece
    ensures { (result.play ≡ shut) × (result.written ≡ written) }
{
    let play = Playing {
        version: Version::One,
        order: 0,
        levels: 0,
        state: fresh_state(),
        number: 0,
        live: false,
    };
    Piece { play, written }
}

// A play on a cleared machine.
fn opened(store: &mut [u32], header: Header) -> Piece
    ensures { (result.play ≡ (opening (Some header) store.old).play) × (store.new ≡ (opening (Some header) store.old).words) × (result.written ≡ 0) }
{
    let cleared = tree_clock::clear(store, header.order, header.levels, fresh_state());
    let play = Playing {
        version: header.version,
        order: header.order,
        levels: header.levels,
        state: cleared.state,
        number: 0,
        live: true,
    };
    Piece { play, written: 0 }
}

// Begins a play: what the header says, from the input's first bytes. A buffer without room for a line is left alone.
pub fn begin(store: &mut [u32], head: &[u8], out: &mut [u8]) -> Piece
    ensures { Makes (begun head.now (length out.old) store.old) 0 out.old result store.new out.new }
{
    if out.len() < LINE {
        return closed(0);
    }
    match read_header(head) {
        None => closed(put_bytes(out, 0, b"bad trace\n")),
        Some(header) => opened(store, header),
    }
}

// Plays a piece of the input, the last or one of whole records. A buffer without room for a line of each record and one more is left
// alone, and so is everything else.
pub fn play(store: &mut [u32], play: Playing, bytes: &[u8], last: bool, out: &mut [u8]) -> Piece
    ensures { Makes (piece_of bytes.now last (length out.old) play store.old) 0 out.old result store.new out.new }
{
    let size = record_bytes(play.version);
    if out.len() / LINE <= bytes.len() / size {
        return Piece { play, written: 0 };
    }
    let whole = play_records(store, play, bytes, out);
    play_rest(store, whole, bytes.len() % size != 0, last, out)
}
