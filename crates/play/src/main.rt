// Plays a trace from standard input to standard output, in pieces of whole records of either version, whatever the input's length. The
// work is `trace`'s, with every choice in it; here it is read and written. Where a read or a write fails nothing more is read, and
// standard error says so.
#![tactic(auto)]

#[cfg(test)]
mod tests;

ghost use Rattle.std.specs.Prelude.{◌≤◌, ◌≡◌, ltb, length, take, List, ℕ, Some, IfOk, IfErr, OnOk};
ghost use Rattle.std.specs.Io.{ReadsAtMost};
ghost use Rattle.std.specs.Io.KnownBytes.{Appends};
ghost use Rattle.trace_model.specs.Format.{header_bytes};
ghost use Rattle.play.specs.Input.{Gave, Took, WritesTrace, fault_text};
ghost use Rattle.trace_model.specs.Play.{begun, Makes, out_bytes, piece_bytes, piece_run, program_lots};

use std::fmt;
use std::io::{Read, Write};
use trace_model::{Piece, Playing};

// All buffers have a fixed length, so that the memory is the same however long the input is.

// A store for every shape that the program takes.
const STORE: usize = 16376;

// The header's bytes.
const HEAD: usize = 7;

// The bytes of a piece: 4,095 records of version 1 or 2,835 of version 2. Room for a line of each and one more.
const BYTES: usize = 36855;

const OUT: usize = 393216;

// What ended the play before its input did.
#[derive(Clone, Copy)]
enum Fault {
    Read,
    Write,
}

impl fmt::Display for Fault {
    ghost output = { λ fault. Some (fault_text fault) };

    fn fmt<W: fmt::Write>(&self, f: &mut fmt::Formatter<W>) -> fmt::Result {
        match self {
            Fault::Read => write!(f, "a read failed"),
            Fault::Write => write!(f, "a write failed"),
        }
    }
}

// Reads until the buffer is full or the input ends, and answers how many bytes were read.
fn fill<R: Read>(input: &mut R, buf: &mut [u8]) -> Result<usize, Fault>
    ensures bound { ReadsAtMost result buf.new }
    ensures fault { IfErr result (λ fault. fault ≡ Fault.Read) }
    ensures took { IfOk result (λ n. Took (length buf.new) (R.remaining input.old) (R.remaining input.new) (take n buf.new)) }
{
    let mut bytes = 0;
    while bytes < buf.len() {
        match input.read(&mut buf[bytes..]) {
            Ok(0) => break,
            Ok(n) => bytes += n,
            Err(_) => return Err(Fault::Read),
        }
    }
    Ok(bytes)
}

// Writes all the lines.
fn put<W: Write>(output: &mut W, lines: &[u8]) -> Result<(), Fault>
    ensures fault { IfErr result (λ fault. fault ≡ Fault.Write) }
    ensures text { OnOk result (Appends (W.contents output.old) (W.contents output.new) lines.now) }
{
    output.write_all(lines).map_err(|_| Fault::Write)
}

// Plays what was read. A piece that is not full is the last, and the buffer has room for all its lines.
fn play_read(store: &mut [u32], play: Playing, bytes: &[u8], out: &mut [u8]) -> Piece
    requires piece { length bytes.now ≤ piece_bytes program_lots }
    requires room { length out.old ≡ out_bytes program_lots }
    ensures { Makes (piece_run bytes.now (ltb (length bytes.now) (piece_bytes program_lots)) play store.old) 0 out.old result store.new out.new }
{
    trace::play(store, play, bytes, bytes.len() < BYTES, out)
}

// Reads a piece, plays it and writes its lines.
fn piece<R: Read, W: Write>(
    input: &mut R,
    output: &mut W,
    store: &mut [u32],
    play: Playing,
    bytes: &mut [u8],
    out: &mut [u8],
) -> Result<Playing, Fault>
    requires piece { length bytes.old ≡ piece_bytes program_lots }
    requires room { length out.old ≡ out_bytes program_lots }
    ensures { IfOk result (λ next. (bs : List ℕ) × Took (piece_bytes program_lots) (R.remaining input.old) (R.remaining input.new) bs
        × Gave (piece_run bs (ltb (length bs) (piece_bytes program_lots)) play store.old) next store.new (W.contents output.old) (W.contents output.new)) }
{
    let n = fill(input, bytes)?;
    let done = play_read(store, play, &bytes[..n], out);
    put(output, &out[..done.written])?;
    Ok(done.play)
}

// Reads the header, begins the play and writes what it says.
fn begin<R: Read, W: Write>(
    input: &mut R,
    output: &mut W,
    store: &mut [u32],
    out: &mut [u8],
) -> Result<Playing, Fault>
    ensures { IfOk result (λ next. (bs : List ℕ) × Took header_bytes (R.remaining input.old) (R.remaining input.new) bs
        × Gave (begun bs (length out.old) store.old) next store.new (W.contents output.old) (W.contents output.new)) }
{
    let mut head = [0u8; HEAD];
    let n = fill(input, &mut head)?;
    let done = trace::begin(store, &head[..n], out);
    put(output, &out[..done.written])?;
    Ok(done.play)
}

// Plays the whole input: what is written is the text of the trace that was read. What bounds the loop is a number of pieces that no input
// reaches.
fn play_input<R: Read, W: Write>(input: &mut R, output: &mut W) -> Result<(), Fault>
    ensures { OnOk result (WritesTrace (R.remaining input.old) (W.contents output.old) (W.contents output.new)) }
{
    let mut store = [0u32; STORE];
    let mut bytes = [0u8; BYTES];
    let mut out = [0u8; OUT];
    let mut play = begin(input, output, &mut store, &mut out)?;
    for _ in 0..u64::MAX {
        if !play.live {
            break;
        }
        play = piece(input, output, &mut store, play, &mut bytes, &mut out)?;
    }
    Ok(())
}

// Where standard error takes no line either, there is nowhere left to say so.
fn main(rt: HostRuntime) {
    if let Err(fault) = play_input(&mut rt.stdin(), &mut rt.stdout()) {
        let _ = eprintln!(rt; "play: {fault}");
    }
}
