// The trace program's lines, laid into a buffer: a record's, and the last.
ghost use Rattle.std.specs.Prelude.{◌≡◌, ◌+◌, ◌≤◌, length};
ghost use Rattle.text.specs.Text.{overlay, longest, Laid};
ghost use Rattle.trace_model.specs.Format.{longest_line, longest_word, done_word, refusal_word, length_word, out_word, word_of, line_of, end_line};

use strip::{Answer, Element, Length, Refusal, Request};
use text::{put_bytes, put_number};
use trace_model::Version;

fn put_done(out: &mut [u8], at: usize, request: Request) -> usize
    requires { at + longest_word ≤ length out.old }
    ensures { (result ≡ at + length (done_word request)) × (out.new ≡ overlay out.old at (done_word request)) }
{
    match request {
        Request::Idle => put_bytes(out, at, b"idle"),
        Request::Push(_) => put_bytes(out, at, b"pushed"),
        Request::Pop => at,
        Request::Replace(_) => at,
    }
}

fn put_refusal(out: &mut [u8], at: usize, refusal: Refusal) -> usize
    requires { at + longest_word ≤ length out.old }
    ensures { (result ≡ at + length (refusal_word refusal)) × (out.new ≡ overlay out.old at (refusal_word refusal)) }
{
    match refusal {
        Refusal::TooSoon => put_bytes(out, at, b"too soon"),
        Refusal::Full => put_bytes(out, at, b"full"),
        Refusal::Empty => put_bytes(out, at, b"empty"),
        Refusal::NoTag => put_bytes(out, at, b"no tag"),
        Refusal::BadShape => at,
        Refusal::Damaged => at,
        Refusal::BadRank => at,
        Refusal::BadPort => at,
        Refusal::NoHeap => at,
    }
}

// The third number, which a line of version 1 does not have.
fn put_length(out: &mut [u8], at: usize, version: Version, len: Length) -> usize
    requires { at + longest + 1 ≤ length out.old }
    ensures { Laid out.old at (length_word version len.0) out.new result }
{
    match version {
        Version::One => at,
        Version::Two => {
            let a = put_bytes(out, at, b" ");
            put_number(out, a, len.0 as u64)
        }
    }
}

fn put_out(out: &mut [u8], at: usize, version: Version, e: Element) -> usize
    requires { at + longest_word ≤ length out.old }
    ensures { Laid out.old at (out_word version e) out.new result }
{
    let a = put_bytes(out, at, b"out ");
    let b = put_number(out, a, e.rank.0 as u64);
    let c = put_bytes(out, b, b" ");
    let d = put_number(out, c, e.tag.0 as u64);
    put_length(out, d, version, e.length)
}

fn put_word(out: &mut [u8], at: usize, version: Version, request: Request, answer: Answer) -> usize
    requires { at + longest_word ≤ length out.old }
    ensures { Laid out.old at (word_of version request answer) out.new result }
{
    // each arm hands over other values: a closure for the step would be no plainer
    match answer {
        Ok(None) => put_done(out, at, request),
        Ok(Some(e)) => put_out(out, at, version, e),
        Err(r) => put_refusal(out, at, r),
    }
}

// The line of one record: its number and what the cycle answered.
pub fn put_line(
    out: &mut [u8],
    at: usize,
    version: Version,
    number: u64,
    request: Request,
    answer: Answer,
) -> usize
    requires { at + longest_line ≤ length out.old }
    ensures { Laid out.old at (line_of version number request answer) out.new result }
{
    let a = put_number(out, at, number);
    let b = put_bytes(out, a, b" ");
    let c = put_word(out, b, version, request, answer);
    put_bytes(out, c, b"\n")
}

// The last line: how many are held, and how many cycles the drain took.
pub fn put_end(out: &mut [u8], at: usize, held: u32, cycles: usize) -> usize
    requires { at + longest_line ≤ length out.old }
    ensures { Laid out.old at (end_line held cycles) out.new result }
{
    let a = put_bytes(out, at, b"held ");
    let b = put_number(out, a, held as u64);
    let c = put_bytes(out, b, b" drained ");
    let d = put_number(out, c, cycles as u64);
    put_bytes(out, d, b"\n")
}
