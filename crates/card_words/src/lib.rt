// Under the boundary: what `out` receives, and the request and the mark as numbers.
#![tactic(auto)]

ghost use Rattle.std.specs.Prelude.{◌≡◌, cond, set};
ghost use Rattle.strip.specs.Answers.{number_of, count_number, count_of};
ghost use Rattle.card_words.specs.Out.{Long, answer_out, answer_words, drain_out, drain_words, refused_out};
ghost use Rattle.card_words.specs.Asked.{asked, marked, request_of};

pub mod sizes;

use strip::{
    Answer, ELEMENT_WORDS, Refusal, Request, count_number, count_of, element_of, given, number,
    write_element,
};

// ---- what `out` receives

// The words of an answer: rank, tag and length.
pub const OUT: usize = ELEMENT_WORDS;

// Writes an answer's rank, tag and length, zeros on a refusal, and returns its number.
pub fn tell(out: &mut [u32], answer: Answer) -> u32
    requires { Long answer_words out.old }
    ensures { (result ≡ number_of answer) × (out.new ≡ answer_out answer out.old) }
{
    write_element(out, 0, given(answer));
    number(answer)
}

// Where the boundary says no to a cycle: zeros, if `out` has room for an answer.
pub fn refuse(out: &mut [u32])
    ensures { out.new ≡ refused_out answer_words out.old }
{
    if out.len() < OUT {
        return;
    }
    tell(out, Err(Refusal::BadShape));
}

// Writes a count, 0 on a refusal, and returns its number.
pub fn tell_count(out: &mut [u32], count: Result<u32, Refusal>) -> u32
    requires { Long 1 out.old }
    ensures { (result ≡ count_number count) × (out.new ≡ set out.old 0 (count_of count)) }
{
    out[0] = count_of(count);
    count_number(count)
}

// The words of a drain's report: cycles run and whether work is left.
pub const DRAIN_OUT: usize = 2;

// Writes the cycles run and whether work is left.
pub fn tell_drain(out: &mut [u32], cycles: u32, left: bool)
    requires { Long drain_words out.old }
    ensures { out.new ≡ drain_out cycles left out.old }
{
    out[0] = cycles;
    out[1] = u32::from(left);
}

// ---- the numbers handed in

pub fn request_of(request: u32, rank: u32, tag: u32, length: u32) -> Request
    ensures { result ≡ request_of request rank tag length }
{
    let x = element_of(rank, tag, length);
    if request == 1 {
        return Request::Push(x);
    }
    if request == 2 {
        return Request::Pop;
    }
    if request == 3 {
        return Request::Replace(x);
    }
    Request::Idle
}

pub fn is_marked(mark: &[u32]) -> bool
    ensures { result ≡ marked mark.now }
{
    if mark.len() < 1 {
        return false;
    }
    mark[0] <= 1
}

// Whether the boundary takes a call: there is a mark, and the request is one.
pub fn is_asked(mark: &[u32], request: u32) -> bool
    ensures { result ≡ asked mark.now request }
{
    (request <= 3) & is_marked(mark)
}
