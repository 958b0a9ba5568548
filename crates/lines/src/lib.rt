// The lines, one operation at a time.
#![tactic(auto)]

ghost use Rattle.std.specs.Prelude.{true, ◌≡◌, length};
ghost use Rattle.lines_model.specs.Calls.{called, cleared, held_count, outcome};
ghost use Rattle.lines_model.specs.Layout.{power_of_two, word};
ghost use Rattle.lines_work.specs.Sizes.{sizes_by, Standing};
ghost use Rattle.strip.specs.declared.Request.TheVariants.{Pop, Push, Replace};

use lines_model::{Due, Rows};
use lines_work::{
    Sizes, come_to, count, goal_of, lacks_tag, look_lines, rank_fit, shape_ok, sum_up, wipe_words,
    work,
};
use strip::{Answer, Element, Refusal, Request};

// All counts and places become 0. The rest of a longer slice stays.
pub fn clear(s: &mut [u32], k: Rows) -> Answer
    ensures { outcome result s.new ≡ cleared k s.old }
{
    if !shape_ok(k, s.len()) {
        return Err(Refusal::BadShape);
    }
    let words = k.lines + 3 * (k.lines * k.places);
    wipe_words(s, words);
    Ok(None)
}

// How many are held.
pub fn held(s: &[u32], k: Rows) -> Result<u32, Refusal>
    ensures { result ≡ held_count k s.now }
{
    if !shape_ok(k, s.len()) {
        return Err(Refusal::BadShape);
    }
    let seen = sum_up(s, k.lines, k.places);
    if !seen.ok {
        return Err(Refusal::Damaged);
    }
    Ok(seen.sum as u32)
}

// How many elements the lines of what is to be done have now.
fn sizes_now(s: &[u32], k: Rows, due: Due) -> Sizes
    requires power { power_of_two k.lines ≡ true }
    requires standing { Standing k (length s.now) due }
    ensures { result ≡ sizes_by k (word s.now) due }
{
    match due {
        Due::Rest => Sizes { gives: 0, takes: 0 },
        Due::Put(l, _) => {
            let c = s[l] as usize;
            Sizes { gives: 0, takes: c }
        }
        Due::Take(l) => {
            let c = s[l] as usize;
            Sizes { gives: c, takes: 0 }
        }
        Due::Swap(l, x) => {
            let g = goal_of(k, l, x);
            let c = s[l] as usize;
            let d = s[g] as usize;
            Sizes { gives: c, takes: d }
        }
    }
}

// A request: what it is asked, what it comes to, the test of its lines, and then its counts and its lines.
fn call(s: &mut [u32], k: Rows, q: Request) -> Answer
    ensures { outcome result s.new ≡ called k q s.old }
{
    if !shape_ok(k, s.len()) {
        return Err(Refusal::BadShape);
    }
    if !rank_fit(k, q) {
        return Err(Refusal::BadRank);
    }
    if lacks_tag(q) {
        return Err(Refusal::NoTag);
    }
    let seen = sum_up(s, k.lines, k.places);
    if !seen.ok {
        return Err(Refusal::Damaged);
    }
    let z = come_to(s, k, q, seen.sum);
    let due = z.due; // a local: handed on out of `z`, all of `z` stays on the stack
    let size = sizes_now(s, k, due);
    let look = look_lines(s, k, due, size);
    if !look.ok {
        return Err(Refusal::Damaged);
    }
    count(s, k, due);
    work(s, k, due, size, look.spot);
    z.answer
}

// Push x.
pub fn push(s: &mut [u32], k: Rows, x: Element) -> Answer
    ensures { outcome result s.new ≡ called k (Push x) s.old }
{
    call(s, k, Request::Push(x))
}

// Pop.
pub fn pop(s: &mut [u32], k: Rows) -> Answer
    ensures { outcome result s.new ≡ called k Pop s.old }
{
    call(s, k, Request::Pop)
}

// Replace: the pop, and then the push of x.
pub fn replace(s: &mut [u32], k: Rows, x: Element) -> Answer
    ensures { outcome result s.new ≡ called k (Replace x) s.old }
{
    call(s, k, Request::Replace(x))
}
