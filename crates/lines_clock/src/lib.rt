// The lines by clock cycles: the counts change in the request's own cycle, the line in the next. What is pending is a value that goes in and comes back.
#![tactic(auto)]

ghost use Rattle.std.specs.Prelude.{true, ◌≡◌, length};
ghost use Rattle.lines_model.specs.Calls.{heads};
ghost use Rattle.lines_model.specs.Clock.{clock_cleared, clock_held, drains, due_ok, had, is_pending, machine, cycled};
ghost use Rattle.lines_model.specs.Layout.{power_of_two, shape_ok, word};
ghost use Rattle.lines_model.specs.Rules as rules;
ghost use Rattle.lines_model.specs.Rules.{total};
ghost use Rattle.lines_model.specs.declared.Due.TheVariants.{Put, Rest, Swap, Take};
ghost use Rattle.lines_work.specs.Sizes.{sizes_by, Standing};
ghost use Rattle.promise.specs.Calls.{outcome};
ghost use Rattle.promise.specs.Drains.{drained};

use lines_model::{Choice, Due, Rows};
use lines_work::{
    Sizes, come_to, count, goal_of, has_room, in_range, lacks_tag, look_lines, rank_fit, shape_ok,
    sum_up, work,
};
use strip::{Element, Refusal, Request, is_refused, left_as, report};

// What a cycle answers, and what is pending after it.
pub type Cycled = strip::Cycled<Due>;

// What a drain reports: its answer, the cycles that it ran, whether work is left; and what is pending after it.
pub type Report = strip::Drained<Due, u32>;

// Is work pending?
fn is_pending(due: Due) -> bool
    ensures { result ≡ is_pending due }
{
    !matches!(due, Due::Rest)
}

// ---- what is pending is tested

// L2 and L3 of a push.
fn put_ok(s: &[u32], k: Rows, l: usize, x: Element) -> bool
    requires { shape_ok k (length s.now) ≡ true }
    ensures { result ≡ due_ok k s.now (Put l x) }
{
    if l >= k.lines {
        return false;
    }
    in_range(k, x) & (goal_of(k, l, x) == l) & (0 < s[l])
}

// .. and of a replace.
fn swap_ok(s: &[u32], k: Rows, l: usize, x: Element) -> bool
    requires { shape_ok k (length s.now) ≡ true }
    ensures { result ≡ due_ok k s.now (Swap l x) }
{
    if l >= k.lines {
        return false;
    }
    if !in_range(k, x) {
        return false;
    }
    let g = goal_of(k, l, x);
    let c = s[l] as usize;
    (0 < s[g]) & ((l == g) | (c < k.places))
}

fn due_ok(s: &[u32], k: Rows, due: Due) -> bool
    requires { shape_ok k (length s.now) ≡ true }
    ensures { result ≡ due_ok k s.now due }
{
    // each arm hands over other values: a closure for the step would be no plainer
    match due {
        Due::Rest => true,
        Due::Put(l, x) => put_ok(s, k, l, x),
        Due::Take(l) => has_room(s, k, l),
        Due::Swap(l, x) => swap_ok(s, k, l, x),
    }
}

// How many elements the lines of what is pending had before.
fn sizes_had(s: &[u32], k: Rows, due: Due) -> Sizes
    requires power { power_of_two k.lines ≡ true }
    requires standing { Standing k (length s.now) due }
    requires passes { due_ok k s.now due ≡ true }
    ensures { result ≡ sizes_by k (had k s.now due) due }
{
    match due {
        Due::Rest => Sizes { gives: 0, takes: 0 },
        Due::Put(l, _) => {
            let c = s[l] as usize;
            Sizes {
                gives: 0,
                takes: c - 1,
            }
        }
        Due::Take(l) => {
            let c = s[l] as usize;
            Sizes {
                gives: c + 1,
                takes: 0,
            }
        }
        Due::Swap(l, x) => {
            let g = goal_of(k, l, x);
            let c = s[l] as usize;
            if l == g {
                return Sizes { gives: c, takes: c };
            }
            let d = s[g] as usize;
            Sizes {
                gives: c + 1,
                takes: d - 1,
            }
        }
    }
}

// ---- a cycle

// Step 2: what the request comes to, by the counts and the first places as they stand.
fn choose(s: &[u32], k: Rows, q: Request, held: usize) -> Choice
    requires shaped { shape_ok k (length s.now) ≡ true }
    requires counted { held ≡ total (word s.now) k.lines }
    ensures { result ≡ rules.choose k (word s.now) (heads k s.now) q }
{
    if !rank_fit(k, q) {
        return Choice {
            answer: Err(Refusal::BadRank),
            due: Due::Rest,
        };
    }
    if lacks_tag(q) {
        return Choice {
            answer: Err(Refusal::NoTag),
            due: Due::Rest,
        };
    }
    come_to(s, k, q, held)
}

// A cycle with a request, or idle: test, sort, choose, write.
pub fn cycle(s: &mut [u32], k: Rows, due: Due, q: Request) -> Cycled
    ensures { outcome result.answer (machine s.new result.state) ≡ cycled k q (machine s.old due) }
{
    if !shape_ok(k, s.len()) {
        return left_as(Refusal::BadShape, due);
    }
    let seen = sum_up(s, k.lines, k.places);
    if !seen.ok {
        return left_as(Refusal::Damaged, due);
    }
    if !due_ok(s, k, due) {
        return left_as(Refusal::Damaged, due);
    }
    let size = sizes_had(s, k, due);
    let look = look_lines(s, k, due, size);
    if !look.ok {
        return left_as(Refusal::Damaged, due);
    }
    work(s, k, due, size, look.spot);
    let z = choose(s, k, q, seen.sum);
    count(s, k, z.due);
    Cycled {
        answer: z.answer,
        state: z.due,
    }
}

// Clear: zeros, and nothing pending.
pub fn clear(s: &mut [u32], k: Rows, due: Due) -> Cycled
    ensures { outcome result.answer (machine s.new result.state) ≡ clock_cleared k (machine s.old due) }
{
    let answer = lines::clear(s, k);
    if is_refused(answer) {
        return Cycled { answer, state: due };
    }
    Cycled {
        answer,
        state: Due::Rest,
    }
}

// Held: exact in the middle of any work. It reads no record.
pub fn held(s: &[u32], k: Rows) -> Result<u32, Refusal>
    ensures { result ≡ clock_held k (machine s.now Rest) }
{
    lines::held(s, k)
}

// Drain: idle cycles while work is pending and the budget lasts. One is always enough.
pub fn drain(s: &mut [u32], k: Rows, due: Due, budget: u32) -> Report
    ensures { drained result.answer result.cycles result.left (machine s.new result.state) ≡ drains k budget (machine s.old due) }
{
    if !shape_ok(k, s.len()) {
        return report(Err(Refusal::BadShape), 0, false, due);
    }
    if !is_pending(due) {
        return report(Ok(None), 0, false, due);
    }
    if budget == 0 {
        return report(Ok(None), 0, true, due);
    }
    let o = cycle(s, k, due, Request::Idle);
    if is_refused(o.answer) {
        return report(o.answer, 0, true, o.state);
    }
    report(Ok(None), 1, false, o.state)
}
