// The lines' own work: a line's words, the test of a line, which line, and what is done for a request. One operation at a time and the clock both use it.
#![tactic(auto)]

ghost use Rattle.std.specs.Prelude.{true, Bool, ℕ, ◌≡◌, ◌*◌, ◌+◌, ◌≤◌, ◌<◌, length};
ghost use Rattle.lines_model.specs.Calls.{heads, wipe};
ghost use Rattle.lines_model.specs.Layout.{line_of, power_of_two, put_in, row_at, row_in, shape_ok, without, word};
ghost use Rattle.lines_model.specs.Rules as rules;
ghost use Rattle.lines_model.specs.Rules.{come_to, counted, giver, goal, has_room, in_range, lowest, own_rank, rank_fit, room_after, seek, taker, total};
ghost use Rattle.lines_work.specs.Shift.{down, up};
ghost use Rattle.lines_work.specs.Work.{blank_end, Countable, ends_own, Fits, front, lined, looked, Lying, one_more, Passed, scanned, Seated, seen, totals, worked_by};
ghost use Rattle.lines_model.specs.declared.Due.TheVariants.{Swap};
ghost use Rattle.promise.specs.Calls.{lacks_tag};
ghost use Rattle.strip.specs.declared.Request.TheVariants.{Pop, Push, Replace};

use lines_model::{Choice, Due, Rows};
use strip::{
    Answer, Element, Refusal, Request, element_at, is_blank, is_untagged, no_element, write_element,
};

// The words of a place.
const PLACE: usize = 3;

// A rank above all, and no Option: so the front of an empty line loses each comparison, and the lowest front is one comparison a line.
const NONE: u64 = 4294967296;

// The counts seen: whether none is above the places of a line, and their sum. It is no Option: `sum_up` promises the sum where a count is above too.
#[derive(Clone, Copy)]
pub struct Totals {
    pub ok: bool,
    pub sum: usize,
}

// What the test of a line tells: whether it passes, and how many of its ranks are at most the newcomer's, which is the place where that goes. It is no Option:
// `look_lines` promises the place of a line that does not pass too.
#[derive(Clone, Copy)]
pub struct Look {
    pub ok: bool,
    pub spot: usize,
}

// How many elements the line has that gives, and the one that x goes into, before the work.
#[derive(Clone, Copy)]
pub struct Sizes {
    pub gives: usize,
    pub takes: usize,
}

// ---- a line's places move by their words, in loops that are a copy and nothing else; not by `copy_within`, whose `memmove` the library for C would ask of its host

// n words from word b on move a place up, the last one first.
fn shift_up(s: &mut [u32], b: usize, n: usize)
    requires { b + n + 3 ≤ length s.old }
    ensures { s.new ≡ up s.old b n }
{
    for left in (0..n).rev() {
        s[b + left + PLACE] = s[b + left];
    }
}

// n words come down by a place to word a, the first one first.
fn shift_down(s: &mut [u32], a: usize, n: usize)
    requires { a + n + 3 ≤ length s.old }
    ensures { s.new ≡ down s.old a n }
{
    for b in a..a + n {
        s[b] = s[b + PLACE];
    }
}

// x is put into the line of c elements that begins at word a, at its spot.
fn put_at(s: &mut [u32], a: usize, c: usize, spot: usize, x: Element)
    requires words_in { a + 3 * c + 3 ≤ length s.old }
    requires seated { Seated s.old a c spot x }
    ensures { s.new ≡ put_in s.old a c x }
{
    let b = a + PLACE * spot;
    let n = PLACE * (c - spot);
    shift_up(s, b, n);
    write_element(s, b, x);
}

// The line of c elements that begins at word a gives its first place away.
fn take_out(s: &mut [u32], a: usize, c: usize)
    requires { (1 ≤ c) × (a + 3 * c ≤ length s.old) }
    ensures { s.new ≡ without s.old a c }
{
    let n = PLACE * (c - 1);
    shift_down(s, a, n);
    let b = a + n;
    write_element(s, b, no_element());
}

// Both in one line: only the places before x's own move.
fn swap_at(s: &mut [u32], a: usize, c: usize, spot: usize, x: Element)
    requires words_in { (1 ≤ c) × (a + 3 * c ≤ length s.old) }
    requires seated { Seated s.old a c spot x }
    ensures { s.new ≡ lined s.old a c true true x }
{
    let n = PLACE * spot.saturating_sub(1);
    shift_down(s, a, n);
    let b = a + n;
    write_element(s, b, x);
}

// The work at one line of c elements that begins at word a: its first place leaves, x comes in, or both. Two questions and not a kind of work: one leaf has all of it.
fn work_line(s: &mut [u32], a: usize, c: usize, gives: bool, takes: bool, spot: usize, x: Element)
    requires { Lying s.old a c gives takes spot x }
    ensures { s.new ≡ lined s.old a c gives takes x }
{
    if gives & takes {
        swap_at(s, a, c, spot, x);
        return;
    }
    if gives {
        take_out(s, a, c);
        return;
    }
    if takes {
        put_at(s, a, c, spot, x);
    }
}

// ---- the shape

// Is it a power of two from 1 to 512?
fn power_of_two(n: usize) -> bool
    ensures { result ≡ power_of_two n }
{
    n.is_power_of_two() & (n <= 512)
}

// Are these numbers a shape, and has a slice so long room for it?
pub fn shape_ok(k: Rows, long: usize) -> bool
    ensures { result ≡ shape_ok k long }
{
    let power = power_of_two(k.lines);
    let fine = ((k.kind == 1) | (k.kind == 2)) & power & (1 <= k.places) & (k.places <= 1024);
    if !fine {
        return false;
    }
    k.lines + PLACE * (k.lines * k.places) <= long
}

// The first word of line l.
fn row_at(k: Rows, l: usize) -> usize
    requires { (k.lines ≤ 512) × (k.places ≤ 1024) × (l < k.lines) }
    ensures { result ≡ row_at k l }
{
    k.lines + PLACE * (l * k.places)
}

// The line of a rank.
fn line_of(k: Rows, rank: u32) -> usize
    requires { power_of_two k.lines ≡ true }
    ensures { result ≡ line_of k rank }
{
    rank as usize / (65536 / k.lines)
}

// Zeros in all words of the lines.
pub fn wipe_words(s: &mut [u32], n: usize)
    requires { n ≤ length s.old }
    ensures { s.new ≡ wipe n s.old }
{
    s[..n].fill(0);
}

// ---- the counts

// The first n counts: is each at most so many? And their sum.
pub fn sum_up(s: &[u32], n: usize, most: usize) -> Totals
    requires { (n ≤ 512) × (n ≤ length s.now) }
    ensures { result ≡ totals s.now n most }
{
    let mut ok = true;
    let mut sum = 0;
    for i in 0..n {
        let c = s[i] as usize;
        ok &= c <= most;
        sum += c;
    }
    Totals { ok, sum }
}

// ---- the test of a line

// One pass over the ranks of c places from word a on: do they ascend, and how many are at most this rank?
fn scan(s: &[u32], a: usize, c: usize, rank: u32) -> Look
    requires { (c ≤ 1024) × (a + 3 * c ≤ length s.now) }
    ensures { result ≡ scanned rank (row_in s.now a c) }
{
    let mut ok = true;
    let mut spot = 0;
    let mut last = 0;
    for i in 0..c {
        let here = s[a + PLACE * i];
        ok &= last <= here;
        spot += (here <= rank) as usize;
        last = here;
    }
    Look { ok, spot }
}

// Does a rank belong to line l?
fn own_rank(k: Rows, l: usize, rank: u32) -> bool
    requires { power_of_two k.lines ≡ true }
    ensures { result ≡ own_rank k l rank }
{
    let line = line_of(k, rank);
    (k.kind != 1) | ((rank < 65536) & (line == l))
}

// Do the first and the last of c ranks from word a on belong to line l? Where they ascend, all do then.
fn ends_own(s: &[u32], k: Rows, l: usize, a: usize, c: usize) -> bool
    requires power { power_of_two k.lines ≡ true }
    requires words_in { (c ≤ 1024) × (a + 3 * c ≤ length s.now) }
    ensures { result ≡ ends_own k l s.now a c }
{
    if c == 0 {
        return true;
    }
    let end = a + PLACE * (c - 1);
    let first = own_rank(k, l, s[a]);
    let last = own_rank(k, l, s[end]);
    first & last
}

// Is place c of the line that begins at word a, where it has one, 0, 0, 0?
fn blank_end(s: &[u32], k: Rows, a: usize, c: usize) -> bool
    requires { (c ≤ 1024) × (a + 3 * k.places ≤ length s.now) }
    ensures { result ≡ blank_end k s.now a c }
{
    if c < k.places {
        return is_blank(element_at(s, a + PLACE * c));
    }
    true
}

// The test of line l with c elements, and the place of a newcomer of this rank.
fn look_line(s: &[u32], k: Rows, l: usize, c: usize, rank: u32) -> Look
    requires shaped { shape_ok k (length s.now) ≡ true }
    requires line_in { (l < k.lines) × (c ≤ k.places) }
    ensures { result ≡ seen k s.now l c rank }
{
    let a = row_at(k, l);
    let row = scan(s, a, c, rank);
    let own = ends_own(s, k, l, a, c);
    let end = blank_end(s, k, a, c);
    Look {
        ok: row.ok & own & end,
        spot: row.spot,
    }
}

// The lines of what is to be done.
pub fn look_lines(s: &[u32], k: Rows, due: Due, size: Sizes) -> Look
    requires shaped { shape_ok k (length s.now) ≡ true }
    requires fits { Fits k size due }
    ensures { result ≡ looked k s.now size due }
{
    // each arm hands over other values: a closure for the step would be no plainer
    match due {
        Due::Rest => Look { ok: true, spot: 0 },
        Due::Put(l, x) => look_line(s, k, l, size.takes, x.rank.0),
        Due::Take(l) => look_line(s, k, l, size.gives, 0),
        Due::Swap(l, x) => look_two(s, k, l, x, size),
    }
}

// The line that gives, and the one that x goes into.
fn look_two(s: &[u32], k: Rows, l: usize, x: Element, size: Sizes) -> Look
    requires shaped { shape_ok k (length s.now) ≡ true }
    requires line_in { (l < k.lines) × (goal k l x < k.lines) × (size.gives ≤ k.places) × (size.takes ≤ k.places) }
    ensures { result ≡ looked k s.now size (Swap l x) }
{
    let g = goal_of(k, l, x);
    let to = look_line(s, k, g, size.takes, x.rank.0);
    let from = look_line(s, k, l, size.gives, 0);
    Look {
        ok: from.ok & to.ok,
        spot: to.spot,
    }
}

// ---- which line

// The first of n lines whose count passes; n where there is none.
fn first_where<F: Fn(u32) -> bool>(s: &[u32], n: usize, passes: F) -> usize
    requires words_in { n ≤ length s.now }
    requires callable { F.IsAlwaysCallable passes }
    ensures { (t : ℕ → Bool) → ((c : ℕ) (b : Bool) → c < 4294967296 → F.post passes c b → b ≡ t c) → result ≡ seek (λ l. t (word s.now l)) n }
{
    for i in 0..n {
        if passes(s[i]) {
            return i;
        }
    }
    n
}

// The rank at the front of line l, above all ranks where it is empty.
fn front_of(s: &[u32], k: Rows, l: usize) -> u64
    requires shaped { shape_ok k (length s.now) ≡ true }
    requires line_in { l < k.lines }
    ensures { result ≡ front k s.now l }
{
    let c = s[l];
    let a = row_at(k, l);
    let rank = s[a];
    if c == 0 { NONE } else { rank as u64 }
}

// Of the lines that are not empty the one whose first place has the lowest rank, the first of these on a tie.
fn lowest_line(s: &[u32], k: Rows) -> usize
    requires { shape_ok k (length s.now) ≡ true }
    ensures { result ≡ lowest (word s.now) (heads k s.now) k.lines }
{
    let mut j = 0;
    let mut best = front_of(s, k, 0);
    for i in 0..k.lines {
        let here = front_of(s, k, i);
        if here < best {
            best = here;
            j = i;
        }
    }
    j
}

// Where x goes.
fn taker_of(s: &[u32], k: Rows, x: Element) -> usize
    requires { shape_ok k (length s.now) ≡ true }
    ensures { result ≡ taker k (word s.now) x }
{
    if k.kind == 1 {
        return line_of(k, x.rank.0);
    }
    first_where(s, k.lines, |c| (c as usize) < k.places)
}

// The line that gives.
fn giver_of(s: &[u32], k: Rows) -> usize
    requires { shape_ok k (length s.now) ≡ true }
    ensures { result ≡ giver k (word s.now) (heads k s.now) }
{
    if k.kind == 1 {
        return first_where(s, k.lines, |c| 0 < c);
    }
    lowest_line(s, k)
}

// Where a replace's x goes, when line l has given.
pub fn goal_of(k: Rows, l: usize, x: Element) -> usize
    requires { power_of_two k.lines ≡ true }
    ensures { result ≡ goal k l x }
{
    if k.kind == 1 {
        return line_of(k, x.rank.0);
    }
    l
}

// ---- what a request comes to

// 4: kind 1 has the ranks 0 to 65,535.
pub fn in_range(k: Rows, x: Element) -> bool
    ensures { result ≡ in_range k x }
{
    (k.kind != 1) | (x.rank.0 < 65536)
}

// .. of any request.
pub fn rank_fit(k: Rows, q: Request) -> bool
    ensures { result ≡ rank_fit k q }
{
    match q {
        Request::Idle => true,
        Request::Push(x) => in_range(k, x),
        Request::Pop => true,
        Request::Replace(x) => in_range(k, x),
    }
}

// 7: does it bring an element without a tag?
pub fn lacks_tag(q: Request) -> bool
    ensures { result ≡ lacks_tag q }
{
    match q {
        Request::Idle => false,
        Request::Push(x) => is_untagged(x),
        Request::Pop => false,
        Request::Replace(x) => is_untagged(x),
    }
}

// Is it a line, and not full?
pub fn has_room(s: &[u32], k: Rows, l: usize) -> bool
    requires { k.lines ≤ length s.now }
    ensures { result ≡ has_room k (word s.now) l }
{
    l < k.lines && (s[l] as usize) < k.places
}

// Is there room at line g once line l has given?
fn room_after(s: &[u32], k: Rows, l: usize, g: usize) -> bool
    requires { g < length s.now }
    ensures { result ≡ room_after k (word s.now) l g }
{
    let c = s[g] as usize;
    (l == g) | (c < k.places)
}

// Refused, there is nothing to be done.
fn denied(r: Refusal) -> Choice
    ensures { result ≡ rules.denied r }
{
    Choice {
        answer: Err(r),
        due: Due::Rest,
    }
}

// Push.
fn come_push(s: &[u32], k: Rows, x: Element) -> Choice
    requires { shape_ok k (length s.now) ≡ true }
    ensures { result ≡ come_to k (word s.now) (heads k s.now) (Push x) }
{
    let l = taker_of(s, k, x);
    if !has_room(s, k, l) {
        return denied(Refusal::Full);
    }
    Choice {
        answer: Ok(None),
        due: Due::Put(l, x),
    }
}

// Pop.
fn come_pop(s: &[u32], k: Rows, held: usize) -> Choice
    requires shaped { shape_ok k (length s.now) ≡ true }
    requires counted { held ≡ total (word s.now) k.lines }
    ensures { result ≡ come_to k (word s.now) (heads k s.now) Pop }
{
    if held == 0 {
        return denied(Refusal::Empty);
    }
    let l = giver_of(s, k);
    Choice {
        answer: Ok(Some(element_at(s, row_at(k, l)))),
        due: Due::Take(l),
    }
}

// Replace.
fn come_replace(s: &[u32], k: Rows, x: Element, held: usize) -> Choice
    requires shaped { shape_ok k (length s.now) ≡ true }
    requires counted { held ≡ total (word s.now) k.lines }
    requires ranged { in_range k x ≡ true }
    ensures { result ≡ come_to k (word s.now) (heads k s.now) (Replace x) }
{
    if held == 0 {
        return denied(Refusal::Empty);
    }
    let l = giver_of(s, k);
    let g = goal_of(k, l, x);
    if !room_after(s, k, l, g) {
        return denied(Refusal::Full);
    }
    Choice {
        answer: Ok(Some(element_at(s, row_at(k, l)))),
        due: Due::Swap(l, x),
    }
}

// What a request comes to by the counts, whose sum is held, and the lines' first places.
pub fn come_to(s: &[u32], k: Rows, q: Request, held: usize) -> Choice
    requires shaped { shape_ok k (length s.now) ≡ true }
    requires counted { held ≡ total (word s.now) k.lines }
    requires fitting { rank_fit k q ≡ true }
    ensures { result ≡ come_to k (word s.now) (heads k s.now) q }
{
    // each arm hands over other values: a closure for the step would be no plainer
    match q {
        Request::Idle => Choice {
            answer: Ok(None),
            due: Due::Rest,
        },
        Request::Push(x) => come_push(s, k, x),
        Request::Pop => come_pop(s, k, held),
        Request::Replace(x) => come_replace(s, k, x, held),
    }
}

// ---- what is done for it

// The counts.
pub fn count(s: &mut [u32], k: Rows, due: Due)
    requires power { power_of_two k.lines ≡ true }
    requires countable { Countable k s.old due }
    ensures { s.new ≡ counted k due s.old }
{
    match due {
        Due::Rest => {}
        Due::Put(l, _) => {
            s[l] += 1;
        }
        Due::Take(l) => {
            s[l] -= 1;
        }
        Due::Swap(l, x) => {
            let g = goal_of(k, l, x);
            s[l] -= 1;
            s[g] += 1;
        }
    }
}

// The lines, of so many elements.
pub fn work(s: &mut [u32], k: Rows, due: Due, size: Sizes, spot: usize)
    requires shaped { shape_ok k (length s.old) ≡ true }
    requires fits { Fits k size due }
    requires passed { Passed (looked k s.old size due) spot }
    ensures { s.new ≡ worked_by k size due s.old }
{
    let none = no_element();
    match due {
        Due::Rest => {}
        Due::Put(l, x) => {
            let a = row_at(k, l);
            work_line(s, a, size.takes, false, true, spot, x);
        }
        Due::Take(l) => {
            let a = row_at(k, l);
            work_line(s, a, size.gives, true, false, spot, none);
        }
        Due::Swap(l, x) => work_two(s, k, l, x, size, spot),
    }
}

// The line that gives and the one that x goes into, which may be one.
fn work_two(s: &mut [u32], k: Rows, l: usize, x: Element, size: Sizes, spot: usize)
    requires shaped { shape_ok k (length s.old) ≡ true }
    requires fits { Fits k size (Swap l x) }
    requires passed { Passed (looked k s.old size (Swap l x)) spot }
    ensures { s.new ≡ worked_by k size (Swap l x) s.old }
{
    let g = goal_of(k, l, x);
    let a = row_at(k, l);
    let same = l == g;
    work_line(s, a, size.gives, true, same, spot, x);
    if !same {
        let b = row_at(k, g);
        work_line(s, b, size.takes, false, true, spot, x);
    }
}
