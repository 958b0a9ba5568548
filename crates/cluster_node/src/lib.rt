// One node of the cluster heap on its words: reading a place, one scan of all of them, the tests of a node, the lower of two children, and the writes of a
// place and of a count. A function that reads or writes a node asks that it lies within the words.
#![tactic(auto)]

ghost use Rattle.std.specs.Prelude.{◌≡◌, true, cond, ◌&&◌, leb, ◌+◌, ◌*◌, ◌<◌, ◌≤◌, length, IfSome};
ghost use Rattle.cluster_model.specs.Node.{gap, has};
ghost use Rattle.cluster_model.specs.Calls.{place_limit};
ghost use Rattle.cluster_model.specs.Words.{place_of, write_place, place_words, count_words};
ghost use Rattle.cluster_node.specs.Scan.{lower_than, high_as};
ghost use Rattle.cluster_node.specs.Seeing.{see_one, look_to, low_only};
ghost use Rattle.cluster_node.specs.Full.{turn_at, low_lead, high_lead};
ghost use Rattle.cluster_node.specs.Leaf.{elem_at, under_of, bare_at, ok_by, raise_words, sink_words, counts_ok, peek_here, peek_at, right_rank, ChoiceFrom, Lies, Under, Scanned};

use strip::{ELEMENT_WORDS, Element, element_at, is_blank, no_element, turn_of, write_element};

// One scan of a node: whether all places seen are neat, how many are flagged, the first that is not, the lowest and the highest.
#[derive(Clone, Copy)]
pub struct Seen {
    pub neat: bool,
    pub count: usize,
    pub free: usize,
    pub low: usize,
    pub high: usize,
}

// A place's words: its element's, and the flag behind them.
pub const FLAG: usize = ELEMENT_WORDS;

pub const PLACE_WORDS: usize = FLAG + 1;

// A node's words: the count on the left, the count on the right, then its places.
pub const RIGHT: usize = 1;

pub const COUNTS: usize = RIGHT + 1;

// The words of a node of four places, where the later three begin, and their flags. The places of its children begin so far behind twice its own word.
pub const FOUR_WORDS: usize = COUNTS + 4 * PLACE_WORDS;

const SECOND: usize = PLACE_WORDS;

const THIRD: usize = SECOND + PLACE_WORDS;

const FOURTH: usize = THIRD + PLACE_WORDS;

const SECOND_FLAG: usize = SECOND + FLAG;

const THIRD_FLAG: usize = THIRD + FLAG;

const FOURTH_FLAG: usize = FOURTH + FLAG;

pub const FOUR_LEFT: usize = FOUR_WORDS + COUNTS;

pub const FOUR_RIGHT: usize = FOUR_LEFT + FOUR_WORDS;

// A scan that takes every place for occupied: whether all flags are 1, the best place and the number that it is the best by.
// No Option: `choice_full` reads place and number of both scans whether full or not, in no branch.
#[derive(Clone, Copy)]
pub struct Lead {
    pub full: bool,
    pub place: usize,
    pub best: u64,
}

// A child read for its lowest: whether it is in order, the place and the rank there.
// No Option: `choice` goes by place and rank whether ok or not, in no branch, and `ChoiceFrom` promises what it finds of a damaged node too.
#[derive(Clone, Copy)]
pub struct Found {
    pub ok: bool,
    pub place: usize,
    pub rank: u64,
}

// The lower of two children: whether both are in order, whether it is the right one, the word where it begins, its lowest place and the
// element there.
// No Option: `fill_gap` and `try_out` of the clock ask, with a room of 0, for the children of a node that has been tested, and take them whether ok or not.
#[derive(Clone, Copy)]
pub struct Chosen {
    pub ok: bool,
    pub right: bool,
    pub child: usize,
    pub place: usize,
    pub up: Element,
}

// One of two, as a value: what follows goes one way.
pub fn choose<T: Copy>(b: bool, x: T, y: T) -> T
    ensures { result ≡ cond b x y }
{
    if b { x } else { y }
}

// Rank and tag of the place at word i as one number: the lower leaves first.
pub fn turn_at(s: &[u32], i: usize) -> u64
    requires { i + place_words ≤ length s.now }
    ensures { result ≡ turn_at s.now i }
{
    turn_of(element_at(s, i))
}

// Is the place at word i occupied, and the one at word k empty, or does the element at i leave before that at k?
pub fn lower_than(s: &[u32], i: usize, k: usize) -> bool
    requires { (i + place_words ≤ length s.now) × (k + place_words ≤ length s.now) }
    ensures { result ≡ lower_than (place_of s.now i) (place_of s.now k) }
{
    if s[i + FLAG] == 0 {
        return false;
    }
    if s[k + FLAG] == 0 {
        return true;
    }
    turn_at(s, i) < turn_at(s, k)
}

// Is it occupied, and the one at word k empty or not of a higher rank?
pub fn high_as(s: &[u32], i: usize, k: usize) -> bool
    requires { (i + place_words ≤ length s.now) × (k + place_words ≤ length s.now) }
    ensures { result ≡ high_as (place_of s.now i) (place_of s.now k) }
{
    if s[i + FLAG] == 0 {
        return false;
    }
    if s[k + FLAG] == 0 {
        return true;
    }
    s[k] <= s[i]
}

// The element whose rank is at word i.
pub fn elem_at(s: &[u32], i: usize) -> Element
    requires { i + place_words ≤ length s.now }
    ensures { result ≡ elem_at s.now i }
{
    element_at(s, i)
}

// The place at word i becomes x, flagged.
pub fn set_place(s: &mut [u32], i: usize, x: Element)
    requires { i + place_words ≤ length s.old }
    ensures { s.new ≡ write_place s.old i (has x) }
{
    write_element(s, i, x);
    s[i + FLAG] = 1;
}

pub fn clear_place(s: &mut [u32], i: usize)
    requires { i + place_words ≤ length s.old }
    ensures { s.new ≡ write_place s.old i gap }
{
    write_element(s, i, no_element());
    s[i + FLAG] = 0;
}

// Place j, seen after those before it.
pub fn see(s: &[u32], at: usize, j: usize, v: Seen) -> Seen
    requires { (at + j * place_words + place_words ≤ length s.now) × (j < 16) × (v.low ≤ j) × (v.high ≤ j) × (v.count ≤ j) }
    ensures { result ≡ see_one s.now at j v }
{
    let i = at + j * PLACE_WORDS;
    let x = element_at(s, i);
    let blank = is_blank(x);
    let flag = s[i + FLAG];
    let neat = v.neat & (((flag == 0) & blank) | (flag == 1));
    let flagged = flag != 0;
    let lower = lower_than(s, i, at + v.low * PLACE_WORDS);
    let higher = high_as(s, i, at + v.high * PLACE_WORDS);
    let count = choose(flagged, v.count + 1, v.count);
    let free = choose(flagged & (v.free == j), j + 1, v.free);
    let low = choose(lower, j, v.low);
    let high = choose(higher, j, v.high);
    Seen {
        neat,
        count,
        free,
        low,
        high,
    }
}

// The scan of n places that begin at word at, place by place.
pub fn look_each(s: &[u32], at: usize, n: usize) -> Seen
    requires { (at + n * place_words ≤ length s.now) × (n ≤ 16) }
    ensures { result ≡ look_to s.now at n }
{
    let mut v = Seen {
        neat: true,
        count: 0,
        free: 0,
        low: 0,
        high: 0,
    };
    for j in 0..n {
        v = see(s, at, j, v);
    }
    v
}

// The lowest of n places that begin at word at, all taken for occupied. The best turn stays in a local, and each place is read once.
pub fn low_each(s: &[u32], at: usize, n: usize) -> Lead
    requires { (at + n * place_words ≤ length s.now) × (0 < n) × (n ≤ 16) }
    ensures { result ≡ low_lead s.now at n }
{
    let mut full = true;
    let mut place = 0;
    let mut best = turn_at(s, at);
    for j in 0..n {
        let i = at + j * PLACE_WORDS;
        let turn = turn_at(s, i);
        full = full & (s[i + FLAG] == 1);
        if turn < best {
            place = j;
            best = turn;
        }
    }
    Lead { full, place, best }
}

// The highest, by rank. (One function with two closures would be no plainer: a clause for what each of them returns at a place, for one line that differs.)
pub fn high_each(s: &[u32], at: usize, n: usize) -> Lead
    requires { (at + n * place_words ≤ length s.now) × (0 < n) × (n ≤ 16) }
    ensures { result ≡ high_lead s.now at n }
{
    let mut full = true;
    let mut place = 0;
    let mut best = s[at] as u64;
    for j in 0..n {
        let i = at + j * PLACE_WORDS;
        let rank = s[i] as u64;
        full = full & (s[i + FLAG] == 1);
        if best <= rank {
            place = j;
            best = rank;
        }
    }
    Lead { full, place, best }
}

// The lowest of four: two pairs are compared, then the winners, so that fewer compares wait for each other. On a tie the first place stays.
pub fn low_four(s: &[u32], at: usize) -> Lead
    requires { at + 4 * place_words ≤ length s.now }
    ensures { result ≡ low_lead s.now at 4 }
{
    let a = turn_at(s, at);
    let b = turn_at(s, at + SECOND);
    let c = turn_at(s, at + THIRD);
    let d = turn_at(s, at + FOURTH);
    let full = (s[at + FLAG] == 1)
        & (s[at + SECOND_FLAG] == 1)
        & (s[at + THIRD_FLAG] == 1)
        & (s[at + FOURTH_FLAG] == 1);
    let second = b < a;
    let first_place = choose(second, 1, 0);
    let first = choose(second, b, a);
    let fourth = d < c;
    let last_place = choose(fourth, 3, 2);
    let last = choose(fourth, d, c);
    let later = last < first;
    let place = choose(later, last_place, first_place);
    let best = choose(later, last, first);
    Lead { full, place, best }
}

// .. where the compiler is told that there are four, it lays the loop out flat.
pub fn low_lead(s: &[u32], at: usize, n: usize) -> Lead
    requires { (at + n * place_words ≤ length s.now) × (0 < n) × (n ≤ 16) }
    ensures { result ≡ low_lead s.now at n }
{
    if n == 4 {
        return low_each(s, at, 4);
    }
    low_each(s, at, n)
}

pub fn high_lead(s: &[u32], at: usize, n: usize) -> Lead
    requires { (at + n * place_words ≤ length s.now) × (0 < n) × (n ≤ 16) }
    ensures { result ≡ high_lead s.now at n }
{
    if n == 4 {
        return high_each(s, at, 4);
    }
    high_each(s, at, n)
}

// The scan of n places for a root: what it takes for the tests and the lowest; free and high are left 0. Most nodes are full, and then the
// rest is known.
pub fn look(s: &[u32], at: usize, n: usize) -> Seen
    requires { (at + n * place_words ≤ length s.now) × (0 < n) × (n ≤ 16) }
    ensures { result ≡ low_only (look_to s.now at n) }
{
    let a = low_lead(s, at, n);
    if a.full {
        return Seen {
            neat: true,
            count: n,
            free: 0,
            low: a.place,
            high: 0,
        };
    }
    let v = look_each(s, at, n);
    Seen {
        neat: v.neat,
        count: v.count,
        free: 0,
        low: v.low,
        high: 0,
    }
}

pub fn bare_at(s: &[u32], at: usize) -> bool
    requires { at + count_words ≤ length s.now }
    ensures { result ≡ bare_at s.now at }
{
    (s[at] == 0) & (s[at + RIGHT] == 0)
}

// Is the node at word at in order, once it has been scanned? Its children have room for limit each.
pub fn node_ok(s: &[u32], k: usize, limit: usize, at: usize, v: Seen) -> bool
    requires { at + count_words ≤ length s.now }
    ensures { result ≡ ok_by k limit s.now at v }
{
    let bare = bare_at(s, at);
    let l = s[at] as usize;
    let r = s[at + RIGHT] as usize;
    v.neat & ((l <= limit) & ((r <= limit) & (bare | (k <= v.count))))
}

pub fn room_under(k: usize, limit: usize) -> usize
    ensures { result ≡ under_of k limit }
{
    limit.saturating_sub(k) / 2
}

// Are both counts of the node at word at within its children's room?
pub fn counts_ok(s: &[u32], limit: usize, at: usize) -> bool
    requires { at + count_words ≤ length s.now }
    ensures { result ≡ counts_ok limit s.now at }
{
    let l = s[at] as usize;
    let r = s[at + RIGHT] as usize;
    (l <= limit) & (r <= limit)
}

// The node at word at, read for its lowest place by place.
pub fn peek_each(s: &[u32], k: usize, limit: usize, at: usize) -> Found
    requires { Lies k at (length s.now) }
    ensures { result ≡ peek_here k limit s.now at }
{
    let v = look_each(s, at + COUNTS, k);
    let fine = node_ok(s, k, limit, at, v);
    let rank = s[at + COUNTS + v.low * PLACE_WORDS] as u64;
    Found {
        ok: fine & (v.count != 0),
        place: v.low,
        rank,
    }
}

// .. if its count is not 0; a full node by its turns alone.
pub fn peek(s: &[u32], k: usize, limit: usize, at: usize, count: u32) -> Found
    requires { Lies k at (length s.now) }
    ensures { result ≡ peek_at k limit s.now at count }
{
    if count == 0 {
        return Found {
            ok: true,
            place: 0,
            rank: 0,
        };
    }
    let a = low_lead(s, at + COUNTS, k);
    if a.full {
        let fine = counts_ok(s, limit, at);
        let rank = a.best / 4294967296;
        return Found {
            ok: fine,
            place: a.place,
            rank,
        };
    }
    peek_each(s, k, limit, at)
}

// Of the children whose count is not 0, is the right one's lowest rank the lower?
pub fn right_lower(l: u32, r: u32, a: u64, b: u64) -> bool
    ensures { result ≡ right_rank l r a b }
{
    (r != 0) & ((l == 0) | (b < a))
}

// The lower of the children of the node at word at. They begin at twice that word and one node's width, and one width on.
pub fn choice(s: &[u32], k: usize, limit: usize, at: usize) -> Chosen
    requires { Under k at (length s.now) }
    ensures { ChoiceFrom k limit s.now at result }
{
    let l = s[at];
    let r = s[at + RIGHT];
    let width = COUNTS + k * PLACE_WORDS;
    let lc = at + at + width;
    let rc = lc + width;
    let p = peek(s, k, limit, lc, l);
    let q = peek(s, k, limit, rc, r);
    let right = right_lower(l, r, p.rank, q.rank);
    let child = choose(right, rc, lc);
    let place = choose(right, q.place, p.place);
    let up = elem_at(s, child + COUNTS + place * PLACE_WORDS);
    Chosen {
        ok: p.ok & q.ok,
        right,
        child,
        place,
        up,
    }
}

// The lower of the children of a node of four places, by a scan of each: where both counts are not 0 and both children full and in order. Else no
// choice is made. The scans come from the caller, since a call that holds both is too long for the compiler to lay out in place.
pub fn choice_full(s: &[u32], limit: usize, at: usize, p: Lead, q: Lead) -> Option<Chosen>
    requires { Scanned s.now at p q }
    ensures { IfSome result (λ c. (c.ok ≡ true) × ChoiceFrom 4 limit s.now at c) }
{
    let l = s[at];
    let r = s[at + RIGHT];
    let lc = at + at + FOUR_WORDS;
    let rc = lc + FOUR_WORDS;
    let fine = counts_ok(s, limit, lc);
    let sound = counts_ok(s, limit, rc);
    let ok = p.full & (q.full & ((l != 0) & ((r != 0) & (fine & sound))));
    let right = q.best / 4294967296 < p.best / 4294967296;
    let child = choose(right, rc, lc);
    let place = choose(right, q.place, p.place);
    let up = elem_at(s, child + COUNTS + place * PLACE_WORDS);
    if !ok {
        return None;
    }
    Some(Chosen {
        ok,
        right,
        child,
        place,
        up,
    })
}

// The count of one side, one less. Which side cannot be foretold, so the word is computed and no branch taken.
pub fn sink(s: &mut [u32], at: usize, right: bool, l: u32, r: u32)
    requires { at + count_words ≤ length s.old }
    ensures { s.new ≡ sink_words right s.old at l r }
{
    let side = choose(right, RIGHT, 0);
    let count = choose(right, r, l);
    s[at + side] = count.saturating_sub(1);
}

// The count of one side, one more.
pub fn raise(s: &mut [u32], at: usize, right: bool, l: u32, r: u32)
    requires { (at + count_words ≤ length s.old) × (l ≤ place_limit) × (r ≤ place_limit) }
    ensures { s.new ≡ raise_words right s.old at l r }
{
    let side = choose(right, RIGHT, 0);
    let count = choose(right, r, l);
    s[at + side] = count + 1;
}

pub fn both_full(limit: usize, l: u32, r: u32) -> bool
    ensures { result ≡ (leb limit l && leb limit r) }
{
    (limit <= l as usize) & (limit <= r as usize)
}
