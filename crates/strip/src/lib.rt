// What every queue of the card takes in and answers.
#![tactic(auto)]

ghost use Rattle.std.specs.Prelude.{◌≡◌, Err, cond, ◌+◌, ◌-◌, ◌≤◌, ltb, length};
ghost use Rattle.strip.specs.Answers.{element, blank, key, untagged, turn, refusal_number, number_of, is_refused, element_of, count_number, count_of, asks, runs_idle, has_run};
ghost use Rattle.strip.specs.Words.{element_words, element_in, write_element, is_blank, keep, pass};

// When a strip must leave. A lower rank leaves first.
#[derive(Clone, Copy, Debug, PartialEq, Eq, PartialOrd, Ord)]
pub struct Rank(pub u32);

// Which strip it is.
#[derive(Clone, Copy, Debug, PartialEq, Eq, PartialOrd, Ord)]
pub struct Tag(pub u32);

// How many bytes it has. It travels with the strip and decides nothing.
#[derive(Clone, Copy, Debug, PartialEq, Eq, PartialOrd, Ord)]
pub struct Length(pub u32);

// An element: rank, tag and length are numbers of three different kinds, so that none can be passed where another is meant.
#[derive(Clone, Copy, Debug, PartialEq, Eq)]
pub struct Element {
    pub rank: Rank,
    pub tag: Tag,
    pub length: Length,
}

// Why a queue says no.
#[derive(Clone, Copy, Debug, PartialEq, Eq)]
pub enum Refusal {
    BadShape,
    Damaged,
    TooSoon,
    BadRank,
    Full,
    Empty,
    NoTag,
    BadPort,
    NoHeap,
}

// What a call answers: that it is done, with an element where one leaves, or a refusal.
pub type Answer = Result<Option<Element>, Refusal>;

// What may be asked of a queue. Idle asks for nothing.
#[derive(Clone, Copy, Debug, PartialEq, Eq)]
pub enum Request {
    Idle,
    Push(Element),
    Pop,
    Replace(Element),
}

// What a cycle of a machine answers, and the state that it leaves beside the words.
#[derive(Clone, Copy)]
pub struct Cycled<S> {
    pub answer: Answer,
    pub state: S,
}

// What a drain reports: done or a refusal, the number of cycles run, whether work is left, and the state that it leaves.
#[derive(Clone, Copy)]
pub struct Drained<S, C = usize> {
    pub answer: Answer,
    pub cycles: C,
    pub left: bool,
    pub state: S,
}

// Does the element lack a tag? Such a one is no strip, and no queue takes it in.
pub fn is_untagged(e: Element) -> bool
    ensures { result ≡ untagged e }
{
    e.tag.0 == 0
}

// ---- an element's words: its rank, and behind it the others

const TAG: usize = 1;

const LENGTH: usize = TAG + 1;

// How many words an element has.
pub const ELEMENT_WORDS: usize = LENGTH + 1;

pub fn element_of(rank: u32, tag: u32, length: u32) -> Element
    ensures { result ≡ element rank tag length }
{
    Element {
        rank: Rank(rank),
        tag: Tag(tag),
        length: Length(length),
    }
}

// The element whose first word is word `at`.
pub fn element_at(s: &[u32], at: usize) -> Element
    requires { at + element_words ≤ length s.now }
    ensures { result ≡ element_in s.now at }
{
    element_of(s[at], s[at + TAG], s[at + LENGTH])
}

pub fn write_element(s: &mut [u32], at: usize, e: Element)
    requires { at + element_words ≤ length s.old }
    ensures { s.new ≡ write_element s.old at e }
{
    s[at] = e.rank.0;
    s[at + TAG] = e.tag.0;
    s[at + LENGTH] = e.length.0;
}

// Are all of its numbers 0? By number and without a branch, as the definition has it: `e == no_element()` would be no plainer.
pub fn is_blank(e: Element) -> bool
    ensures { result ≡ is_blank e }
{
    (e.rank.0 == 0) & ((e.tag.0 == 0) & (e.length.0 == 0))
}

// ---- which goes first

// Whether a's rank is strictly lower than b's.
pub fn lower(a: Element, b: Element) -> bool
    ensures { result ≡ ltb (key a) (key b) }
{
    a.rank < b.rank
}

// When an element leaves its node, by rank and then by tag, as one number.
pub fn turn_of(e: Element) -> u64
    ensures { result ≡ turn e }
{
    u64::from(e.rank.0) * 4294967296 + u64::from(e.tag.0)
}

// Of a newcomer and the element met: the one that stays.
pub fn stays(x: Element, y: Element) -> Element
    ensures { result ≡ keep x y }
{
    if lower(x, y) { x } else { y }
}

// .. and the one that goes down
pub fn goes_down(x: Element, y: Element) -> Element
    ensures { result ≡ pass x y }
{
    if lower(x, y) { y } else { x }
}

// ---- 01's numbers

impl From<Refusal> for u32 {
    ghost from_gives = { λ r n. n ≡ refusal_number r };

    fn from(r: Refusal) -> u32 {
        match r {
            Refusal::BadShape => 1,
            Refusal::Damaged => 2,
            Refusal::TooSoon => 3,
            Refusal::BadRank => 4,
            Refusal::Full => 5,
            Refusal::Empty => 6,
            Refusal::NoTag => 7,
            Refusal::BadPort => 8,
            Refusal::NoHeap => 12,
        }
    }
}

// The refusal's number, and 0 where nothing is refused.
pub fn number(a: Answer) -> u32
    ensures { result ≡ number_of a }
{
    match a {
        Ok(_) => 0,
        Err(why) => u32::from(why),
    }
}

// The element that an answer gives: rank, tag and length 0 where it gives none.
pub fn given(a: Answer) -> Element
    ensures { result ≡ element_of a }
{
    match a {
        Ok(Some(e)) => e,
        _ => no_element(),
    }
}

pub fn no_element() -> Element
    ensures { result ≡ blank }
{
    element_of(0, 0, 0)
}

pub fn is_refused(answer: Answer) -> bool
    ensures { result ≡ is_refused answer }
{
    answer.is_err()
}

pub fn count_number(c: Result<u32, Refusal>) -> u32
    ensures { result ≡ count_number c }
{
    match c {
        Ok(_) => 0,
        Err(why) => u32::from(why),
    }
}

// How many are held; a refused held answers 0.
pub fn count_of(c: Result<u32, Refusal>) -> u32
    ensures { result ≡ count_of c }
{
    c.unwrap_or(0)
}

// ---- requests, and cycles

pub fn asks_something(request: Request) -> bool
    ensures { result ≡ asks request }
{
    !matches!(request, Request::Idle)
}

// Whether a cycle with this answer ran: refusals 1 and 2 leave everything.
pub fn has_run(a: Answer) -> bool
    ensures { result ≡ has_run a }
{
    match a {
        Ok(_) => true,
        Err(why) => runs_idle(why),
    }
}

fn runs_idle(r: Refusal) -> bool
    ensures { result ≡ runs_idle r }
{
    !matches!(r, Refusal::BadShape | Refusal::Damaged)
}

// The pending records to be written back: one for each level from 2 where a cycle ran, and else none.
pub fn due(ran: bool, levels: usize) -> usize
    ensures { result ≡ cond ran (levels - 1) 0 }
{
    if ran { levels.saturating_sub(1) } else { 0 }
}

// A cycle that is refused, with the state as it was handed over.
pub fn left_as<S>(refusal: Refusal, state: S) -> Cycled<S>
    ensures { (result.answer ≡ Err refusal) × (result.state ≡ state) }
{
    Cycled {
        answer: Err(refusal),
        state,
    }
}

pub fn report<S, C>(answer: Answer, cycles: C, left: bool, state: S) -> Drained<S, C>
    ensures { (result.answer ≡ answer) × (result.cycles ≡ cycles) × (result.left ≡ left) × (result.state ≡ state) }
{
    Drained {
        answer,
        cycles,
        left,
        state,
    }
}
