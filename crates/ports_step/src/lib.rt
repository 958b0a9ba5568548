// What a ports call reads and tests of its pool, before anything is written: the shape, the limits that clear is handed, and
// the words of all ports, in one pass.
#![tactic(auto)]

ghost use Rattle.std.specs.Prelude.{◌≡◌, cond, not, ◌&&◌, ◌+◌, ◌*◌, ◌≤◌, ◌<◌, max, ltb, eqb, length};
ghost use Rattle.strip.specs.declared.Refusal.TheVariants.{BadShape, BadPort, Damaged};
ghost use Rattle.bucket_model.specs.Layout.{word};
ghost use Rattle.bucket_step.specs.Tested.{Stands};
ghost use Rattle.ports_model.specs.Layout.{bit_words, store_words, seat, floor_of, ceiling_of};
ghost use Rattle.ports_model.specs.Checks.{is_shaped, limits_ok, whole_ok, room_ok};
ghost use Rattle.ports_step.specs.Sums.{Summed, Numbers, numbers_ok, whole_by, room_by};

use bucket_model::Lay;
use bucket_node::{NODE, free_link, held_count, queue_of};
use bucket_step::tests::{POOL, is_deep};
use ports_model::Shape;
use strip::Refusal;

// The most ports that a pool may have.
pub const MOST_PORTS: u32 = 16;

// The words of a port behind the free link, and how far from it a first port's held count, floor and ceiling stand.
pub const PORT: usize = 3;

pub const HELD: usize = 1;

pub const FLOOR: usize = 2;

pub const CEILING: usize = 3;

// The words of a port's limits: its floor, and then its ceiling.
const LIMITS: usize = 2;

// Over all ports: how many nodes are in use; how many are in use or kept for a floor; and whether no port's floor, and nothing
// that a port holds, is above its ceiling. The sums have 64 bits, so that no words can make them wrap.
// No Option: `Summed` promises both sums where `kept` is false too.
#[derive(Clone, Copy)]
pub struct Totals {
    pub used: u64,
    pub claimed: u64,
    pub kept: bool,
}

// ---- the shape

// Whether there are pools of such numbers.
pub fn is_numbered(s: Shape) -> bool
    ensures { result ≡ numbers_ok s }
{
    is_deep(s.storeys)
        & (1 <= s.nodes)
        & (s.nodes <= POOL)
        & (1 <= s.ports)
        & (s.ports <= MOST_PORTS)
}

// Where the words of a port stand. Its depth's numbers are those of a queue of its own.
pub fn seat_of(s: Shape, port: u32) -> Lay
    requires numbers { Numbers s }
    requires port_in { port < s.ports }
    ensures { result ≡ seat s port }
{
    let alone = queue_of(s.storeys, s.nodes);
    let p = port as usize;
    let lists = 2 * (alone.ranks as usize);
    let nodes = (s.ports as usize) * lists;
    let free = nodes + NODE * (s.nodes as usize);
    Lay {
        bits: p * alone.tower,
        heads: p * lists,
        stem: nodes - NODE,
        free,
        held: free + (HELD + PORT * p),
        ..alone
    }
}

// How many words a pool has, of 64 bits and of 32.
pub fn bit_words(s: Shape) -> usize
    requires { Numbers s }
    ensures is { result ≡ bit_words s }
    ensures within { result ≤ 8388608 }
{
    (s.ports as usize) * seat_of(s, 0).tower
}

pub fn store_words(s: Shape) -> usize
    requires { Numbers s }
    ensures is { result ≡ store_words s }
    ensures within { result ≤ 8585265 }
{
    seat_of(s, 0).free + (HELD + PORT * (s.ports as usize))
}

// Whether there is such a pool, and the slices are long enough for it. The storeys are tested before the words are counted.
pub fn is_shaped(bits: &[u64], words: &[u32], s: Shape) -> bool
    ensures { result ≡ is_shaped s bits.now words.now }
{
    if !is_numbered(s) {
        return false;
    }
    (bit_words(s) <= bits.len()) & (store_words(s) <= words.len())
}

// .. and a port of it.
pub fn is_known(bits: &[u64], words: &[u32], s: Shape, port: u32) -> bool
    ensures { result ≡ (is_shaped s bits.now words.now && ltb port s.ports) }
{
    is_shaped(bits, words, s) & (port < s.ports)
}

// Why not: the shape, and otherwise the port. It is asked only then, so that a call has one way out for both.
pub fn shape_or_port(bits: &[u64], words: &[u32], s: Shape) -> Refusal
    ensures { result ≡ cond (is_shaped s bits.now words.now) BadPort BadShape }
{
    if is_shaped(bits, words, s) {
        return Refusal::BadPort;
    }
    Refusal::BadShape
}

// ---- what clear is handed

// Two functions, as `floor_of` and `ceiling_of` are two definitions of the model.
pub fn floor_of(limits: &[u32], p: usize) -> u32
    requires { (p < 16) × (2 * p + 2 ≤ length limits.now) }
    ensures { result ≡ floor_of limits.now p }
{
    limits[LIMITS * p]
}

pub fn ceiling_of(limits: &[u32], p: usize) -> u32
    requires { (p < 16) × (2 * p + 2 ≤ length limits.now) }
    ensures { result ≡ ceiling_of limits.now p }
{
    limits[LIMITS * p + 1]
}

// Whether there is a floor and a ceiling for each port, no floor above its ceiling, and the floors adding up to the nodes at
// most.
pub fn limits_fit(s: Shape, limits: &[u32]) -> bool
    requires { s.ports ≤ 16 }
    ensures { result ≡ limits_ok s limits.now }
{
    let ports = s.ports as usize;
    if limits.len() < LIMITS * ports {
        return false;
    }
    let mut orderly = true;
    let mut sum: u64 = 0;
    for q in 0..ports {
        let floor = floor_of(limits, q);
        orderly &= floor <= ceiling_of(limits, q);
        sum += floor as u64;
    }
    orderly & (sum <= s.nodes as u64)
}

// ---- the ports' words

// One port more.
fn add(words: &[u32], free: usize, p: usize, t: Totals) -> Totals
    requires { (p < 16) × (free + (3 + 3 * p) < length words.now) × Summed words.now free p t }
    ensures { Summed words.now free (p + 1) result }
{
    let held = words[free + (HELD + PORT * p)];
    let floor = words[free + (FLOOR + PORT * p)];
    let ceiling = words[free + (CEILING + PORT * p)];
    Totals {
        used: t.used + held as u64,
        claimed: t.claimed + held.max(floor) as u64,
        kept: t.kept & ((floor <= ceiling) & (held <= ceiling)),
    }
}

// All ports, whose words stand behind the free link.
pub fn add_up(words: &[u32], free: usize, ports: usize) -> Totals
    requires { (ports ≤ 16) × (free + (1 + 3 * ports) ≤ length words.now) }
    ensures { Summed words.now free ports result }
{
    let mut t = Totals {
        used: 0,
        claimed: 0,
        kept: true,
    };
    for p in 0..ports {
        t = add(words, free, p, t);
    }
    t
}

// ---- the whole pool, and one port

// What every call but clear tests.
fn whole(t: Totals, free: u32, top: u64, mine: u32, n: u32) -> bool
    ensures { result ≡ whole_ok t.kept t.claimed t.used free top mine n }
{
    t.kept
        & (t.claimed <= n as u64)
        & (free <= n)
        & ((free == 0) == (t.used == n as u64))
        & ((top == 0) == (mine == 0))
}

pub fn is_whole(bits: &[u64], words: &[u32], k: Lay, t: Totals) -> bool
    requires { Stands k bits.now words.now }
    ensures { result ≡ whole_by k t bits.now words.now }
{
    whole(
        t,
        free_link(words, k),
        bits[k.bits],
        held_count(words, k),
        k.nodes,
    )
}

// Whole, and the port holds something.
pub fn has_some(bits: &[u64], words: &[u32], k: Lay, t: Totals) -> bool
    requires { Stands k bits.now words.now }
    ensures { result ≡ (whole_by k t bits.now words.now && not (eqb (word words.now k.held) 0)) }
{
    is_whole(bits, words, k, t) & (held_count(words, k) != 0)
}

// Whether a port that holds so many may take one more in: below its floor it may, and below its ceiling while a node is
// neither in use nor kept for a floor.
fn room_left(t: Totals, mine: u32, floor: u32, ceiling: u32, n: u32) -> bool
    ensures { result ≡ room_ok mine floor ceiling t.claimed n }
{
    (mine < floor) | ((mine < ceiling) & (t.claimed < n as u64))
}

// Whole, and the port may.
pub fn has_room(bits: &[u64], words: &[u32], k: Lay, t: Totals) -> bool
    requires stands { Stands k bits.now words.now }
    requires held_in { k.held + 2 < length words.now }
    ensures { result ≡ (whole_by k t bits.now words.now && room_by k t words.now) }
{
    let mine = words[k.held];
    let floor = words[k.held + 1];
    let ceiling = words[k.held + 2];
    is_whole(bits, words, k, t) & room_left(t, mine, floor, ceiling, k.nodes)
}

// Why nothing can be given, or nothing taken in: the limit is met where all is whole.
pub fn limit_or_damage(bits: &[u64], words: &[u32], k: Lay, t: Totals, limit: Refusal) -> Refusal
    requires { Stands k bits.now words.now }
    ensures { result ≡ cond (whole_by k t bits.now words.now) limit Damaged }
{
    if is_whole(bits, words, k, t) {
        return limit;
    }
    Refusal::Damaged
}
