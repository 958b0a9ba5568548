// 01's worked cases and those that 02 adds, run: what each call answers, as number, rank, tag and length, and the words it leaves. The calls of a case
// are written as text, each with a space behind it: + push, - pop, * replace, . idle, = drain, ! clear, and the element as rank/tag/length.
#![tactic(auto)]

use std::io;
use std::io::{BufWriter, Write};
use strip::{Answer, Element, Request};
use tree_clock_model::State;

// Writes a number and a space.
fn say(output: &mut impl Write, n: u32) -> io::Result<()> {
    write!(output, "{n} ")
}

fn say_answer(output: &mut impl Write, a: Answer) -> io::Result<()> {
    let e = strip::given(a);
    say(output, strip::number(a))?;
    say(output, e.rank.0)?;
    say(output, e.tag.0)?;
    say(output, e.length.0)?;
    writeln!(output)
}

fn say_words(output: &mut impl Write, words: &[u32]) -> io::Result<()> {
    for word in words {
        say(output, *word)?;
    }
    writeln!(output)
}

// ---- a call as it is read, byte by byte

#[derive(Clone, Copy, Default)]
struct Call {
    sign: u8,
    rank: u32,
    tag: u32,
    length: u32,
}

fn element(c: Call) -> Element {
    strip::element_of(c.rank, c.tag, c.length)
}

// A digit goes into the last number, a slash moves the numbers up, any other byte is a sign.
fn read(c: Call, b: u8) -> Call {
    match b {
        b'/' => Call {
            rank: c.tag,
            tag: c.length,
            length: 0,
            ..c
        },
        b'0'..=b'9' => Call {
            length: c.length.wrapping_mul(10).wrapping_add(u32::from(b - b'0')),
            ..c
        },
        _ => Call {
            sign: b,
            ..Call::default()
        },
    }
}

// Writes the byte too, so that a call stands before its answer.
fn read_aloud(output: &mut impl Write, c: Call, b: u8) -> io::Result<Call> {
    output.write_all(&[b])?;
    Ok(read(c, b))
}

// Reads the calls, makes each at the space behind it, and says what it answers.
fn answers<F: FnMut(Call) -> Answer>(
    output: &mut impl Write,
    calls: &[u8],
    mut answer: F,
) -> io::Result<()>
    requires { F.IsAlwaysCallable answer }
{
    let mut c = Call::default();
    for b in calls {
        let next = read_aloud(output, c, *b)?;
        if *b == b' ' {
            say_answer(output, answer(c))?;
        }
        c = next;
    }
    Ok(())
}

// ---- the tree, order 2, levels 2

fn tree_call(store: &mut [u32], c: Call) -> Answer {
    match c.sign {
        b'+' => tree::push(store, 2, 2, element(c)),
        b'*' => tree::replace(store, 2, 2, element(c)),
        b'-' => tree::pop(store, 2, 2),
        _ => tree::clear(store, 2, 2),
    }
}

// Calls on a store of nines, the words that they leave, and how many are held then.
fn trees(output: &mut impl Write, calls: &[u8]) -> io::Result<()> {
    let mut store = [9u32; 26];
    answers(output, calls, |c| tree_call(&mut store, c))?;
    say_words(output, &store)?;
    let held = strip::count_of(tree::held(&store, 2, 2));
    writeln!(output, "held {held} ")
}

// ---- the same by cycles

fn request(c: Call) -> Request {
    match c.sign {
        b'+' => Request::Push(element(c)),
        b'*' => Request::Replace(element(c)),
        b'-' => Request::Pop,
        _ => Request::Idle,
    }
}

fn drained(output: &mut impl Write, store: &mut [u32], state: State) -> io::Result<State> {
    let d = tree_clock::drain(store, 2, 2, state, 2);
    let number = strip::number(d.answer);
    let cycles = d.cycles;
    writeln!(output, "{number} {cycles} ")?;
    Ok(d.state)
}

// A cycle and the words that it leaves, or a drain.
fn cycle(output: &mut impl Write, store: &mut [u32], state: State, c: Call) -> io::Result<State> {
    if c.sign == b'=' {
        return drained(output, store, state);
    }
    let done = tree_clock::cycle(store, 2, 2, state, request(c));
    say_answer(output, done.answer)?;
    say_words(output, store)?;
    Ok(done.state)
}

// Calls on a cleared machine.
fn cycles(output: &mut impl Write, calls: &[u8]) -> io::Result<()> {
    let mut store = [9u32; 26];
    let mut state = tree_clock::clear(&mut store, 2, 2, tree_clock::fresh_state()).state;
    let mut c = Call::default();
    for b in calls {
        let next = read_aloud(output, c, *b)?;
        if *b == b' ' {
            state = cycle(output, &mut store, state, c)?;
        }
        c = next;
    }
    Ok(())
}

// ---- the bucket queue

fn bucket_call(bits: &mut [u64], words: &mut [u32], storeys: usize, nodes: u32, c: Call) -> Answer {
    match c.sign {
        b'+' => bucket::push(bits, words, storeys, nodes, element(c)),
        b'*' => bucket::replace(bits, words, storeys, nodes, element(c)),
        b'-' => bucket::pop(bits, words, storeys, nodes),
        _ => bucket::clear(bits, words, storeys, nodes),
    }
}

// Calls on a store of nines, of two storeys.
fn buckets(output: &mut impl Write, nodes: u32, calls: &[u8]) -> io::Result<()> {
    let mut bits = [9u64; 65];
    let mut words = [9u32; 8206];
    answers(
        output,
        calls,
        |c| bucket_call(&mut bits, &mut words, 2, nodes, c),
    )
}

// ---- the cases

fn tree_cases(output: &mut impl Write) -> io::Result<()> {
    writeln!(output, "cases 1 to 5")?;
    trees(output, b"! +5/50/0 +3/30/0 +8/80/0 +1/10/0 ")?;
    trees(output, b"! +5/50/0 +3/30/0 +8/80/0 +1/10/0 - - - - - ")?;
    trees(output, b"! +5/50/0 +3/30/0 +8/80/0 +1/10/0 *0/7/0 ")?;
    trees(output, b"! +5/50/0 +3/30/0 +8/80/0 +1/10/0 *1/7/0 ")?;
    trees(output, b"! +5/50/0 +3/30/0 +8/80/0 +1/10/0 *4/7/0 ")?;
    writeln!(output, "case 7")?;
    trees(
        output,
        b"! +1/1/0 +1/1/0 +1/1/0 +1/1/0 +1/1/0 +1/1/0 +1/1/0 ",
    )
}

fn more_tree_cases(output: &mut impl Write) -> io::Result<()> {
    writeln!(output, "a replace with nothing held")?;
    trees(output, b"! *5/50/0 ")?;
    writeln!(output, "equal ranks")?;
    trees(output, b"! +5/9/0 +5/3/0 - ")?;
    writeln!(output, "tag 0")?;
    trees(output, b"! +5/0/0 *5/0/0 ")?;
    trees(output, b"! +5/50/0 +3/30/0 +8/80/0 +1/10/0 +5/0/0 *0/0/0 ")?;
    writeln!(output, "lengths")?;
    trees(
        output,
        b"! +5/50/500 +3/30/300 +8/80/800 +1/10/100 *4/7/70 - ",
    )
}

fn cycle_cases(output: &mut impl Write) -> io::Result<()> {
    writeln!(output, "case 6")?;
    cycles(output, b"+5/50/0 +3/30/0 +8/80/0 +1/10/0 = - . ")?;
    writeln!(output, "case 10")?;
    cycles(output, b"+5/50/0 . - +1/10/0 +2/20/0 - - ")?;
    writeln!(
        output,
        "a replace with nothing held is as idle, and a lower newcomer is taken in"
    )?;
    cycles(output, b"*5/50/0 - +1/10/0 *0/7/0 *0/7/0 . - ")?;
    writeln!(output, "tag 0 is as idle, and after too soon")?;
    cycles(output, b"+5/0/0 - +5/50/0 *1/0/0 *1/0/0 +1/0/0 - ")?;
    writeln!(
        output,
        "2/2 is still on its way, and a pop just after it too soon"
    )?;
    cycles(output, b"+1/1/0 +9/9/0 +2/2/0 - - ")?;
    writeln!(output, "lengths")?;
    cycles(
        output,
        b"+5/50/500 +3/30/300 +8/80/800 +1/10/100 . *4/7/70 . - . ",
    )
}

fn bucket_cases(output: &mut impl Write) -> io::Result<()> {
    writeln!(output, "case 8")?;
    buckets(
        output,
        3,
        b"! +7/1/0 +7/2/0 +4095/3/0 +0/4/0 +4096/4/0 - - - - ",
    )?;
    writeln!(output, "tag 0: after 4, before 6 and 5")?;
    buckets(
        output,
        3,
        b"! +4096/0/0 +7/0/0 *7/0/0 +0/1/0 +7/2/0 +7/3/0 +7/0/0 +7/4/0 *0/0/0 - - - - ",
    )?;
    writeln!(output, ".. and before 2, on a damaged store")?;
    buckets(output, 3, b"+7/1/0 +7/0/0 +4096/0/0 *7/0/0 *7/1/0 - ")?;
    writeln!(output, "lengths")?;
    buckets(
        output,
        4,
        b"! +7/1/64 +7/2/1500 +7/3/40 - *70/5/9000 *3/6/4294967295 - - ",
    )?;
    writeln!(output, "case 9, N = 0")?;
    buckets(output, 0, b"! ")
}

// .. of a store that is long enough for three storeys and N = 3, and for two and N = 65,536.
fn deep_buckets(
    output: &mut impl Write,
    storeys: usize,
    nodes: u32,
    calls: &[u8],
) -> io::Result<()> {
    let mut bits = [9u64; 4161];
    let mut words = [9u32; 524299];
    answers(
        output,
        calls,
        |c| bucket_call(&mut bits, &mut words, storeys, nodes, c),
    )
}

// Three storeys; and the limits of a shape: N, and the depth.
fn deep_cases(output: &mut impl Write) -> io::Result<()> {
    writeln!(output, "case 8, three storeys")?;
    deep_buckets(
        output,
        3,
        3,
        b"! +7/1/0 +7/2/0 +262143/3/0 +0/4/0 +262144/4/0 - - - - ",
    )?;
    writeln!(output, "N = 65,536 and 65,537; storeys 1 and 4")?;
    deep_buckets(output, 2, 65536, b"! ")?;
    deep_buckets(output, 2, 65537, b"! ")?;
    deep_buckets(output, 1, 3, b"! ")?;
    deep_buckets(output, 4, 3, b"! ")
}

// Clears a slice of a shape, and says the answer.
fn shaped(
    output: &mut impl Write,
    store: &mut [u32],
    order: usize,
    levels: usize,
) -> io::Result<()> {
    say_answer(output, tree::clear(store, order, levels))
}

// Three numbers of levels of one order.
fn three(
    output: &mut impl Write,
    store: &mut [u32],
    order: usize,
    few: usize,
    most: usize,
    more: usize,
) -> io::Result<()> {
    shaped(output, store, order, few)?;
    shaped(output, store, order, most)?;
    shaped(output, store, order, more)
}

// 01's largest shape of each order and today's are taken, one level more is refused.
fn edges(output: &mut impl Write, store: &mut [u32]) -> io::Result<()> {
    writeln!(output, "case 9")?;
    three(output, store, 4, 6, 8, 9)?;
    three(output, store, 2, 11, 15, 16)?;
    three(output, store, 8, 4, 5, 6)?;
    shaped(output, store, 3, 2)?;
    shaped(output, store, 2, 0)?;
    shaped(output, store, 2, usize::MAX)
}

// The slice would hold order 4 with 9 levels, 349,524 slots, and so all the others: where a shape is refused, the slice is not the cause.
fn shapes(output: &mut impl Write) -> io::Result<()> {
    let mut store = [0u32; 1398096];
    edges(output, &mut store)
}

fn main(rt: HostRuntime) -> io::Result<()> {
    let mut output = BufWriter::new(rt.alloc(), rt.stdout())?;
    tree_cases(&mut output)?;
    more_tree_cases(&mut output)?;
    cycle_cases(&mut output)?;
    shapes(&mut output)?;
    bucket_cases(&mut output)?;
    deep_cases(&mut output)?;
    output.flush()
}
