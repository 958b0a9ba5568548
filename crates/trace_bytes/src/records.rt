// The trace program's input: the header's test, and a record's.
ghost use Rattle.std.specs.Prelude.{◌≡◌, ◌+◌, ◌≤◌, length};
ghost use Rattle.trace_model.specs.Format.{record_bytes, number_at, length_at, sign_ok, trace_shape, headed, header_of, only_blank, entry_at, entry_of};

use strip::{Element, Length, Rank, Request, Tag, is_blank};
use trace_model::{Header, Version};
use tree_node::capacity;

// ---- the header

fn sign_ok(bytes: &[u8]) -> bool
    requires { 7 ≤ length bytes.now }
    ensures { result ≡ sign_ok bytes.now }
{
    (bytes[0] == b'P') & ((bytes[1] == b'F') & (bytes[2] == b'T'))
}

// Whether a shape is one that the program takes.
fn shape_taken(order: usize, levels: usize) -> bool
    ensures { result ≡ trace_shape order levels }
{
    if !tree_node::order_ok(order) {
        return false;
    }
    (1 <= levels) & (capacity(order, levels) <= 4094)
}

// A shape in the version of this number, of which there are two.
fn headed(version: u16, order: usize, levels: usize) -> Option<Header>
    ensures { result ≡ headed version order levels }
{
    let version = match version {
        1 => Version::One,
        2 => Version::Two,
        _ => return None,
    };
    Some(Header {
        version,
        order,
        levels,
    })
}

pub fn read_header(bytes: &[u8]) -> Option<Header>
    ensures { result ≡ header_of bytes.now }
{
    if bytes.len() < 7 {
        return None;
    }
    if !sign_ok(bytes) {
        return None;
    }
    let order = bytes[5] as usize;
    let levels = bytes[6] as usize;
    if !shape_taken(order, levels) {
        return None;
    }
    headed(u16::from_le_bytes([bytes[3], bytes[4]]), order, levels)
}

// ---- a record

pub fn record_bytes(version: Version) -> usize
    ensures { result ≡ record_bytes version }
{
    match version {
        Version::One => 9,
        Version::Two => 13,
    }
}

// A number of four bytes, the low byte first.
fn number_at(bytes: &[u8], at: usize) -> u32
    requires { at + 4 ≤ length bytes.now }
    ensures { result ≡ number_at bytes.now at }
{
    u32::from_le_bytes([bytes[at], bytes[at + 1], bytes[at + 2], bytes[at + 3]])
}

fn only_blank(e: Element, request: Request) -> Option<Request>
    ensures { result ≡ only_blank e request }
{
    if is_blank(e) {
        return Some(request);
    }
    None
}

fn record_of(code: u8, e: Element) -> Option<Request>
    ensures { result ≡ entry_of code e }
{
    // four operations, and the range of all others
    match code {
        0 => only_blank(e, Request::Idle),
        1 => Some(Request::Push(e)),
        2 => only_blank(e, Request::Pop),
        3 => Some(Request::Replace(e)),
        4..=255 => None,
    }
}

// The length of the record at a place: 0 in version 1, which has none.
fn length_at(version: Version, bytes: &[u8], at: usize) -> u32
    requires { at + record_bytes version ≤ length bytes.now }
    ensures { result ≡ length_at version bytes.now at }
{
    match version {
        Version::One => 0,
        Version::Two => number_at(bytes, at + 9),
    }
}

pub fn record_at(version: Version, bytes: &[u8], at: usize) -> Option<Request>
    requires { at + record_bytes version ≤ length bytes.now }
    ensures { result ≡ entry_at version bytes.now at }
{
    let e = Element {
        rank: Rank(number_at(bytes, at + 1)),
        tag: Tag(number_at(bytes, at + 5)),
        length: Length(length_at(version, bytes, at)),
    };
    record_of(bytes[at], e)
}
