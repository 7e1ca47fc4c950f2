// Link records: a map byte, then the fields whose bits are set; the others are inherited from the link before. Behind the ends and the
// weight may stand a trunk number, which a reader of the network steps over.
#![tactic(auto)]

pub mod trunks; // trunk numbers

ghost use Rattle.std.specs.Prelude.{◌≡◌, cond, ◌+◌, ◌*◌, ◌≤◌, eqb, length, drop};
ghost use Rattle.arrays.specs.Links.{ends_of};
ghost use Rattle.sheet.specs.Bytes.{number};
ghost use Rattle.sheet.specs.Reading.{first_failing};
ghost use Rattle.sheet.specs.Sheet.{current, record_length, link_in, value_checks};
ghost use Rattle.format.specs.Refusals.{returned};
ghost use Rattle.read_links.specs.LinksRead.{fields_say, fields_of, link_of, RecordEnds, LinkRead, LinksReadable, LinksRead};

use arrays::Links;
use format::numbers::{four, two};
use format::refusals::Refusal;

// The three lowest bits of link 0's map byte: both ends and the weight are there.
const ENDS_AND_WEIGHT: u8 = 7;

#[derive(Clone, Copy)]
pub struct Link {
    pub first: usize,
    pub second: usize,
    pub weight: u32,
}

// How many bytes the fields behind the map byte take; none where the map byte is refused.
fn field_bytes(m: u8) -> Option<usize>
    ensures { fields_say result ≡ fields_of current m }
{
    match m {
        0 => Some(0),
        1 | 2 | 8 => Some(2),
        3 | 4 | 9 | 10 => Some(4),
        5 | 6 | 11 | 12 => Some(6),
        7 | 13 | 14 => Some(8),
        15 => Some(10),
        16..=255 => None,
    }
}

// Where the record ends. `start` says that it is link 0's.
fn record_end(s: &[u8], at: usize, start: bool) -> Result<usize, Refusal>
    requires { at ≤ length s.now }
    ensures { RecordEnds current start s.now at result }
{
    if at == s.len() {
        return Err(Refusal::NoMapByte);
    }
    let m = s[at];
    if m % 8 != ENDS_AND_WEIGHT && start {
        return Err(Refusal::MapByte);
    }
    let Some(n) = field_bytes(m) else {
        return Err(Refusal::MapByte);
    };
    if s.len() - at - 1 < n {
        return Err(Refusal::CutOffField);
    }
    Ok(at + 1 + n)
}

// A field of two bytes, or the value before where its bit is 0.
fn two_or(s: &[u8], at: usize, bit: usize, before: usize) -> usize
    requires { at + 2 * bit ≤ length s.now }
    ensures { result ≡ cond (eqb bit 1) (number 2 (drop at s.now)) before }
{
    if bit == 1 { two(s, at) } else { before }
}

// A field of four bytes, or the value before where its bit is 0. Apart from `two_or`: one function for both widths would take the reader of a
// number as a closure, and its clause would name both all the same.
fn four_or(s: &[u8], at: usize, bit: usize, before: u32) -> u32
    requires { at + 4 * bit ≤ length s.now }
    ensures { result ≡ cond (eqb bit 1) (number 4 (drop at s.now)) before }
{
    if bit == 1 { four(s, at) } else { before }
}

// The link of the record.
fn link_fields(s: &[u8], at: usize, before: Link) -> Link
    requires { at + record_length current (drop at s.now) ≤ length s.now }
    ensures { link_of result ≡ link_in current (link_of before) (drop at s.now) }
{
    let m = usize::from(s[at]);
    let first_at = at + 1;
    let second_at = first_at + 2 * (m % 2);
    let weight_at = second_at + 2 * (m / 2 % 2);
    Link {
        first: two_or(s, first_at, m % 2, before.first),
        second: two_or(s, second_at, m / 2 % 2, before.second),
        weight: four_or(s, weight_at, m / 4 % 2, before.weight),
    }
}

// Whether a link can have its ends. Every weight of four bytes is allowed.
fn check_ends(nodes: usize, l: Link) -> Result<(), Refusal>
    ensures { returned result ≡ first_failing (value_checks current nodes (link_of l)) }
{
    if nodes <= l.first || nodes <= l.second || l.first == l.second {
        return Err(Refusal::LinkEnds);
    }
    Ok(())
}

// The link of the record at a position, where `before` is the link before it, and where the record ends.
fn read_link(
    s: &[u8],
    at: usize,
    nodes: usize,
    start: bool,
    before: Link,
) -> Result<(Link, usize), Refusal>
    requires { at ≤ length s.now }
    ensures { LinkRead current nodes start (link_of before) s.now at result }
{
    let end = record_end(s, at, start)?;
    let link = link_fields(s, at, before);
    check_ends(nodes, link)?;
    Ok((link, end))
}

// Reads the links of `count` records from a position on. Answers where the records end.
pub fn read_links(
    links: &mut Links,
    s: &[u8],
    from: usize,
    nodes: usize,
    count: usize,
) -> Result<usize, Refusal>
    requires { LinksReadable s.now from nodes count }
    ensures { LinksRead current s.now from nodes count (ends_of links.new) links.new.weights result }
{
    let mut at = from;
    let mut link = Link {
        first: 0,
        second: 0,
        weight: 0,
    };
    for k in 0..count {
        (link, at) = read_link(s, at, nodes, k == 0, link)?;
        links.firsts[k] = link.first as u8;
        links.seconds[k] = link.second as u8;
        links.weights[k] = link.weight;
    }
    Ok(at)
}
