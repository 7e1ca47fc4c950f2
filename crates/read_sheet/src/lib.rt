// Reads a serialised network whole: header, links, trees, and nothing behind them.
#![tactic(auto)]

pub mod tree_records; // tree records

ghost use Rattle.std.specs.Prelude.{drop};
ghost use Rattle.sheet.specs.Sheet.{current, header_length, decode_body, decode};
ghost use Rattle.read_header.specs.HeaderRead.{counts_of};
ghost use Rattle.arrays.specs.Links.{ends_of};
ghost use Rattle.read_sheet.specs.SheetRead.{BodyReadable, SheetRead};

use crate::tree_records::read_trees;
use arrays::{Layout, Links};
use format::limits::HEADER_LENGTH;
use format::refusals::Refusal;
use read_header::{Counts, read_header};
use read_links::read_links;

// The links and trees behind the header.
fn read_body(links: &mut Links, s: &[u8], c: Counts) -> Result<Layout, Refusal>
    requires { BodyReadable s.now (counts_of c) }
    ensures { SheetRead s.now (ends_of links.new) links.new.weights
        (decode_body current (counts_of c) (drop header_length s.now)) result }
{
    let at = read_links(links, s, HEADER_LENGTH, c.nodes, c.links)?;
    let end = read_trees(s, at, c.nodes, c.links, c.trees, links)?;
    if end < s.len() {
        return Err(Refusal::BytesLeft);
    }
    Ok(Layout {
        nodes: c.nodes,
        links: c.links,
        trees: c.trees,
        records: at,
    })
}

// Reads a sheet: its links, and its layout as the answer; or answers the first refusal.
// Cost: one pass over the bytes and one over the bits of each link map, and for each tree a few steps for each of its nodes.
pub fn read_sheet(links: &mut Links, s: &[u8]) -> Result<Layout, Refusal>
    ensures { SheetRead s.now (ends_of links.new) links.new.weights (decode current s.now) result }
{
    let c = read_header(s)?;
    read_body(links, s, c)
}
