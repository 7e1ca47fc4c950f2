// The sides of one tree that cross at most two members of another, struck out of a table of its cells.
// The other tree is given by its map and the links, and not by its number in a sheet: the network may be any, as docs/TRUST.md says.
#![tactic(auto)]

ghost use Rattle.std.specs.Prelude.{◌≡◌, ◌<◌, Bool, ◌&&◌, not, length, leb};
ghost use Rattle.cuts.specs.Sums.{table as flagTable};
ghost use Rattle.cuts.specs.Network.{Network, Tree, link_count};
ghost use Rattle.cuts.specs.Cut.{crossings};
ghost use Rattle.cuts.specs.Candidate.{Handle, side_of};
ghost use Rattle.arrays.specs.Links.{Held};
ghost use Rattle.sheet.specs.Bytes.{map_bit};
ghost use Rattle.tree_ranks.specs.Ranks.{RankedTree};
ghost use Rattle.bit_table.specs.Cells.{Tabled};
ghost use Rattle.place_layers.specs.Layers.{FourLayers};
ghost use Rattle.tree_crossings.specs.Layers.{PlaceOf, Placeable, EndsFlipped, EndsParted, odd_count};
ghost use Rattle.tree_crossings.specs.Strikes.{CellThere, cell_crossings, CellsThere, Struck, Strikable};

use arrays::Links;
use bit_table::{flip_bit, next_bit};
use format::limits::MOST_NODES;
use format::maps::list_members;
use place_layers::{LAYER, LAYERS, odd_word, sum_layers};
use tree_ranks::{Ranked, TABLE};

// The place of a link's end.
fn place_of(ends: &[u8], place: &[u8; MOST_NODES], link: usize) -> usize
    requires { link < length ends.now }
    ensures { PlaceOf ends.now place.now link result }
{
    place[ends[link] as usize] as usize
}

// Sets the bit of a member in the layer behind the place of each end, but not where both have one place. No other is set.
fn flip_ends(
    layers: &mut [u64],
    nodes: usize,
    links: &Links,
    members: &[u16],
    place: &[u8; MOST_NODES],
)
    requires { Placeable layers.old nodes links.now.firsts links.now.seconds members.now (length members.now) }
    ensures { EndsFlipped links.now.firsts links.now.seconds members.now (length members.now)
        place.now layers.new }
{
    for (r, &link) in members.iter().enumerate() {
        let first = place_of(&links.firsts, place, link as usize);
        let second = place_of(&links.seconds, place, link as usize);
        flip_bit(layers, MOST_NODES * (first + 1) + r);
        flip_bit(layers, MOST_NODES * (second + 1) + r);
    }
}

// Sets the bit of each member in the layers of the places that exactly one of its ends stands before, and no other bit, up
// to the layer behind the last place. No bit may be set before.
fn mark_layers(
    layers: &mut [u64],
    nodes: usize,
    links: &Links,
    members: &[u16],
    place: &[u8; MOST_NODES],
)
    requires { Placeable layers.old nodes links.now.firsts links.now.seconds members.now (length members.now) }
    ensures { EndsParted nodes links.now.firsts links.now.seconds members.now (length members.now)
        place.now layers.new }
{
    flip_ends(layers, nodes, links, members, place);
    sum_layers(layers, nodes);
}

// Whether at most two bits are set in an odd number of four layers.
fn crosses_few(layers: &[u64; LAYERS], a: usize, b: usize, c: usize, d: usize) -> bool
    requires { FourLayers a b c d }
    ensures { result ≡ leb (odd_count layers.now a b c d) 2 }
{
    let mut count = 0;
    for j in 0..LAYER {
        count += odd_word(layers, a, b, c, d, j).count_ones();
        if count > 2 {
            return false;
        }
    }
    true
}

// Whether at most two members cross the side of the cell at bit q. For the cell of one link the first layer, which has no
// bit set, stands for both layers of a second.
fn cell_struck(
    layers: &[u64; LAYERS],
    stops: &[u16; MOST_NODES],
    at: &[u8; MOST_NODES],
    q: usize,
) -> bool
    requires { CellThere stops.now q }
    ensures { result ≡ leb (cell_crossings layers.now stops.now at.now q) 2 }
{
    let first = q / MOST_NODES;
    let second = q % MOST_NODES;
    let u = at[first] as usize;
    let to = stops[u] as usize;
    let (v, end) = if first == second {
        (0, 0)
    } else {
        let v = at[second] as usize;
        (v, stops[v] as usize)
    };
    crosses_few(layers, to, u, end, v)
}

// Turns off the bits of the cells whose sides cross at most two members.
fn strike(
    table: &mut [u64; TABLE],
    layers: &[u64; LAYERS],
    nodes: usize,
    stops: &[u16; MOST_NODES],
    at: &[u8; MOST_NODES],
)
    requires { CellsThere nodes stops.now }
    ensures { Struck nodes layers.now stops.now at.now
        table.old table.new }
{
    let end = (nodes - 1) * MOST_NODES;
    let mut from = 0;
    while let Some(q) = next_bit(table, from, end) {
        if cell_struck(layers, stops, at, q) {
            flip_bit(table, q);
        }
        from = q + 1;
    }
}

// Strikes out of the table of a ranked tree the sides that cross at most two members of the tree in a map, of so many links.
pub fn strike_tree(
    table: &mut [u64; TABLE],
    map: &[u8],
    nodes: usize,
    count: usize,
    links: &Links,
    r: &Ranked,
)
    requires { Strikable map.now nodes count links.now r.now }
    ensures { (net : Network) (t t' : Tree) (p : Handle → Bool)
        → Held net links.now.firsts links.now.seconds nodes → link_count net ≡ count
        → t'.members ≡ flagTable count (map_bit map.now)
        → RankedTree net t r.now → Tabled net t p table.old
        → Tabled net t (λ h. p h && not (leb (crossings net t' (side_of net t h)) 2)) table.new }
{
    let mut members = [0u16; MOST_NODES];
    let listed = list_members(&mut members, map, count);
    let mut layers = [0u64; LAYERS];
    mark_layers(
        &mut layers,
        nodes,
        links,
        &members[..listed],
        &r.places.place,
    );
    strike(table, &layers, nodes, &r.places.stops, &r.at);
}
