// The list of a sheet: reads it, searches it, counts the sides of its list, and writes them where the area can hold them all.
#![tactic(auto)]

ghost use Rattle.std.specs.Prelude.{[]};
ghost use Rattle.sheet.specs.Sheet.{current};
ghost use Rattle.listing.specs.ListArea.{fitting, list_reading};
ghost use Rattle.format.specs.Refusals.{returned};
ghost use Rattle.arrays.specs.Sheets.{network_of};
ghost use Rattle.op_list.specs.Lists.{ListLeft};

use arrays::listed_sheets::ListedSheet;
use arrays::sheets::Sheet;
use arrays::{Links, NO_INDEX};
use format::limits::{MOST_NODES, MOST_TREES, SIDE_LENGTH};
use format::refusals::Refusal;
use list_trees::searched::Searched;
use list_trees::{count_sides, start_slots, write_sides};
use read_sheet::read_sheet;
use search_sheet::search_listed;
use sheet_trees::index_sheet;

// Writes the list of a searched sheet if the area has room for it.
fn list_searched(sides: &mut [u8], count: &mut u32, n: &Searched) -> Result<(), Refusal>
    ensures { ListLeft current (fitting current sides.old (network_of n.now.listed.sheet) [])
        sides.old sides.new count.new (returned result) }
{
    let most = sides.len() / SIDE_LENGTH;
    let mut next = [0u32; MOST_NODES];
    let mut news = [0u32; MOST_TREES];
    let total = count_sides(&mut next, &mut news, n, most);
    if most < total as usize {
        *count = 0;
        return Err(Refusal::ShortList);
    }
    start_slots(&mut next);
    write_sides(sides, &mut next, &news, n);
    *count = total;
    Ok(())
}

// Writes the list of a sheet that was read if the area has room for it.
fn list_network(sides: &mut [u8], count: &mut u32, n: &Sheet) -> Result<(), Refusal>
    ensures { ListLeft current (fitting current sides.old (network_of n.now) [])
        sides.old sides.new count.new (returned result) }
{
    let mut index = NO_INDEX;
    index_sheet(&mut index, n);
    let listed = ListedSheet {
        sheet: *n,
        index: &index,
    };
    let weight = search_listed(&listed).found.weight;
    list_searched(sides, count, &Searched { listed, weight })
}

// Reads a sheet, into links that are lent, and writes the sides of its list and their number; or answers the first refusal, writes 0 for the
// number of sides and leaves the area as it was.
pub fn list_sheet(
    sides: &mut [u8],
    count: &mut u32,
    links: &mut Links,
    sheet: &[u8],
) -> Result<(), Refusal>
    ensures { ListLeft current (list_reading current sheet.now sides.old)
        sides.old sides.new count.new (returned result) }
{
    *count = 0;
    let layout = read_sheet(links, sheet)?;
    let n = Sheet {
        bytes: sheet,
        layout,
        links,
    };
    list_network(sides, count, &n)
}
