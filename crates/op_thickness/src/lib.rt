// How thick a cable must be: reads a sheet, and searches it with the link's weight at 0 and, where that does not decide, at the largest.
#![tactic(auto)]

ghost use Rattle.std.specs.Prelude.{[]};
ghost use Rattle.sheet.specs.Sheet.{current};
ghost use Rattle.format.specs.Refusals.{returned};
ghost use Rattle.arrays.specs.Links.{ends_of};
ghost use Rattle.arrays.specs.Records.{network_at, SheetHeld};
ghost use Rattle.thickness.specs.ThicknessTold.{thickness_of, ThicknessTold};
ghost use Rattle.op_thickness.specs.Figures.{FigureLeft};

use arrays::sheets::Sheet;
use arrays::{Layout, Links};
use format::limits::MOST_WEIGHT;
use format::refusals::Refusal;
use read_sheet::read_sheet;
use search_sheet::search_trees;

// Writes the smallest weight of a link with which the reported weight is no less than wanted, for the network that was read from the sheet
// into the links; or answers the refusal and writes 0. The link's weight is lost. Bytes, layout and links are not given as a `Sheet`, which lends
// its links for reading only.
fn network_thickness(
    figure: &mut u32,
    bytes: &[u8],
    layout: Layout,
    links: &mut Links,
    link: usize,
    wanted: u64,
) -> Result<(), Refusal>
    requires { SheetHeld current bytes.now (ends_of links.old) links.old.weights layout }
    ensures { FigureLeft (thickness_of current link wanted
        (network_at bytes.now (ends_of links.old) links.old.weights layout) [])
        figure.new (returned result) }
{
    *figure = 0;
    if link >= layout.links {
        return Err(Refusal::NoLink);
    }
    links.weights[link] = 0;
    let without = Sheet {
        bytes,
        layout,
        links,
    };
    let low = search_trees(&without).found.weight;
    if wanted <= low {
        return Ok(());
    }
    links.weights[link] = MOST_WEIGHT;
    let thickest = Sheet {
        bytes,
        layout,
        links,
    };
    let high = search_trees(&thickest).found.weight;
    if high < wanted {
        return Err(Refusal::OutOfReach);
    }
    *figure = (wanted - low) as u32;
    Ok(())
}

// Reads a sheet, into links that are lent, and writes the smallest weight of a link with which the reported weight is no less than
// wanted; or answers the first refusal and writes 0.
pub fn sheet_thickness(
    figure: &mut u32,
    links: &mut Links,
    sheet: &[u8],
    link: usize,
    wanted: u64,
) -> Result<(), Refusal>
    ensures { ThicknessTold current sheet.now link wanted figure.new (returned result) }
{
    *figure = 0;
    let layout = read_sheet(links, sheet)?;
    network_thickness(figure, sheet, layout, links, link, wanted)
}
