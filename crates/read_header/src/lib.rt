// Reads the header of a sheet: how many nodes, links and trees there are.
#![tactic(auto)]

ghost use Rattle.std.specs.Prelude.{◌≡◌};
ghost use Rattle.sheet.specs.Reading.{first_failing};
ghost use Rattle.sheet.specs.Sheet.{count_checks, header_record};
ghost use Rattle.format.specs.Refusals.{returned};
ghost use Rattle.read_header.specs.HeaderRead.{counts_of, header_says};

use format::limits::*;
use format::numbers::two;
use format::refusals::Refusal;

// How many nodes, links and trees a sheet says that it has. No `Layout`: where the tree records begin is known once the links are read.
#[derive(Clone, Copy)]
pub struct Counts {
    pub nodes: usize,
    pub links: usize,
    pub trees: usize,
}

// Whether a sheet can have these counts, or the first refusal.
fn check_counts(c: Counts) -> Result<(), Refusal>
    ensures { returned result ≡ first_failing (count_checks (counts_of c)) }
{
    if c.nodes < LEAST_NODES || MOST_NODES < c.nodes {
        return Err(Refusal::NodeCount);
    }
    if c.links < c.nodes - 1 || MOST_LINKS < c.links {
        return Err(Refusal::LinkCount);
    }
    if c.trees == 0 || MOST_TREES < c.trees {
        return Err(Refusal::TreeCount);
    }
    Ok(())
}

// The three counts, or the first refusal.
pub fn read_header(s: &[u8]) -> Result<Counts, Refusal>
    ensures { header_says s.now result ≡ header_record s.now }
{
    if s.len() < HEADER_LENGTH {
        return Err(Refusal::ShortHeader);
    }
    let c = Counts {
        nodes: two(s, 0),
        links: two(s, 2),
        trees: usize::from(s[4]),
    };
    check_counts(c)?;
    Ok(c)
}
