// A sheet that was searched.
ghost use Rattle.std.specs.Prelude.{◌≡◌};
ghost use Rattle.arrays.specs.Sheets.{network_of};
ghost use Rattle.list_trees.specs.Trees.{lightest};

use arrays::listed_sheets::ListedSheet;

// A listed sheet with its reported weight, which is that of the ties.
#[derive(Clone, Copy)]
pub struct Searched<'a> {
    pub listed: ListedSheet<'a>,
    pub weight: u64,
    pub ghost weight_is: { weight ≡ lightest (network_of listed.sheet) },
}
