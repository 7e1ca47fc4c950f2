// A sheet that was read, with its links by node.
ghost use Rattle.arrays.specs.Sheets.{SheetListed};

use crate::Index;
use crate::sheets::Sheet;

// A sheet that was read, with its links by node.
#[derive(Clone, Copy)]
pub struct ListedSheet<'a> {
    pub sheet: Sheet<'a>,
    pub index: &'a Index,
    pub ghost listed: { SheetListed sheet index.now },
}
