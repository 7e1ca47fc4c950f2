// A sheet that was read.
ghost use Rattle.sheet.specs.Sheet.{current};
ghost use Rattle.arrays.specs.Links.{ends_of};
ghost use Rattle.arrays.specs.Records.{SheetHeld};

use crate::{Layout, Links};

// A sheet that was read: its bytes, how they are laid out, and its links. They hold a network that a sheet gives.
#[derive(Clone, Copy)]
pub struct Sheet<'a> {
    pub bytes: &'a [u8],
    pub layout: Layout,
    pub links: &'a Links,
    pub ghost held: { SheetHeld current bytes.now (ends_of links.now) links.now.weights layout },
}
