// Why a sheet, an area, a map or a question is refused, and the number of each refusal (docs/REFUSALS.md). No refusal has number 11: every
// weight is allowed.
ghost use Rattle.std.specs.Prelude.{◌≡◌};
ghost use Rattle.format.specs.Refusals.{refusal_number, returned};

#[derive(Clone, Copy, Debug, PartialEq, Eq)]
pub enum Refusal {
    // The side area, or a side map, has fewer than 32 bytes.
    ShortSide = 1,

    // The report area has fewer than 24 bytes.
    ShortReport = 2,

    // The sheet has fewer than 5 bytes.
    ShortHeader = 3,

    // The node count is below 2 or above 256.
    NodeCount = 4,

    // The link count is below the node count less 1, or above 2,048.
    LinkCount = 5,

    // The tree count is 0 or above 32.
    TreeCount = 6,

    // No map byte is left for a link.
    NoMapByte = 7,

    // A map byte exceeds 15, or link 0's map byte is neither 7 nor 15.
    MapByte = 8,

    // The sheet ends before the last byte of a field whose bit stands.
    CutOffField = 9,

    // An end is not below the node count, or both ends are equal.
    LinkEnds = 10,

    // The sheet ends inside or before a tree record.
    CutOffTree = 12,

    // A link map has a bit set from the link count up.
    StrayBit = 13,

    // The ones in a link map are not the node count less 1.
    MemberCount = 14,

    // The member links do not join every node to node 0.
    NotJoined = 15,

    // Bytes follow the last tree.
    BytesLeft = 16,

    // A link number is not below the link count.
    NoLink = 18,

    // The area cannot hold every side of the list, at 32 bytes a side.
    ShortList = 19,

    // No 4-byte weight of the link makes the reported weight as large as wanted.
    OutOfReach = 20,

    // A side map is empty, has node 0, or has a bit set from the node count up.
    NoSide = 21,

    // A tree number is not below the tree count.
    NoTree = 23,

    // The area has fewer numbers than the tree has pairs.
    ShortPairs = 24,
}

impl From<Refusal> for u32 {
    ghost from_gives = { λ refusal number. number ≡ refusal_number refusal };

    fn from(refusal: Refusal) -> u32 {
        refusal as u32
    }
}

// The number that C is given: the refusal's, or 0 where nothing is refused.
pub fn returned(answer: Result<(), Refusal>) -> u32
    ensures { result ≡ returned answer }
{
    match answer {
        Ok(()) => 0,
        Err(refusal) => u32::from(refusal),
    }
}
