// The limits of a sheet, and the lengths of its parts and of the areas.

pub const HEADER_LENGTH: usize = 5;

pub const LEAST_NODES: usize = 2;

pub const MOST_NODES: usize = 256;

pub const MOST_LINKS: usize = 2048;

pub const MOST_TREES: usize = 32;

// The largest 4-byte weight.
pub const MOST_WEIGHT: u32 = 4_294_967_295;

// The bytes of a side area that are written, and those of a side map that are read.
pub const SIDE_LENGTH: usize = 32;

// The bytes of a report area that are written.
pub const REPORT_LENGTH: usize = 24;
