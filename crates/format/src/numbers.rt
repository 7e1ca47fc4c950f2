// Numbers in bytes, lowest byte first.
ghost use Rattle.std.specs.Prelude.{◌≡◌, ◌++◌, ◌+◌, ◌≤◌, length, take, drop};
ghost use Rattle.sheet.specs.Bytes.{number, bytes_of};
ghost use Rattle.format.specs.Numbers.{two_bytes, Is};

// The number in the two bytes at a position.
pub fn two(s: &[u8], at: usize) -> usize
    requires { at + 2 ≤ length s.now }
    ensures { Is two_bytes (number 2 (drop at s.now)) result }
{
    usize::from(u16::from_le_bytes([s[at], s[at + 1]]))
}

// The number in the four bytes at a position.
pub fn four(s: &[u8], at: usize) -> u32
    requires { at + 4 ≤ length s.now }
    ensures { result ≡ number 4 (drop at s.now) }
{
    u32::from_le_bytes([s[at], s[at + 1], s[at + 2], s[at + 3]])
}

// The number in the eight bytes at a position.
pub fn eight(s: &[u8], at: usize) -> u64
    requires { at + 8 ≤ length s.now }
    ensures { result ≡ number 8 (drop at s.now) }
{
    u64::from_le_bytes(s[at..at + 8].try_into().unwrap())
}

// Writes a number into the two bytes at a position.
pub fn put_two(area: &mut [u8], at: usize, v: u16)
    requires { at + 2 ≤ length area.old }
    ensures { area.new
        ≡ take at area.old ++ bytes_of 2 v ++ drop (at + 2) area.old }
{
    area[at..at + 2].copy_from_slice(&v.to_le_bytes());
}

// Writes a number into the four bytes at a position.
pub fn put_four(area: &mut [u8], at: usize, v: u32)
    requires { at + 4 ≤ length area.old }
    ensures { area.new
        ≡ take at area.old ++ bytes_of 4 v ++ drop (at + 4) area.old }
{
    area[at..at + 4].copy_from_slice(&v.to_le_bytes());
}

// Writes a number into the eight bytes at a position.
pub fn put_eight(area: &mut [u8], at: usize, v: u64)
    requires { at + 8 ≤ length area.old }
    ensures { area.new
        ≡ take at area.old ++ bytes_of 8 v ++ drop (at + 8) area.old }
{
    area[at..at + 8].copy_from_slice(&v.to_le_bytes());
}
