// Trunk numbers, of link records that were read: each from behind its record's weight, or that of the link before.
ghost use Rattle.std.specs.Prelude.{◌≡◌, drop};
ghost use Rattle.sheet.specs.Sheet.{current, field_start};
ghost use Rattle.sheet.specs.Areas.{written};
ghost use Rattle.sheet.specs.Trunks.{trunks_from};
ghost use Rattle.read_links.specs.LinksRead.{TrunksReadable};

use crate::two_or;

// How many bytes of fields stand between a map byte and the trunk number.
fn trunk_start(m: usize) -> usize
    ensures { result ≡ field_start current m 3 }
{
    2 * (m % 2) + 2 * (m / 2 % 2) + 4 * (m / 4 % 2)
}

// Writes the trunk numbers of `count` link records from a position on to the front of the area.
pub fn trunk_numbers(numbers: &mut [u16], s: &[u8], from: usize, count: usize)
    requires { TrunksReadable current s.now from count numbers.old }
    ensures { numbers.new
        ≡ written (trunks_from current count 0 (drop from s.now)) numbers.old }
{
    let mut at = from;
    let mut trunk = 0;
    for k in 0..count {
        let m = usize::from(s[at]);
        let bit = m / 8 % 2;
        let trunk_at = at + 1 + trunk_start(m);
        trunk = two_or(s, trunk_at, bit, trunk);
        numbers[k] = trunk as u16;
        at = trunk_at + 2 * bit;
    }
}
