// Link maps and side maps: one bit a link or a node, k in bit k mod 8 of byte k / 8.
ghost use Rattle.std.specs.Prelude.{◌≡◌, ◌&&◌, ◌*◌, ◌≤◌, ◌<◌, leb, length};
ghost use Rattle.cuts.specs.Limits.{most_links};
ghost use Rattle.cuts.specs.Sums.{count_to, any_to};
ghost use Rattle.sheet.specs.Bytes.{map_bit};
ghost use Rattle.sheet.specs.Sheet.{map_length};
ghost use Rattle.format.specs.Maps.{MembersFit, MembersListed};

// Whether bit k is set.
pub fn bit_set(map: &[u8], k: usize) -> bool
    requires { k < 8 * length map.now }
    ensures { result ≡ map_bit map.now k }
{
    (map[k / 8] >> (k % 8)) % 2 == 1
}

// Whether a bit is set from the count up, of links or of nodes.
pub fn stray_bit(map: &[u8], count: usize) -> bool
    requires { length map.now ≤ map_length most_links }
    ensures { result ≡ any_to (8 * length map.now) (λ k. leb count k && map_bit map.now k) }
{
    (count..8 * map.len()).any(|k| bit_set(map, k))
}

// How many bits are set.
pub fn ones(map: &[u8]) -> usize
    requires { length map.now ≤ map_length most_links }
    ensures { result ≡ count_to (8 * length map.now) (map_bit map.now) }
{
    map.iter().map(|byte| byte.count_ones() as usize).sum()
}

// Lists the links below the link count whose bits are set, rising, and answers how many they are, as what fills a buffer does. Every link is
// written behind those listed, and the next one over it where its bit is not set, since a store that waits for no bit is the quicker one.
pub fn list_members(members: &mut [u16], map: &[u8], links: usize) -> usize
    requires { MembersFit map.now links members.old }
    ensures { MembersListed map.now links members.new result }
{
    let mut found = 0;
    for k in 0..links {
        members[found] = k as u16;
        if bit_set(map, k) {
            found += 1;
        }
    }
    found
}
