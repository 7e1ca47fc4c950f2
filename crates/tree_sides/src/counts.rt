// The number of nodes in the side of one or two links of a tree, from their places and stops alone. The differences are written as ones
// that may wrap, since the stops alone do not say that they fit a tree; of every tree that was placed none wraps.
ghost use Rattle.tree_sides.specs.Sides.{OnePlace, TwoPlaces, EitherPlaces, SideCount, EitherCount};

use format::limits::MOST_NODES;

// The number of nodes below the link at the place `u`: those from its own place up to its stop.
pub fn single_count(stops: &[u16; MOST_NODES], u: usize) -> u16
    requires { OnePlace stops.now u }
    ensures { SideCount stops.now u u result }
{
    stops[u].wrapping_sub(u as u16)
}

// The number of nodes below exactly one of the links at the places `u` and `v`: where `v` lies below `u`, those below `u` less those below
// `v`, else both together.
pub fn pair_count(stops: &[u16; MOST_NODES], u: usize, v: usize) -> u16
    requires { TwoPlaces stops.now u v }
    ensures { SideCount stops.now u v result }
{
    let of_u = single_count(stops, u);
    let of_v = single_count(stops, v);
    if v < stops[u] as usize {
        return of_u.wrapping_sub(of_v);
    }
    of_u.wrapping_add(of_v)
}

// The number of nodes in the side of the link at the place `u` alone where `v` is equal to it, else of the links at both, in either order.
pub fn side_count(stops: &[u16; MOST_NODES], u: usize, v: usize) -> u16
    requires { EitherPlaces stops.now u v }
    ensures { EitherCount stops.now u v result }
{
    if u == v {
        return single_count(stops, u);
    }
    if u < v {
        return pair_count(stops, u, v);
    }
    pair_count(stops, v, u)
}
