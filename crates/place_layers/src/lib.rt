// Layers of bits by the places of a tree: layer p is for the place p, and the last layer for the place behind the last.
#![tactic(auto)]

ghost use Rattle.std.specs.Prelude.{◌≡◌};
ghost use Rattle.place_layers.specs.Layers.{Summable, LayersSummed, WordThere, odd_word};

use format::limits::MOST_NODES;

// The words of a layer, which has as many bits as a tree has places.
pub const LAYER: usize = MOST_NODES / 64;

// The words of all layers.
pub const LAYERS: usize = (MOST_NODES + 1) * LAYER;

// Turns each bit over whose bit in the layer before is set, layer by layer up to layer `last`.
pub fn sum_layers(layers: &mut [u64], last: usize)
    requires { Summable layers.old last }
    ensures { LayersSummed last layers.old layers.new }
{
    for i in LAYER..LAYER * (last + 1) {
        layers[i] ^= layers[i - LAYER];
    }
}

// Word j of the bits that are set in an odd number of four layers. A struct of four numbers that play one part would name nothing.
pub fn odd_word(layers: &[u64; LAYERS], a: usize, b: usize, c: usize, d: usize, j: usize) -> u64
    requires { WordThere a b c d j }
    ensures { result ≡ odd_word layers.now a b c d j }
{
    let first = layers[LAYER * a + j] ^ layers[LAYER * b + j];
    let second = layers[LAYER * c + j] ^ layers[LAYER * d + j];
    first ^ second
}
