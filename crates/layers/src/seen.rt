// What is seen of a frame, as one value.
ghost use Rattle.layers.specs.Inside.{Inside};

use crate::Layers;

/// The socket on which a frame came, the second or not, its bytes, and layers that lie inside them. `layers::see` makes one of the layers that they show.
#[derive(Clone, Copy)]
pub struct Seen<'a> {
    pub second: bool,
    pub frame: &'a [u8],
    pub layers: Layers,
    ghost inside: { ∥ Inside frame.now layers ∥₁ },
}
