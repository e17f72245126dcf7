// The layer that a fault comes from. One so far; a fault carries its layer.
#[derive(Clone, Copy, Debug, PartialEq)]
pub enum Layer {
    Reading,
}
