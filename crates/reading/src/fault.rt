ghost use Rattle.std.specs.Prelude.{◌≡◌};
ghost use Rattle.reading.specs.Faults.{told};

use crate::layer::Layer;

// Why a pair of words has no reading, with the pair's number from 0. One case so far; each
// refusal is a case of an enum.
#[derive(Clone, Copy, Debug, PartialEq)]
pub enum Fault {
    NotImplemented { layer: Layer, pair: u64 },
}

impl Fault {
    // Its number in the list of refusals, by which refusals are known. No trait has it, since nothing takes refusals of more
    // than one kind.
    pub fn number(self) -> u8
        ensures { result ≡ (told self).number }
    {
        match self {
            Fault::NotImplemented { .. } => 6,
        }
    }

    pub fn layer(self) -> Layer
        ensures { result ≡ (told self).layer }
    {
        match self {
            Fault::NotImplemented { layer, .. } => layer,
        }
    }

    pub fn pair(self) -> u64
        ensures { result ≡ (told self).pair }
    {
        match self {
            Fault::NotImplemented { pair, .. } => pair,
        }
    }
}
