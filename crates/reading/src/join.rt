ghost use Rattle.std.specs.Prelude.{◌≡◌};
ghost use Rattle.reading.specs.Words.{reading};

use crate::fault::Fault;
use crate::layer::Layer;

// The pair of words that a device sends for a reading that it does not have.
const NOT_IMPLEMENTED: (u16, u16) = (0x8000, 0x0000);

// The reading of a pair of words, high word first.
pub fn join(pair: u64, high: u16, low: u16) -> Result<i32, Fault>
    ensures { result ≡ reading pair high low }
{
    if (high, low) == NOT_IMPLEMENTED {
        return Err(Fault::NotImplemented {
            layer: Layer::Reading,
            pair,
        });
    }
    // No conversion takes two words: one from bytes would need them taken apart first.
    let bits = u32::from(high) * 0x10000 + u32::from(low);
    Ok(bits.cast_signed())
}
