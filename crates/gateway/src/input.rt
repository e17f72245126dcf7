ghost use Rattle.gateway.specs.Inputs.{Cut, Opened};

use crate::refusal::InputRefusal;
use script::script::Script;

// The bytes of the two scripts: the high-word script has the length that the first two bytes say, and the low-word script
// is what is left.
fn cut(input: &[u8]) -> Result<(&[u8], &[u8]), InputRefusal>
    ensures { Cut (λ p. (p.0.now, p.1.now)) input.now result }
{
    let [high, low, scripts @ ..] = input else {
        return Err(InputRefusal::Header);
    };
    let length = usize::from(u16::from_be_bytes([*high, *low]));
    scripts.split_at_checked(length).ok_or(InputRefusal::Header)
}

// The two sources of an input. Their numbers, 1 and 2, are what a refusal is printed with.
pub fn open(input: &[u8]) -> Result<(Script<'_>, Script<'_>), InputRefusal>
    ensures { Opened (λ p. (p.0.left.now, p.1.left.now)) input.now result }
{
    let (high, low) = cut(input)?;
    Ok((Script::new(1, high)?, Script::new(2, low)?))
}
