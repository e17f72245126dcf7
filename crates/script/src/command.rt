ghost use Rattle.script.specs.Beginnings.{Begins};

use crate::refusal::ScriptFault;
use stream::poll::Poll;

// The answer to the first command and the bytes after it, or None at the end of the bytes.
pub fn first_command(bytes: &[u8]) -> Result<Option<(Poll<Option<u16>>, &[u8])>, ScriptFault>
    ensures { Begins bytes.now result }
{
    match bytes {
        [] => Ok(None),
        [b'W', rest @ ..] => Ok(Some((Poll::Pending, rest))),
        [b'N', rest @ ..] => Ok(Some((Poll::Ready(None), rest))),
        [b'I', high, low, rest @ ..] => {
            let word = u16::from_be_bytes([*high, *low]);
            Ok(Some((Poll::Ready(Some(word)), rest)))
        }
        [b'I', ..] => Err(ScriptFault::CutShort),
        _ => Err(ScriptFault::UnknownCommand),
    }
}
