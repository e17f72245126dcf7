ghost use Rattle.script.specs.Beginnings.{Checks};

use crate::command::first_command;
use crate::refusal::ScriptFault;

// The first fault, with how many bytes are left where it stands, since a sum of those before it could overflow. It calls itself
// as the rule does: a script is right when its first command is right and what follows is right.
pub fn check(bytes: &[u8]) -> Result<(), (ScriptFault, usize)>
    ensures { Checks bytes.now result }
{
    match first_command(bytes) {
        Ok(None) => Ok(()),
        Ok(Some((_, rest))) => check(rest),
        Err(fault) => Err((fault, bytes.len())),
    }
}
