ghost use Rattle.std.specs.Prelude.{◌≡◌};
ghost use Rattle.script.specs.Commands.{commands, StandsFor};
ghost use Rattle.script.specs.OneWay.{stands_in_one_way};

use crate::check::check;
use crate::command::first_command;
use crate::refusal::{ScriptFault, ScriptRefusal};
use stream::poll::Poll;
use stream::stream::Stream;

// A source that answers as its bytes say, one command to a poll. Only checked bytes make one.
#[derive(Drop)]
pub struct Script<'a> {
    left: &'a [u8],
    pub ghost right: { StandsFor left.now (commands left.now) } by { stands_in_one_way },
}

impl<'a> Script<'a> {
    ghost use Rattle.script.specs.Checks.{Checked};

    pub const MAX_LEN: usize = 4096;

    pub fn new(number: u8, bytes: &'a [u8]) -> Result<Script<'a>, ScriptRefusal>
        ensures { Checked number bytes.now result }
    {
        if bytes.len() > Self::MAX_LEN {
            return Err(ScriptRefusal {
                fault: ScriptFault::TooLong,
                script: number,
                place: Self::MAX_LEN as u64,
            });
        }
        check(bytes).map_err(|(fault, left)| ScriptRefusal {
            fault,
            script: number,
            place: (bytes.len() - left) as u64,
        })?;
        Ok(Script { left: bytes })
    }

    // The bytes of the commands still to come.
    pub fn into_bytes(self) -> &'a [u8]
        ensures { result.now ≡ self.entry.left.now }
    {
        let Script { left } = self;
        left
    }
}

impl<'a> Stream for Script<'a> {
    ghost use Rattle.stream.specs.Pipelines.{Polled};
    ghost use Rattle.script.specs.Commands.{after_command};
    ghost use Rattle.script.specs.Sources.{script_answers, script_pipeline};

    type Item = u16;

    ghost answers = { script_answers };

    ghost pipeline = { script_pipeline };

    fn poll_next(&mut self) -> Poll<Option<u16>>
        ensures polled { Polled script_answers script_pipeline self.old result self.new }
        ensures left { self.new.left.now ≡ after_command self.old.left.now }
    {
        // The bytes have no fault, so only at their end there is no command.
        let Ok(Some((answer, left))) = first_command(self.left) else {
            return Poll::Ready(None);
        };
        self.left = left;
        answer
    }
}
