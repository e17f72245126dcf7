ghost use Rattle.gateway.specs.Lines.{Said, says};

use crate::refusal::InputRefusal;
use reading::fault::Fault;

// How a poll ended, as it is printed. No Step: that holds the consumer, and is of another crate, so that it could have no
// Display here.
#[derive(Clone, Copy)]
pub enum End {
    Wait,
    Full,
    Done,
    Fault(Fault),
}

// What is printed for a poll, with the watts that were put in it, or for an input that is refused.
#[derive(Clone, Copy)]
pub enum Line<'a> {
    Poll {
        poll: u64,
        end: End,
        watts: &'a [i32],
    },
    Refused(InputRefusal),
}

// Something that prints lines, one after another: text, or whatever a caller keeps. No closure, since `report` would have to
// require that it may be called.
pub trait Printer {
    // That it prints a line, by what the line says.
    ghost prints: { Self → Said → Self → Type 0 };

    fn print(&mut self, line: Line<'_>)
        ensures { prints self.old (says line.entry) self.new };
}
