ghost use Rattle.std.specs.Prelude.{Some};
ghost use Rattle.gateway.specs.Lines.{says};
ghost use Rattle.gateway.specs.Texts.{end_text, spaced, text};

use crate::line::{End, Line};
use std::fmt;

// The watts of a poll, each after a space.
#[derive(Drop)]
struct Watts<'a>(&'a [i32]);

impl fmt::Display for Watts<'_> {
    ghost output = { λ watts. Some (spaced watts.0.now) };

    fn fmt<W: fmt::Write>(&self, f: &mut fmt::Formatter<W>) -> fmt::Result {
        for watts in self.0 {
            write!(f, " {watts}")?;
        }
        Ok(())
    }
}

impl fmt::Display for End {
    ghost output = { λ end. Some (end_text end) };

    fn fmt<W: fmt::Write>(&self, f: &mut fmt::Formatter<W>) -> fmt::Result {
        match self {
            End::Wait => write!(f, "wait"),
            End::Full => write!(f, "full"),
            End::Done => write!(f, "done"),
            End::Fault(fault) => write!(f, "fault {} {}", fault.number(), fault.pair()),
        }
    }
}

impl fmt::Display for Line<'_> {
    ghost output = { λ line. Some (text (says line)) };

    fn fmt<W: fmt::Write>(&self, f: &mut fmt::Formatter<W>) -> fmt::Result {
        match *self {
            // The word goes out in one piece with the space before it: a writer that has no room for it keeps the number alone.
            Line::Poll { poll, end, watts } => match end {
                End::Wait => write!(f, "{poll} wait{}", Watts(watts)),
                End::Full => write!(f, "{poll} full{}", Watts(watts)),
                End::Done => write!(f, "{poll} done{}", Watts(watts)),
                End::Fault(fault) => write!(
                    f,
                    "{poll} fault {} {}{}",
                    fault.number(),
                    fault.pair(),
                    Watts(watts)
                ),
            },
            Line::Refused(refusal) => write!(
                f,
                "refused {} {} {}",
                refusal.number(),
                refusal.script(),
                refusal.place()
            ),
        }
    }
}
