ghost use Rattle.std.specs.Prelude.{◌≡◌, true, is_ok, Err};

use crate::line_buffer::LineBuffer;
use std::io::Stdout;
use std::{fmt, io};

// Standard output as text that is written line by line, while all so far could be written, and else the first failure.
pub struct Output {
    lines: io::Result<LineBuffer<Stdout>>,
}

impl Output {
    pub fn new(rt: &HostRuntime) -> Output
        ensures { is_ok result.lines ≡ true }
    {
        Output {
            lines: Ok(LineBuffer::new(rt.stdout())),
        }
    }

    // The first failure, if there was one. `printed` is what the writing of all text came to.
    pub fn finish(self, printed: fmt::Result) -> io::Result<()>
        ensures { is_ok result ≡ true → (is_ok self.lines ≡ true) × (is_ok printed ≡ true) }
    {
        let Output { lines } = self;
        lines?.flush()?;
        printed.map_err(|_| io::Error::other("formatter error"))
    }

    // Puts the failure in place of the lines. Inside `write_str` each call would pay for the room of a second `Output`.
    fn fail(&mut self, failure: io::Error)
        ensures { self.new.lines ≡ Err failure }
    {
        self.lines = Err(failure);
    }
}

impl fmt::Write for Output {
    // What standard output has got is nothing that a contract can say; text is taken only where all before it was.
    ghost write_str_gives = { λ s _ t. (is_ok s.lines ≡ true) × (is_ok t.lines ≡ true) };

    fn write_str(&mut self, s: &str) -> fmt::Result {
        // No combinators: the prover does not cover `as_mut` with `?`, nor what a closure in `map_err` would leave in `self`.
        let Ok(lines) = &mut self.lines else {
            return Err(fmt::Error);
        };
        if let Err(failure) = lines.write_text(s.as_bytes()) {
            self.fail(failure);
            return Err(fmt::Error);
        }
        Ok(())
    }
}
