ghost use Rattle.std.specs.Prelude.{◌≡◌, true, List, is_ok, Ok};
ghost use Rattle.std.specs.Fmt.{WritesInCalls};
ghost use Rattle.gateway.specs.Lines.{Said};
ghost use Rattle.gateway.specs.Prints.{PrintsText};
ghost use Rattle.gateway.specs.Reports.{Reports};
ghost use Rattle.gateway.specs.Texts.{lines_text};

use crate::line::{Line, Printer};
use crate::report::report;
use std::fmt;

// Writes lines as text, up to the first that cannot be written.
pub struct TextPrinter<W> {
    text: W,
    // A flag and no `?`: `report` cannot fail, whatever it prints to, and the text comes back after a failure too.
    written: fmt::Result,
}

impl<W: fmt::Write> TextPrinter<W> {
    pub fn new(text: W) -> TextPrinter<W>
        ensures text { result.text ≡ text }
        ensures written { result.written ≡ Ok tt }
    {
        TextPrinter {
            text,
            written: Ok(()),
        }
    }

    // What the text was written to, and whether all of it could be.
    pub fn finish(self) -> (W, fmt::Result)
        ensures text { result.0 ≡ self.text }
        ensures written { result.1 ≡ self.written }
    {
        let TextPrinter { text, written } = self;
        (text, written)
    }
}

impl<W: fmt::Write> Printer for TextPrinter<W> {
    ghost prints = { PrintsText W.Write.write_str_gives };

    fn print(&mut self, line: Line<'_>) {
        if self.written.is_ok() {
            self.written = writeln!(self.text, "{line}");
        }
    }
}

// Writes all lines for an input, and says whether they could be written.
pub fn write_report<W: fmt::Write>(input: &[u8], text: W) -> (W, fmt::Result)
    ensures { is_ok result.1 ≡ true
        → (ls : List Said)
        × Reports input.now ls
        × WritesInCalls W.Write.write_str_gives text (lines_text ls) result.0 }
{
    let mut printer = TextPrinter::new(text);
    report(input, &mut printer);
    printer.finish()
}
