use arrayvec::ArrayVec;
use std::io;
use std::io::Write;

// How many bytes are kept before they are written; a line of the programs is far shorter.
const LINE_LEN: usize = 1024;

// A writer behind a place for the bytes of a line, so that a line goes out in one write. No BufWriter: its memory comes from the
// heap and can be refused.
#[derive(Drop)]
pub struct LineBuffer<W> {
    writer: W,
    line: ArrayVec<u8, LINE_LEN>,
}

impl<W: Write> LineBuffer<W> {
    ghost use Rattle.std.specs.Prelude.{◌≡◌, true, [], OnOk};
    ghost use Rattle.std.specs.Io.BufRead.{ends_with_byte};
    ghost use Rattle.std.specs.Io.KnownBytes.{Appends};
    ghost use Rattle.console.specs.LineBuffers.{given, kept};

    pub fn new(writer: W) -> LineBuffer<W>
        ensures { (result.writer ≡ writer) × (kept result ≡ []) }
    {
        LineBuffer {
            writer,
            line: ArrayVec::new(),
        }
    }

    // Keeps the bytes, and writes what it kept where they find no room. What is longer than a line is written at once.
    pub fn write_all(&mut self, text: &[u8]) -> io::Result<()>
        ensures { OnOk result (Appends (given W.contents self.old) (given W.contents self.new) text.now) }
    {
        if text.len() > self.line.remaining_capacity() {
            self.flush()?;
        }
        if self.line.try_extend_from_slice(text).is_err() {
            self.writer.write_all(text)?;
        }
        Ok(())
    }

    // Takes the text, and writes what it kept where the text ends a line.
    pub fn write_text(&mut self, text: &[u8]) -> io::Result<()>
        ensures all { OnOk result (Appends (given W.contents self.old) (given W.contents self.new) text.now) }
        ensures line { OnOk result (ends_with_byte 10 text.now ≡ true → kept self.new ≡ []) }
    {
        self.write_all(text)?;
        if text.ends_with(b"\n") {
            self.flush()?;
        }
        Ok(())
    }

    // Writes what it kept.
    pub fn flush(&mut self) -> io::Result<()>
        ensures sent { OnOk result
            (Appends (W.contents self.old.writer) (W.contents self.new.writer) (kept self.old)) }
        ensures empty { OnOk result (kept self.new ≡ []) }
    {
        self.writer.write_all(&self.line)?;
        self.line.clear();
        Ok(())
    }
}

#[cfg(test)]
mod tests {
    use super::*;
    use std::test::Fail;

    // Bytes that find room, bytes that find none, and more than a line: all come out, in order.
    #[test]
    fn pieces(rt: HostRuntime) -> Result<(), Fail> {
        let mut buffer = LineBuffer::new(Vec::new(rt.alloc()));
        buffer.write_all(b"ab")?;
        assert_eq!(rt; buffer.writer.len(), 0);
        buffer.write_all(&[b'c'; 1023])?;
        assert_eq!(rt; buffer.writer.as_slice(), b"ab".as_slice());
        buffer.write_all(&[b'd'; 1025])?;
        assert_eq!(rt; buffer.writer.len(), 2050);
        buffer.write_all(b"e")?;
        buffer.flush()?;
        assert_eq!(rt; buffer.writer.len(), 2051);
        assert!(rt; buffer.writer.starts_with(b"abcc"));
        assert!(rt; buffer.writer.ends_with(b"dde"));
        Ok(())
    }
}
