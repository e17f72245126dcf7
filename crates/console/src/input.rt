ghost use Rattle.std.specs.Prelude.{◌<◌, ◌≤◌, length, IfOk};
ghost use Rattle.std.specs.Io.KnownBytes.{Consumes, IsAtEnd};

use std::io;
use std::io::Read;

// How many bytes of standard input the program `watts` reads.
pub const INPUT_LEN: usize = 16384;

// Reads until the buffer is full or the input ends, and answers what came.
pub fn read_up_to<'a, R: Read>(reader: &mut R, buffer: &'a mut [u8]) -> io::Result<&'a [u8]>
    ensures fits { IfOk result (λ read. length read.now ≤ length buffer.old) }
    ensures bytes { IfOk result (λ read. Consumes (R.remaining reader.old) (R.remaining reader.new) read.now) }
    ensures end { IfOk result (λ read. length read.now < length buffer.old → IsAtEnd (R.remaining reader.new)) }
{
    let mut len = 0;
    // An index, since of a rest that gets shorter the proof keeps the length alone; so the contract says which bytes were read.
    while len < buffer.len() {
        let count = reader.read(&mut buffer[len..])?;
        if count == 0 {
            break;
        }
        len += count;
    }
    Ok(&buffer[..len])
}

#[cfg(test)]
mod tests {
    use super::*;
    use std::test::Fail;

    // An input of so many bytes, numbered from 1 modulo 251, which come in pieces.
    #[derive(Drop)]
    struct Pieces {
        left: usize,
        piece: usize,
        next: u8,
    }

    impl Read for Pieces {
        fn read(&mut self, buf: &mut [u8]) -> io::Result<usize> {
            let count = self.left.min(self.piece).min(buf.len());
            self.left -= count;
            for byte in &mut buf[..count] {
                *byte = self.next;
                self.next = (self.next % 251).wrapping_add(1);
            }
            Ok(count)
        }
    }

    // What is read of an input of so many bytes: how many, how many are then left, and whether they stand in order.
    fn read_of(left: usize, piece: usize) -> io::Result<(usize, usize, bool)> {
        let mut input = Pieces {
            left,
            piece,
            next: 1,
        };
        let mut buffer = [0u8; INPUT_LEN];
        let read = read_up_to(&mut input, &mut buffer)?;
        let in_order = read
            .iter()
            .zip((1..=251).cycle())
            .all(|(byte, next)| *byte == next);
        Ok((read.len(), input.left, in_order))
    }

    #[test]
    fn lengths(rt: HostRuntime) -> Result<(), Fail> {
        assert_eq!(rt; INPUT_LEN, 16384);
        assert_eq!(rt; read_of(0, 100)?, (0, 0, true));
        assert_eq!(rt; read_of(16383, 100)?, (16383, 0, true));
        assert_eq!(rt; read_of(16384, 100)?, (16384, 0, true));
        assert_eq!(rt; read_of(20000, 100)?, (16384, 3616, true));
        assert_eq!(rt; read_of(20000, 20000)?, (16384, 3616, true));
        Ok(())
    }
}
