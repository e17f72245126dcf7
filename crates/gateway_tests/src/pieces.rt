use gateway::printer::write_report;
use std::fmt;

// Takes pieces of text whole, while it has room for so many bytes.
#[derive(Drop)]
struct Room {
    left: usize,
}

impl fmt::Write for Room {
    fn write_str(&mut self, s: &str) -> fmt::Result {
        self.left = self.left.checked_sub(s.len()).ok_or(fmt::Error)?;
        Ok(())
    }
}

// How many bytes are left of so many, and whether all text found room.
fn left_of(room: usize, input: &[u8]) -> (usize, bool) {
    let (text, written) = write_report(input, Room { left: room });
    (text.left, written.is_ok())
}

// The word for how a poll ended comes in one piece with the space before it: where it finds no room, the number stands alone.
#[test]
fn words_whole(rt: HostRuntime) {
    assert_eq!(rt; left_of(14, b"\x00\x01W"), (0, true));
    assert_eq!(rt; left_of(5, b"\x00\x01W"), (4, false));
    let fault = b"\x00\x06I\x00\x00I\x80\x00I\x00\x07I\x00\x00";
    assert_eq!(rt; left_of(14, fault), (0, true));
    assert_eq!(rt; left_of(7, fault), (6, false));
}
