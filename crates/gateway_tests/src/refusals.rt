use crate::gives::gives;
use crate::recorder::printed;
use std::test::Fail;

#[test]
fn headers(rt: HostRuntime) -> Result<(), Fail> {
    gives(&rt, b"", "refused 7 0 0\n")?;
    gives(&rt, b"\x00", "refused 7 0 0\n")?;
    // A length equal to what follows, and one above it.
    gives(&rt, b"\x00\x03I\x00\x01", "1 done\n")?;
    gives(&rt, b"\x00\x04I\x00\x01", "refused 7 0 0\n")?;
    // 7 comes before 2.
    gives(&rt, b"\x10\x01X", "refused 7 0 0\n")
}

#[test]
fn unknown_commands(rt: HostRuntime) -> Result<(), Fail> {
    gives(&rt, b"\x00\x02WX", "refused 3 1 1\n")?;
    gives(&rt, b"\x00\x00NNI??X", "refused 3 2 5\n")
}

#[test]
fn items_cut_short(rt: HostRuntime) -> Result<(), Fail> {
    // No byte after it, and one byte.
    gives(&rt, b"\x00\x01I", "refused 4 1 0\n")?;
    gives(&rt, b"\x00\x03WI\x00", "refused 4 1 1\n")?;
    gives(&rt, b"\x00\x00WWI", "refused 4 2 2\n")
}

#[test]
fn long_scripts(rt: HostRuntime) -> Result<(), Fail> {
    let mut high = [b'X'; 4099];
    high[0] = 0x10;
    high[1] = 0x01;
    // 4,097 bytes are too long, and 2 comes before 3.
    gives(&rt, &high, "refused 2 1 4096\n")?;
    gives(&rt, &high[0..4098], "refused 7 0 0\n")?;
    // 4,096 bytes are not too long.
    high[1] = 0x00;
    gives(&rt, &high[0..4098], "refused 3 1 0\n")?;
    let mut low = [b'N'; 4099];
    low[0] = 0;
    low[1] = 0;
    gives(&rt, &low, "refused 2 2 4096\n")?;
    gives(&rt, &low[0..4098], "1 done\n")
}

// All that a program reads of an input that is longer.
#[test]
fn longest_input(rt: HostRuntime) -> Result<(), Fail> {
    gives(&rt, &[0; 16384], "refused 2 2 4096\n")
}

// Either script may be named, with its own refusal.
#[test]
fn two_bad_scripts(rt: HostRuntime) -> Result<(), Fail> {
    let text = printed(rt.alloc(), b"\x00\x02WXI")?;
    assert!(rt; text.as_str() == "refused 3 1 1\n" || text.as_str() == "refused 4 2 0\n");
    Ok(())
}
