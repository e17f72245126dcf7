use crate::gives::gives;
use std::test::Fail;

#[test]
fn waits(rt: HostRuntime) -> Result<(), Fail> {
    gives(
        &rt,
        b"\x00\x07I\x00\x00WI\x00\x3DWI\x0F\xA0I\x00\x10",
        "1 wait\n2 wait 4000\n3 done 3997712\n",
    )
}

// A fifth reading in one poll finds no place, and comes first in the next.
#[test]
fn full(rt: HostRuntime) -> Result<(), Fail> {
    gives(
        &rt,
        b"\x00\x12I\x00\x00I\x00\x00I\x00\x00I\x00\x00I\x00\x00I\x00\x00I\x00\x01I\x00\x02I\x00\x03I\x00\x04I\x00\x05WI\x00\x06",
        "1 full 1 2 3 4\n2 wait 5\n3 done 6\n",
    )
}

#[test]
fn fault(rt: HostRuntime) -> Result<(), Fail> {
    gives(
        &rt,
        b"\x00\x06I\x00\x00I\x80\x00I\x00\x07I\x00\x00",
        "1 fault 6 1 7\n",
    )
}

#[test]
fn negative(rt: HostRuntime) -> Result<(), Fail> {
    gives(
        &rt,
        b"\x00\x06I\xFF\xFFI\x80\x00I\xFF\xFFI\x00\x01",
        "1 done -1 -2147483647\n",
    )
}

// The first None ends all; a None of the second stream drops the first's item.
#[test]
fn nones(rt: HostRuntime) -> Result<(), Fail> {
    gives(&rt, b"\x00\x03I\x00\x01NI\x00\x02", "1 done\n")
}
