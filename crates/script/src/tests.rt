use crate::refusal::{ScriptFault, ScriptRefusal};
use crate::script::Script;
use std::test::Fail;
use stream::poll::Poll;
use stream::stream::Stream;

// How the bytes of script 7 are refused, if they are.
fn refused(bytes: &[u8]) -> Option<ScriptRefusal> {
    Script::new(7, bytes).err()
}

// A refusal of script 7.
fn refusal(fault: ScriptFault, place: u64) -> ScriptRefusal {
    ScriptRefusal {
        fault,
        script: 7,
        place,
    }
}

#[test]
fn lengths(rt: HostRuntime) {
    assert_eq!(rt; refused(&[]), None);
    assert_eq!(rt; refused(&[b'W'; 4096]), None);
    assert_eq!(rt;
        refused(&[b'?'; 4097]),
        Some(refusal(ScriptFault::TooLong, 4096))
    );
}

#[test]
fn faults(rt: HostRuntime) {
    assert_eq!(rt;
        refused(b"WI??NX"),
        Some(refusal(ScriptFault::UnknownCommand, 5))
    );
    assert_eq!(rt; refused(b"WNI"), Some(refusal(ScriptFault::CutShort, 2)));
    assert_eq!(rt; refused(b"IW"), Some(refusal(ScriptFault::CutShort, 0)));
    assert_eq!(rt;
        refused(b"wI"),
        Some(refusal(ScriptFault::UnknownCommand, 0))
    );
}

#[test]
fn numbers(rt: HostRuntime) {
    assert_eq!(rt; refusal(ScriptFault::TooLong, 4096).number(), 2);
    assert_eq!(rt; refusal(ScriptFault::UnknownCommand, 5).number(), 3);
    assert_eq!(rt; refusal(ScriptFault::CutShort, 2).number(), 4);
}

#[test]
fn polls(rt: HostRuntime) -> Result<(), Fail> {
    let mut script = Script::new(0, b"WI\x0F\xA0NWI\x00\x01")?;
    assert_eq!(rt; script.poll_next(), Poll::Pending);
    assert_eq!(rt; script.poll_next(), Poll::Ready(Some(4000)));
    assert_eq!(rt; script.poll_next(), Poll::Ready(None));
    assert_eq!(rt; script.poll_next(), Poll::Pending);
    assert_eq!(rt; script.into_bytes(), b"I\x00\x01".as_slice());
    Ok(())
}

#[test]
fn ends(rt: HostRuntime) -> Result<(), Fail> {
    let mut script = Script::new(0, b"W")?;
    assert_eq!(rt; script.poll_next(), Poll::Pending);
    assert_eq!(rt; script.poll_next(), Poll::Ready(None));
    assert_eq!(rt; script.poll_next(), Poll::Ready(None));
    Ok(())
}
