use crate::fault::Fault;
use crate::join::join;
use crate::layer::Layer;
use crate::readings::Readings;
use std::test::Fail;
use stream::callback::Callback;

#[test]
fn positive(rt: HostRuntime) -> Result<(), Fail> {
    assert_eq!(rt; join(0, 0x0000, 0x0FA0)?, 4_000);
    assert_eq!(rt; join(1, 0x003D, 0x0010)?, 3_997_712);
    assert_eq!(rt; join(2, 0x0000, 0x0000)?, 0);
    assert_eq!(rt; join(3, 0x7FFF, 0xFFFF)?, i32::MAX);
    Ok(())
}

#[test]
fn negative(rt: HostRuntime) -> Result<(), Fail> {
    assert_eq!(rt; join(0, 0xFFFF, 0xFFFF)?, -1);
    assert_eq!(rt; join(1, 0x8000, 0x0001)?, i32::MIN + 1);
    Ok(())
}

#[test]
fn not_implemented(rt: HostRuntime) {
    let mut readings = Readings;
    assert_eq!(rt;
        readings.call((5, (0x8000, 0x0000))),
        Err(Fault::NotImplemented {
            layer: Layer::Reading,
            pair: 5,
        })
    );
}
