use crate::recorder::printed;
use std::process::Abort;
use std::test::Fail;

// That an input gives just this text; a failure says which input it is.
pub fn gives(rt: &(impl Abort + AllocGlobal), input: &[u8], text: &str) -> Result<(), Fail> {
    let printed = printed(rt.alloc(), input)?;
    assert_eq!(rt; printed.as_str(), text, "{input:?}");
    Ok(())
}
