//! The instance made from 0.
use instance_json::generate;
use std::test::Fail;

// The first three draws are 15470, 18256 and 53708.
#[test]
fn makes_an_instance(rt: HostRuntime) -> Result<(), Fail> {
    let instance = generate(rt.alloc(), 0)?;
    assert!(rt; instance.slots() == 168 && instance.shifts().len() == 6);
    assert_eq!(rt;
        (instance.need(6), instance.need(7), instance.need(8)),
        (4, 3, 4)
    );
    Ok(())
}
