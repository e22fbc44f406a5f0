//! Names that stand more than once in one object.
use refusal_texts::repeated_names;
use std::test::Fail;

#[test]
fn repeated_names_are_told_once(rt: HostRuntime) -> Result<(), Fail> {
    let alloc = rt.alloc();
    let document =
        "{\"days\":1,\n\"a\":[{\"b\":\"days\",\"c\":\"x\\\"days\"},{\"b\":2}],\n\"days\":2,\n\"days\":3,\"b\":{\"b\":1,\n\"b\":2}}";
    let mut text = String::new(alloc);
    for name in &repeated_names(alloc, document.as_bytes())? {
        let line = format!(in alloc; "{name}\n")?;
        text.push_str(line.as_str())?;
    }
    assert_eq!(rt;
        text.as_str(),
        "the name `days` stands twice in one object, at line 1 and at line 3: of a name that is repeated the last value counts\nthe name `b` stands twice in one object, at line 4 and at line 5: of a name that is repeated the last value counts\n"
    );
    Ok(())
}
