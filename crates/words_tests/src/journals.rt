//! What no clause says: that a sentence for a journal comes where there is memory.
use refusal_texts::{difference, full_sentence, journal_sentence};
use search_book::OpenFault;
use std::test::Fail;

#[test]
fn tells_what_to_do(rt: HostRuntime) -> Result<(), Fail> {
    let sentence = journal_sentence(rt.alloc(), &OpenFault::Damaged { at: 7 })?;
    assert!(rt; sentence.starts_with("4 7: the journal is damaged at its byte 7"));
    let sentence = full_sentence(rt.alloc(), 70, 60)?;
    assert!(rt;
        sentence.starts_with("the journal is full: the next step would make it 70 bytes long")
    );
    assert!(rt; sentence.ends_with("a new one can begin with its best plan"));
    Ok(())
}

#[test]
fn tells_where_two_instances_differ(rt: HostRuntime) -> Result<(), Fail> {
    let cases = [
        (
            "{\"need\":[1,12],\"a\":1}",
            "{\"need\":[1,10],\"a\":1}",
            12,
            "the two differ first at need[1]: it is 12 in the document, and 10 in the journal's instance",
        ),
        (
            "{\"need\":[1,2]}",
            "{\"need\":[1,2,3]}",
            12,
            "the two differ first in the list at need[1], which has more entries in one of them",
        ),
        (
            "{\"need\":[1],\"need_max\":[2]}",
            "{\"need\":[1],\"slot_minutes\":5}",
            13,
            "the two differ first behind need: what comes next is \"need_max\" in the document, and \"slot_minutes\" in the journal's instance",
        ),
        (
            "{\"types\":[{\"breaks\":null,\"name\":\"M\"}]}",
            "{\"types\":[{\"breaks\":{\"lead\":1},\"name\":\"M\"}]}",
            20,
            "the two differ first at types[0].breaks: it is null in the document, and an object in the journal's instance",
        ),
        (
            "{\"types\":[{\"name\":\"a\\\"b,c\"}]}",
            "{\"types\":[{\"name\":\"a\\\"b,d\"}]}",
            24,
            "the two differ first at types[0].name: it is \"a\\\"b,c\" in the document, and \"a\\\"b,d\" in the journal's instance",
        ),
        (
            "{\"types\":[{\"name\":\"a\"}]}",
            "{\"types\":[{\"name\":\"a\"},{\"name\":\"b\"}]}",
            22,
            "the two differ first in the list at types[0], which has more entries in one of them",
        ),
    ];
    for (ours, theirs, at, wanted) in cases {
        let said = difference(rt.alloc(), ours.as_bytes(), theirs.as_bytes(), at)?;
        assert_eq!(rt; said.as_str(), wanted);
    }
    Ok(())
}
