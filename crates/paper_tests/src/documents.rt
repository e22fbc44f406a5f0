//! The text that an instance is written as.
use fixtures::MORNING;
use instance_json::{canonical, read, read_back};
use std::alloc::Global;
use std::test::Fail;

/// The text that the morning is written as.
const WRITTEN: &str =
    "{\"days\":1,\"max_heads\":1,\"need\":[0,0,0,0,0,0,0,0,1,1,1,1,0,0,0,0,0,0,0,0,0,0,0,0],\"slot_minutes\":60,\"types\":[{\"breaks\":{\"lead\":0,\"long_rest\":1,\"long_work\":288,\"lunches\":[],\"resettle\":0,\"size_max\":48,\"size_min\":1,\"tail\":0,\"totals\":[],\"work_max\":288,\"work_min\":1},\"len_max\":4,\"len_min\":4,\"name\":\"M\",\"start_max\":8,\"start_min\":8}],\"weights\":{\"excess\":1,\"shift\":3,\"shortage\":2}}";

/// The morning, in which one employee or two are wanted from 10 to 12.
const BANDED: &str =
    "{\"slot_minutes\":60,\"days\":1,\"need\":[0,0,0,0,0,0,0,0,1,1,1,1,0,0,0,0,0,0,0,0,0,0,0,0],\"need_max\":[0,0,0,0,0,0,0,0,1,1,2,2,0,0,0,0,0,0,0,0,0,0,0,0],\"max_heads\":1,\"weights\":{\"excess\":1,\"shortage\":2,\"shift\":3},\"types\":[{\"name\":\"M\",\"start_min\":8,\"start_max\":8,\"len_min\":4,\"len_max\":4,\"breaks\":null}]}";

const BANDED_WRITTEN: &str =
    "{\"days\":1,\"max_heads\":1,\"need\":[0,0,0,0,0,0,0,0,1,1,1,1,0,0,0,0,0,0,0,0,0,0,0,0],\"need_max\":[0,0,0,0,0,0,0,0,1,1,2,2,0,0,0,0,0,0,0,0,0,0,0,0],\"slot_minutes\":60,\"types\":[{\"breaks\":{\"lead\":0,\"long_rest\":1,\"long_work\":288,\"lunches\":[],\"resettle\":0,\"size_max\":48,\"size_min\":1,\"tail\":0,\"totals\":[],\"work_max\":288,\"work_min\":1},\"len_max\":4,\"len_min\":4,\"name\":\"M\",\"start_max\":8,\"start_min\":8}],\"weights\":{\"excess\":1,\"shift\":3,\"shortage\":2}}";

/// The text that a document is written as, once it was read, written and read again.
fn written(alloc: Global, document: &str) -> Result<Vec<u8>, Fail> {
    let again = read_back(alloc, &read(alloc, document.as_bytes())?)?;
    Ok(canonical(alloc, &again)?)
}

#[test]
fn writes_what_it_reads(rt: HostRuntime) -> Result<(), Fail> {
    let text = written(rt.alloc(), MORNING)?;
    assert_eq!(rt; text.len(), 372);
    assert!(rt; text.as_slice() == WRITTEN.as_bytes());
    Ok(())
}

#[test]
fn writes_bands(rt: HostRuntime) -> Result<(), Fail> {
    let text = written(rt.alloc(), BANDED)?;
    assert!(rt; text.as_slice() == BANDED_WRITTEN.as_bytes());
    Ok(())
}
