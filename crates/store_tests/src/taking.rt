//! Open nodes that are taken one after another.
use open_nodes::OpenNodes;
use std::alloc::Global;
use std::process::Abort;
use std::test::Fail;

/// Four nodes, added neither by floor nor by number.
fn four_nodes(alloc: Global) -> Result<OpenNodes, Fail> {
    let mut nodes = OpenNodes::new(alloc);
    nodes.reserve(4)?;
    nodes.add(7, 2);
    nodes.add(9, 3);
    nodes.add(5, 4);
    nodes.add(7, 1);
    Ok(nodes)
}

// Of the nodes with the floors 7, 9, 5 and 7 the one of floor 9 goes out first, and the others come by floor and then by number.
#[test]
fn open_nodes_come_by_floor_and_then_by_number(rt: HostRuntime) -> Result<(), Fail> {
    let mut nodes = four_nodes(rt.alloc())?;
    nodes.drop_from(9);
    assert!(rt; nodes.first() == Some((5, 4)));
    assert!(rt; nodes.take_first() == Some((5, 4)));
    assert!(rt; nodes.take_first() == Some((7, 1)));
    assert!(rt; nodes.take_first() == Some((7, 2)));
    assert!(rt; nodes.take_first().is_none());
    assert!(rt; nodes.first().is_none());
    Ok(())
}
