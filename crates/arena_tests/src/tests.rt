// What is placed is read again.

use crate::placing::{assigned_in_main, last_placed};
use std::test::Fail;

#[test]
fn placed_nodes_are_read_again(rt: HostRuntime) -> Result<(), Fail> {
    let Ok(last) = last_placed(rt.alloc(), &[7, -8, 2147483647]) else {
        panic!(rt; "out of memory");
    };
    assert_eq!(rt; last, 2147483647);
    Ok(())
}

#[test]
fn trees_are_read_while_their_arena_lives(rt: HostRuntime) -> Result<(), Fail> {
    let Ok(found) = assigned_in_main(rt.alloc(), -5) else {
        panic!(rt; "out of memory");
    };
    assert_eq!(rt; found, -5);
    Ok(())
}
