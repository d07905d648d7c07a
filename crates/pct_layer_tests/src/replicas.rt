//! What a child process takes over of its parent's tables, and the words of a frame. A run shows them only by what the child does
//! later.

use pct_keys::Keys;
use pct_threads::Threads;
use std::alloc::AllocError;
use std::test::Fail;

// Of two slots, thread 2 is on slot 1. Its frame has the function 9, the program counter 0, the kind 0 and the argument 4.
#[test]
fn a_child_has_the_calling_thread_alone(rt: HostRuntime) -> Result<(), Fail> {
    let mut parent = Threads::new(rt.alloc(), 2)?;
    parent.create(0, 7, 0, false);
    parent.create(1, 9, 4, true);
    let mut child = Threads::new(rt.alloc(), 2)?;
    child.clone_one_from(&parent, 1);
    assert!(rt; child.find(1).is_none() && child.find(2) == Some(1));
    child.set_frame_word(1, 0, 1, 40);
    assert!(rt; child.frame_word(1, 0, 0) == 9 && child.frame_word(1, 0, 1) == 40);
    assert!(rt; child.frame_word(1, 0, 3) == 4);
    Ok(())
}

// The parent has key 6, and its value on slot 0 and on slot 1.
#[test]
fn a_child_has_the_values_of_the_calling_thread_alone(rt: HostRuntime) -> Result<(), Fail> {
    let mut parent = Keys::new(rt.alloc(), 2).map_err(|_| AllocError)?;
    let _key = parent.create(5, Some(7));
    parent.set(0, 5, 11);
    parent.set(1, 5, 12);
    let mut child = Keys::new(rt.alloc(), 2).map_err(|_| AllocError)?;
    child.copy_from(&parent, 1);
    assert!(rt; child.get(0, 5) == 0 && child.get(1, 5) == 12);
    Ok(())
}
