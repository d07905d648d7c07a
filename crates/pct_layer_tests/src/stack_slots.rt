//! What a block of stack slots hands out after which calls.

ghost use Rattle.std.specs.Prelude.{◌≡◌, ℕ, true};
ghost use Rattle.pct_stack.specs.Stacks.{is_taken};

use pct_stack::StackBlock;
use std::process::Abort;
use std::test::Fail;

// Takes the first free slot of a block whose slots have five words. All of them must be 0, and are then written.
fn take_one(rt: &impl Abort, block: &mut StackBlock) -> u32
    requires { block.old.width ≡ 5 }
    ensures width { block.new.width ≡ 5 }
    ensures taken { is_taken block.new result ≡ true }
    ensures others { (slot : ℕ) → is_taken block.old slot ≡ true → is_taken block.new slot ≡ true }
{
    let slot = block.take().expect(rt, "no slot is free");
    for i in 0..5 {
        assert_eq!(rt; block.word(slot, i), 0);
        block.set_word(slot, i, i + 1);
    }
    slot
}

#[test]
fn a_slot_that_is_given_is_the_next_to_be_taken(rt: HostRuntime) -> Result<(), Fail> {
    let mut block = StackBlock::new(rt.alloc(), 64, 5)?;
    for slot in 0..64 {
        let taken = take_one(&rt, &mut block);
        assert!(rt; taken == slot);
    }
    assert_eq!(rt; block.take(), None);
    // The even slots, and then the odd ones.
    for half in 0..32 {
        block.give(2 * half);
    }
    for half in 0..32 {
        block.give(2 * half + 1);
    }
    for half in 0..32 {
        assert_eq!(rt; take_one(&rt, &mut block), 63 - 2 * half);
    }
    for half in 0..32 {
        assert_eq!(rt; take_one(&rt, &mut block), 62 - 2 * half);
    }
    assert_eq!(rt; block.take(), None);
    Ok(())
}

// Compiles for a type only if its values may cross threads.
fn crosses_threads<T: Send + Sync>(_value: &T) {}

#[test]
fn a_block_may_cross_threads(rt: HostRuntime) -> Result<(), Fail> {
    let block = StackBlock::new(rt.alloc(), 1, 2)?;
    crosses_threads(&block);
    Ok(())
}
