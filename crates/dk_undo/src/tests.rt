//! Stacks that grow past a chunk, keep their entries in place, and end with and without entries.
ghost use Rattle.std.specs.Prelude.{◌≤◌};

use crate::UndoStack;
use std::rc::Rc;
use std::test::*;

/// Pushes the numbers below `count`.
fn push_numbers(stack: &mut UndoStack<u64>, count: u64)
    requires { count ≤ stack.old.spare }
{
    for number in 0..count {
        stack.push(number);
    }
}

#[test]
fn gives_entries_newest_first(rt: HostRuntime) -> Result<(), Fail> {
    let mut stack = UndoStack::new(rt.alloc());
    assert_eq!(rt; (stack.len(), stack.spare()), (0, 0));
    assert_eq!(rt; stack.pop(), None);
    stack.reserve(130)?;
    assert_eq!(rt; stack.spare(), 192);
    push_numbers(&mut stack, 130);
    assert_eq!(rt; (stack.len(), stack.spare()), (130, 62));
    for (i, entry) in [(0, 129), (1, 128), (2, 127), (65, 64), (66, 63), (129, 0)] {
        assert!(rt; i < stack.len());
        assert_eq!(rt; *stack.newest(i), entry);
    }
    for entry in (0..130).rev() {
        assert_eq!(rt; stack.pop(), Some(entry));
    }
    assert_eq!(rt; stack.pop(), None);
    assert_eq!(rt; (stack.len(), stack.spare()), (0, 192));
    Ok(())
}

#[test]
fn drops_each_entry_once(rt: HostRuntime) -> Result<(), Fail> {
    let counted = Rc::new(rt.alloc(), 0)?;
    let mut stack = UndoStack::new(rt.alloc());
    for _ in 0..66 {
        stack.reserve(1)?;
        stack.push(counted.clone()?);
    }
    assert_eq!(rt; Rc::strong_count(&counted), 67);
    drop(stack.pop());
    assert_eq!(rt; Rc::strong_count(&counted), 66);
    drop(stack);
    assert_eq!(rt; Rc::strong_count(&counted), 1);
    Ok(())
}

/// An entry that may not be let go.
struct Kept {
    number: u64,
}

#[test]
fn ends_without_dropping(rt: HostRuntime) {
    let mut stack = UndoStack::new(rt.alloc());
    if stack.reserve(1).is_ok() {
        stack.push(Kept { number: 7 });
    }
    while let Some(Kept { number }) = stack.pop() {
        assert_eq!(rt; number, 7);
    }
    stack.destroy_empty();
}

/// Where an allocation fails in `reserve`, the stack is as before.
#[test]
fn stays_where_memory_is_missing(rt: HostRuntime) -> Result<(), Fail> {
    let mut stack = UndoStack::new(rt.alloc());
    if stack.reserve(70).is_err() {
        assert_eq!(rt; (stack.len(), stack.spare()), (0, 0));
        return Ok(());
    }
    push_numbers(&mut stack, 70);
    let refused = stack.reserve(1000).is_err();
    assert_eq!(rt;
        (stack.len(), stack.spare()),
        (70, if refused { 58 } else { 1018 })
    );
    for entry in (0..70).rev() {
        assert_eq!(rt; stack.pop(), Some(entry));
    }
    Ok(())
}

fn sent<S: Send>(value: S) -> S {
    value
}

/// A stack may cross threads where its entries may.
fn cross<T: Send>(stack: UndoStack<T>) -> UndoStack<T> {
    sent(stack)
}

#[test]
fn crosses_threads(rt: HostRuntime) -> Result<(), Fail> {
    let mut stack = UndoStack::new(rt.alloc());
    stack.reserve(1)?;
    stack.push(5u64);
    assert_eq!(rt; cross(stack).pop(), Some(5));
    Ok(())
}
