// Each function on a worked case.

use crate::{Stack, Table};
use std::alloc::{AllocError, Global};

fn numbers(alloc: Global, three: [u32; 3]) -> Result<Vec<u32>, AllocError> {
    Vec::from_slice(alloc, &three)
}

fn stack_of(alloc: Global) -> Result<Stack<u32>, AllocError> {
    let mut stack = Stack::new(alloc);
    stack.push(4)?;
    stack.push(5)?;
    stack.push(6)?;
    Ok(stack)
}

fn table_of(alloc: Global) -> Result<Table<u32>, AllocError> {
    let mut table = Table::new(alloc);
    table.push(4)?;
    table.push(5)?;
    Ok(table)
}

#[test]
fn a_stack_gives_its_newest_first(rt: HostRuntime) {
    match stack_of(rt.alloc()) {
        Ok(mut stack) => {
            assert!(rt; stack.len() == 3);
            assert!(rt; !stack.is_empty());
            assert!(rt; stack.peek() == Some(&6));
            assert!(rt; stack.get(2) == Some(&4));
            assert!(rt; stack.get(3) == None);
            assert!(rt; stack.oldest_first() == [4, 5, 6].as_slice());
            assert!(rt; stack.pop() == Some(6));
            assert!(rt; stack.peek() == Some(&5));
        }
        Err(_) => assert!(rt; false),
    }
}

#[test]
fn a_stack_is_made_of_a_list(rt: HostRuntime) {
    match numbers(rt.alloc(), [7, 8, 9]) {
        Ok(items) => {
            let mut stack = Stack::from_newest(items);
            assert!(rt; stack.pop() == Some(7));
            assert!(rt; stack.oldest_first() == [9, 8].as_slice());
        }
        Err(_) => assert!(rt; false),
    }
}

#[test]
fn a_table_keeps_places(rt: HostRuntime) {
    match table_of(rt.alloc()) {
        Ok(mut table) => {
            table.set(0, 7);
            table.set(9, 8);
            assert!(rt; table.exchange(1, 2) == 5);
            assert!(rt; table.exchange(2, 3) == 3);
            assert!(rt; table.items() == [7, 2].as_slice());
            assert!(rt; table.get(1) == Some(&2));
            assert!(rt; table.len() == 2);
        }
        Err(_) => assert!(rt; false),
    }
}
