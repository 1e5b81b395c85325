use ac_base::Items;
use std::alloc::{AllocError, Global};

/// A type that holds itself through `Items`.
#[derive(Drop, PartialEq, Eq)]
enum Tree {
    Leaf(u8),
    Branch(Items<Tree>),
}

/// Adds 3 and 5 to an empty list.
fn push_two(list: &mut Items<u8>) -> Result<(), AllocError> {
    list.push(3)?;
    list.push(5)
}

/// Whether the list is 3 and 5.
fn is_two(list: &Items<u8>) -> bool {
    !list.is_empty()
        && list.len() == 2
        && matches!(list.get(1), Some(5))
        && list.get(2).is_none()
        && list.as_slice() == [3, 5].as_slice()
}

/// Whether the list is equal to that of the numbers; not where there is no memory for it.
fn is_list_of(alloc: Global, list: &Items<u8>, numbers: &[u8]) -> bool {
    match Items::from_slice(alloc, numbers) {
        Ok(other) => *list == other,
        Err(_) => false,
    }
}

/// Whether the list differs from that of the numbers; not where there is no memory for it.
fn is_other_than(alloc: Global, list: &Items<u8>, numbers: &[u8]) -> bool {
    match Items::from_slice(alloc, numbers) {
        Ok(other) => *list != other,
        Err(_) => false,
    }
}

/// Whether an empty list takes 3 and 5, and gives 5 again.
fn takes_two(alloc: Global, list: &mut Items<u8>) -> bool {
    list.is_empty()
        && push_two(list).is_ok()
        && is_two(list)
        && is_list_of(alloc, list, &[3, 5])
        && is_other_than(alloc, list, &[3, 6])
        && matches!(list.pop(), Some(5))
}

#[test]
fn each_call_once(rt: HostRuntime) {
    let mut list = Items::new(rt.alloc());
    assert!(rt; takes_two(rt.alloc(), &mut list) && list.into_vec().len() == 1);
}

/// A leaf alone, as a vector.
fn leaf_in_vector(alloc: Global) -> Result<Vec<Tree>, AllocError> {
    let mut trees = Vec::with_capacity(alloc, 8)?;
    trees.push(Tree::Leaf(1))?;
    Ok(trees)
}

/// A leaf alone, as a list.
fn leaf_in_items(alloc: Global) -> Result<Items<Tree>, AllocError> {
    let mut trees = Items::new(alloc);
    trees.push(Tree::Leaf(1))?;
    Ok(trees)
}

#[test]
fn trees_are_equal_where_their_lists_are(rt: HostRuntime) {
    let Ok(left) = leaf_in_vector(rt.alloc()) else {
        panic!(rt; "no memory");
    };
    let Ok(right) = leaf_in_items(rt.alloc()) else {
        panic!(rt; "no memory");
    };
    assert!(rt; Tree::Branch(Items::from(left)) == Tree::Branch(right));
}
