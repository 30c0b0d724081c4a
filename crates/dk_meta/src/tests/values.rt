//! What the worked bytes of a tree and of a page stand for, and names that stand twice.
use super::{PAGE, TREE, tree_again};
use crate::{read_page, read_tree};
use dk_pages::{GroupPage, Tree};
use std::test::*;

/// The root and the rows of a group of a table.
fn group_of(tree: &Tree, table: usize, group: usize) -> Option<(u64, u32)> {
    let entry = tree.as_slice().get(table)?;
    let group = entry.groups.as_slice().get(group)?;
    Some((group.root, group.rows))
}

#[test]
fn a_tree_names_its_groups(rt: HostRuntime) -> Result<(), Fail> {
    let Ok(tree) = read_tree(rt.alloc(), &TREE) else {
        return Err(Fail::new("the tree is not read"));
    };
    assert_eq!(rt; tree.len(), 3);
    assert_eq!(rt; group_of(&tree, 0, 0), Some((7, 122_880)));
    assert_eq!(rt; group_of(&tree, 1, 0), None);
    assert_eq!(rt; group_of(&tree, 2, 0), Some((8, 1)));
    assert_eq!(rt; group_of(&tree, 2, 1), Some((9, 2_048)));
    Ok(())
}

/// The block, the offset, the bytes and the rows of a segment of the first vector of a column.
fn segment_of(page: &GroupPage, column: usize, place: usize) -> Option<(u64, u32, u32, u16)> {
    let vectors = page.columns.as_slice().get(column)?;
    let segments = vectors.as_slice().get(0)?;
    let segment = segments.as_slice().get(place)?;
    Some((segment.block, segment.offset, segment.bytes, segment.rows))
}

#[test]
fn a_page_names_its_segments(rt: HostRuntime) -> Result<(), Fail> {
    let Ok(page) = read_page(rt.alloc(), &PAGE, 2) else {
        return Err(Fail::new("the page is not read"));
    };
    assert_eq!(rt; page.rows, 3);
    assert_eq!(rt; page.deleted.as_slice(), [0u32, 2].as_slice());
    assert_eq!(rt; segment_of(&page, 0, 0), Some((5, 0, 9, 2)));
    assert_eq!(rt; segment_of(&page, 0, 1), Some((6, 9, 8, 1)));
    assert_eq!(rt; segment_of(&page, 1, 0), Some((5, 17, 262_119, 3)));
    assert_eq!(rt; segment_of(&page, 1, 1), None);
    Ok(())
}

#[test]
fn a_name_that_stands_earlier_is_charged_to_its_first_byte(rt: HostRuntime) -> Result<(), Fail> {
    let tables = [
        2, 0, 1, 97, 1, 0, 2, 1, 120, 0, 0, 0, 0, 0, 0, 0, 0, 1, 97, 1, 0, 2, 1, 120, 0, 0, 0, 0,
        0, 0, 0, 0,
    ];
    assert!(rt; tree_again(rt.alloc(), &tables)? == Err(17));
    let columns = [
        1, 0, 1, 97, 2, 0, 2, 1, 120, 1, 1, 120, 0, 0, 0, 0, 0, 0, 0, 0,
    ];
    assert!(rt; tree_again(rt.alloc(), &columns)? == Err(10));
    Ok(())
}
