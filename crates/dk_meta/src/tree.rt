//! The tree of tables.
ghost use Rattle.std.specs.Prelude.{◌≡◌, ◌==◌, ◌<◌, ◌≤◌, ◌^◌, ◌++◌, [], List, Ok, IfOk, OnOk, length};
ghost use Rattle.std.specs.List.{flat_map, AllByRecursion};
ghost use Rattle.std.specs.Int.{w16};
ghost use Rattle.dk_pages.specs.declared.tree.TableEntry.{TableEntry};
ghost use Rattle.dk_bytes.specs.Reading.{Gives, Reads, list_at, start, whole};
ghost use Rattle.dk_meta.specs.Strings.{IsString, always, checked_at};
ghost use Rattle.dk_meta.specs.Tree.{HasName, IsTree, entry_at, entry_bytes, group_at, group_ref_bytes, groups_at, groups_bytes, is_table_count, is_taken, new_name_at, tree_at, tree_bytes};

use crate::limits::MAX_TABLES;
use crate::room::with_room;
use dk_bytes::{
    Cursor, FieldError, columns_len, put_columns, put_name, put_u16, put_u32, put_u64,
    read_columns, read_name,
};
use dk_pages::{GroupRef, GroupRefs, TableEntry, Tree};
use dk_values::{Bytes, List, OutOfMemory};
use std::alloc::Global;

/// How many bytes it takes to say where a group stands.
const GROUP_REF_BYTES: usize = 12;

/// How many bytes the least table takes: a name and a column's name of one byte, and no group.
const LEAST_ENTRY_BYTES: usize = 15;

/// How many bytes stand beside a table's name, columns and groups: the length of the name and the number of groups.
const COUNTS_BYTES: usize = 9;

#[tactic(auto, unfolding(crate::specs::Tree::group_at))]
fn read_group(cursor: &mut Cursor) -> Result<GroupRef, FieldError>
    ensures { Reads (λ group. group) result cursor.new (group_at cursor.old) }
{
    let root = cursor.u64()?;
    let rows = cursor.u32()?;
    Ok(GroupRef { root, rows })
}

/// So many groups.
fn read_each_group(
    alloc: Global,
    cursor: &mut Cursor,
    count: u64,
) -> Result<Vec<GroupRef>, FieldError>
    ensures { Reads (λ groups. groups.items) result cursor.new
        (list_at (always group_at) count [] cursor.old) }
{
    let mut groups = with_room(alloc, count, cursor.left(), GROUP_REF_BYTES)?;
    'groups: for _ in 0..count {
        let group = read_group(cursor)?;
        groups.push(group)?;
    }
    Ok(groups)
}

/// The groups of a table.
#[tactic(auto, unfolding(crate::specs::Tree::groups_at))]
fn read_groups(alloc: Global, cursor: &mut Cursor) -> Result<GroupRefs, FieldError>
    ensures { Reads (λ groups. groups) result cursor.new (groups_at cursor.old) }
{
    let count = cursor.u64()?;
    let groups = read_each_group(alloc, cursor, count)?;
    Ok(List::from_vec(groups))
}

/// Whether a table of that name stands among these.
fn is_taken(earlier: &[TableEntry], name: &[u8]) -> bool
    ensures { result ≡ is_taken earlier.now name.now }
{
    earlier.iter().any(|entry| entry.name.as_slice() == name)
}

/// The name of the table that stands behind these.
#[tactic(auto, unfolding(crate::specs::Tree::new_name_at))]
fn read_new_name(
    alloc: Global,
    cursor: &mut Cursor,
    earlier: &[TableEntry],
) -> Result<Bytes, FieldError>
    ensures { Reads (λ name. name) result cursor.new (new_name_at earlier.now cursor.old) }
{
    let at = cursor.at();
    let name = read_name(alloc, cursor)?;
    if is_taken(earlier, name.as_slice()) {
        return Err(FieldError::Malformed { at });
    }
    Ok(name)
}

/// The table that stands behind these.
#[tactic(auto, unfolding(crate::specs::Tree::entry_at))]
fn read_entry(
    alloc: Global,
    cursor: &mut Cursor,
    earlier: &[TableEntry],
) -> Result<TableEntry, FieldError>
    ensures { Reads (λ entry. entry) result cursor.new (entry_at earlier.now cursor.old) }
{
    let name = read_new_name(alloc, cursor, earlier)?;
    let schema = read_columns(alloc, cursor)?;
    let groups = read_groups(alloc, cursor)?;
    Ok(TableEntry {
        name,
        schema,
        groups,
    })
}

/// So many tables.
fn read_entries(
    alloc: Global,
    cursor: &mut Cursor,
    count: usize,
) -> Result<Vec<TableEntry>, FieldError>
    ensures { Reads (λ entries. entries.items) result cursor.new (list_at entry_at count [] cursor.old) }
{
    let mut entries = with_room(alloc, count as u64, cursor.left(), LEAST_ENTRY_BYTES)?;
    'entries: for _ in 0..count {
        let entry = read_entry(alloc, cursor, entries.as_slice())?;
        entries.push(entry)?;
    }
    Ok(entries)
}

/// The tree that stands next.
#[tactic(auto, unfolding(crate::specs::Tree::tree_at))]
fn next_tree(alloc: Global, cursor: &mut Cursor) -> Result<Tree, FieldError>
    ensures { Reads (λ tree. tree) result cursor.new (tree_at cursor.old) }
{
    let at = cursor.at();
    let count = cursor.u16()? as usize;
    if count > MAX_TABLES {
        return Err(FieldError::Malformed { at });
    }
    let entries = read_entries(alloc, cursor, count)?;
    Ok(List::from_vec(entries))
}

fn whole_tree(alloc: Global, bytes: &[u8]) -> Result<Tree, FieldError>
    ensures { Gives (λ tree. tree) result (whole (tree_at (start bytes.now))) }
{
    let mut cursor = Cursor::new(bytes);
    let tree = next_tree(alloc, &mut cursor)?;
    cursor.finish()?;
    Ok(tree)
}

/// The tree that a byte string stands for.
pub fn read_tree(alloc: Global, bytes: &[u8]) -> Result<Tree, FieldError>
    ensures found { IfOk result (λ tree. IsString IsTree tree_bytes tree bytes.now) }
    ensures only { (tree : List TableEntry) → IsString IsTree tree_bytes tree bytes.now
        → Gives (λ t. t) result (Ok tree) }
    ensures place { Gives (λ tree. tree) result (whole (tree_at (start bytes.now))) }
{
    whole_tree(alloc, bytes)
}

/// Appends where groups stand.
fn put_each_group(out: &mut Vec<u8>, groups: &[GroupRef]) -> Result<(), OutOfMemory>
    ensures { OnOk result (out.new.items ≡ out.old.items ++ flat_map group_ref_bytes groups.now) }
{
    let mut left = groups;
    'groups: while let [group, rest @ ..] = left {
        put_group(out, group)?;
        left = rest;
    }
    Ok(())
}

/// Appends where a group stands.
fn put_group(out: &mut Vec<u8>, group: &GroupRef) -> Result<(), OutOfMemory>
    ensures { OnOk result (out.new.items ≡ out.old.items ++ group_ref_bytes group.now) }
{
    put_u64(out, group.root)?;
    put_u32(out, group.rows)
}

/// Appends the groups of a table.
fn put_groups(out: &mut Vec<u8>, groups: &[GroupRef]) -> Result<(), OutOfMemory>
    ensures { OnOk result (out.new.items ≡ out.old.items ++ groups_bytes groups.now) }
{
    put_u64(out, groups.len() as u64)?;
    put_each_group(out, groups)
}

/// Appends a table.
fn put_entry(out: &mut Vec<u8>, entry: &TableEntry) -> Result<(), OutOfMemory>
    requires { HasName entry.now }
    ensures { OnOk result (out.new.items ≡ out.old.items ++ entry_bytes entry.now) }
{
    put_name(out, entry.name.as_slice())?;
    put_columns(out, &entry.schema)?;
    put_groups(out, entry.groups.as_slice())
}

/// Appends tables.
fn put_entries(out: &mut Vec<u8>, entries: &[TableEntry]) -> Result<(), OutOfMemory>
    requires { AllByRecursion HasName entries.now }
    ensures { OnOk result (out.new.items ≡ out.old.items ++ flat_map entry_bytes entries.now) }
{
    let mut left = entries;
    'entries: while let [entry, rest @ ..] = left {
        put_entry(out, entry)?;
        left = rest;
    }
    Ok(())
}

/// Appends a tree.
fn put_tree(out: &mut Vec<u8>, tree: &Tree) -> Result<(), OutOfMemory>
    requires few { length tree.now ≤ MAX_TABLES }
    requires names { AllByRecursion HasName tree.now }
    ensures { OnOk result (out.new.items ≡ out.old.items ++ tree_bytes tree.now) }
{
    put_u16(out, tree.len() as u16)?;
    put_entries(out, tree.as_slice())
}

/// How many bytes a tree takes, for which room is taken.
fn tree_room(entries: &[TableEntry]) -> usize {
    let mut room = 2usize;
    for entry in entries {
        let groups = entry.groups.len().saturating_mul(GROUP_REF_BYTES);
        let fields = entry.name.len().saturating_add(columns_len(&entry.schema));
        room = room
            .saturating_add(groups)
            .saturating_add(fields)
            .saturating_add(COUNTS_BYTES);
    }
    room
}

/// The bytes of a tree. Room is taken once.
pub fn write_tree(alloc: Global, tree: &Tree) -> Result<Vec<u8>, OutOfMemory>
    requires { IsTree tree.now }
    ensures { IfOk result (λ v. IsString IsTree tree_bytes tree.now v.items) }
{
    let mut out = Vec::with_capacity(alloc, tree_room(tree.as_slice()))?;
    put_tree(&mut out, tree)?;
    Ok(out)
}
