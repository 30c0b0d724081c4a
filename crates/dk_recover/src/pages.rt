//! The pages of all groups of the tables of a tree.
ghost use Rattle.std.specs.Prelude.{◌≡◌, ◌≤◌, Err, IfSome, length};
ghost use Rattle.dk_fault.specs.Causes.{HasCauseIf};
ghost use Rattle.dk_device.specs.declared.device.FileId.TheVariants.{Main};
ghost use Rattle.dk_device.specs.Changes.{Looks};
ghost use Rattle.dk_block_file.specs.declared.fault.BlockFault.TheVariants.{DiskFault};
ghost use Rattle.dk_block_file.specs.Blocks.{blocks_in};
ghost use Rattle.dk_strings.specs.Effects.{StaysUsed, Tells};
ghost use Rattle.dk_recover.specs.Tree.{pages_read, table_read, tables_read};

use crate::page::read_page;
use dk_block_file::{BlockBuf, StoreFault};
use dk_block_man::BlockMan;
use dk_device::Disk;
use dk_pages::{GroupRef, PlacedGroups, TableEntry};
use dk_values::{Bytes, List, Schema, TryCopy};
use std::alloc::Global;

/// A table of a checkpoint, and the pages of its groups.
#[derive(Debug, Drop)]
pub struct TablePages {
    pub name: Bytes,
    pub schema: Schema,
    pub pages: PlacedGroups,
}

/// Reads the pages of groups of a table with so many columns, and marks their blocks.
fn read_pages<D: Disk>(
    alloc: Global,
    disk: &mut D,
    man: &mut BlockMan,
    buf: &mut BlockBuf,
    columns: u16,
    groups: &[GroupRef],
) -> Result<PlacedGroups, StoreFault>
    requires { blocks_in (D.extent disk.old Main) ≤ man.old.blocks }
    ensures exact { IfSome (D.content disk.old Main) (λ main.
        Tells (λ pages. record { it = pages; used = man.new.used })
        (pages_read columns groups.now man.old.used main) result) }
    ensures stays { StaysUsed man.old.used man.new.used }
    ensures blocks { man.new.blocks ≡ man.old.blocks }
    ensures looks { Looks D.Disk disk.old disk.new }
    ensures cause { HasCauseIf (D.faults disk.old) (D.faults disk.new)
        (result ≡ Err DiskFault) }
{
    let mut pages = List::new(alloc);
    let mut left = groups;
    'groups: while let [group, rest @ ..] = left {
        let placed = read_page(alloc, disk, man, buf, columns, *group)?;
        pages.push(placed)?;
        left = rest;
    }
    Ok(pages)
}

/// Reads the pages of a table's groups.
fn read_table<D: Disk>(
    alloc: Global,
    disk: &mut D,
    man: &mut BlockMan,
    buf: &mut BlockBuf,
    entry: &TableEntry,
) -> Result<TablePages, StoreFault>
    requires { blocks_in (D.extent disk.old Main) ≤ man.old.blocks }
    ensures exact { IfSome (D.content disk.old Main) (λ main.
        Tells (λ table. record { it = table; used = man.new.used })
        (table_read entry.now man.old.used main) result) }
    ensures stays { StaysUsed man.old.used man.new.used }
    ensures blocks { man.new.blocks ≡ man.old.blocks }
    ensures looks { Looks D.Disk disk.old disk.new }
    ensures cause { HasCauseIf (D.faults disk.old) (D.faults disk.new)
        (result ≡ Err DiskFault) }
{
    let columns = entry.schema.as_slice().len() as u16;
    let pages = read_pages(alloc, disk, man, buf, columns, entry.groups.as_slice())?;
    Ok(TablePages {
        name: entry.name.copy()?,
        schema: entry.schema.copy()?,
        pages,
    })
}

/// Reads the pages of all groups of these tables, and marks their blocks. Each block has one use. After a refusal some
/// of them may be marked.
pub fn read_tables<D: Disk>(
    alloc: Global,
    disk: &mut D,
    man: &mut BlockMan,
    buf: &mut BlockBuf,
    entries: &[TableEntry],
) -> Result<List<TablePages>, StoreFault>
    requires { blocks_in (D.extent disk.old Main) ≤ man.old.blocks }
    ensures exact { IfSome (D.content disk.old Main) (λ main.
        Tells (λ tables. record { it = tables; used = man.new.used })
        (tables_read entries.now man.old.used main) result) }
    ensures stays { StaysUsed man.old.used man.new.used }
    ensures blocks { man.new.blocks ≡ man.old.blocks }
    ensures looks { Looks D.Disk disk.old disk.new }
    ensures cause { HasCauseIf (D.faults disk.old) (D.faults disk.new)
        (result ≡ Err DiskFault) }
{
    let mut tables = List::new(alloc);
    let mut left = entries;
    'entries: while let [entry, rest @ ..] = left {
        let table = read_table(alloc, disk, man, buf, entry)?;
        tables.push(table)?;
        left = rest;
    }
    Ok(tables)
}
