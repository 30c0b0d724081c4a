//! The page of a row group, read from its chain.
ghost use Rattle.std.specs.Prelude.{◌≡◌, ◌≢◌, ◌≤◌, [], Err, IfOk, IfSome, length};
ghost use Rattle.std.specs.Int.{w32};
ghost use Rattle.dk_fault.specs.Causes.{HasCauseIf};
ghost use Rattle.dk_device.specs.declared.device.FileId.TheVariants.{Main};
ghost use Rattle.dk_device.specs.Changes.{Looks};
ghost use Rattle.dk_bytes.specs.Fields.{number_at};
ghost use Rattle.dk_bytes.specs.Reading.{Gives, start};
ghost use Rattle.dk_block_file.specs.declared.fault.BlockFault.TheVariants.{DiskFault};
ghost use Rattle.dk_block_file.specs.Blocks.{blocks_in};
ghost use Rattle.dk_strings.specs.Effects.{StaysUsed, Tells};
ghost use Rattle.dk_recover.specs.Readings.{meaning};
ghost use Rattle.dk_recover.specs.Pages.{begins_with, page_of, page_in, page_read};

use crate::blocks::claim_page;
use dk_block_file::{BlockBuf, StoreFault, blocks_in};
use dk_block_man::BlockMan;
use dk_bytes::Cursor;
use dk_device::{Disk, FileId};
use dk_meta::MetaError;
use dk_pages::{GroupPage, GroupRef, Placed};
use dk_strings::{StringRef, read_string};
use dk_types::{Damage, Part};
use std::alloc::Global;

/// Whether bytes begin with this number.
pub(crate) fn begins_with(bytes: &[u8], number: u32) -> bool
    ensures { result ≡ begins_with number bytes.now }
{
    let mut cursor = Cursor::new(bytes);
    match cursor.u32() {
        Ok(first) => first == number,
        Err(_) => false,
    }
}

/// The page that bytes stand for.
fn page_of(alloc: Global, bytes: &[u8], columns: u16) -> Result<GroupPage, StoreFault>
    ensures exact { Tells (λ page. page) (meaning Part.Page (page_of columns bytes.now)) result }
    ensures no_fault { result ≢ Err DiskFault }
{
    match dk_meta::read_page(alloc, bytes, columns) {
        Ok(page) => Ok(page),
        Err(MetaError::Malformed { at }) => Err(StoreFault::Damaged(Damage::Malformed {
            part: Part::Page,
            at,
        })),
        Err(MetaError::OutOfMemory) => Err(StoreFault::OutOfMemory),
    }
}

/// The page that bytes stand for, of a group of so many rows.
fn page_in(alloc: Global, bytes: &[u8], columns: u16, rows: u32) -> Result<GroupPage, StoreFault>
    ensures exact { Tells (λ page. page) (page_in columns rows bytes.now) result }
    ensures no_fault { result ≢ Err DiskFault }
{
    if begins_with(bytes, rows) {
        return page_of(alloc, bytes, columns);
    }
    Err(StoreFault::Damaged(Damage::Malformed {
        part: Part::Page,
        at: 0,
    }))
}

/// Reads the page of a group of a table with so many columns, and marks the blocks of its chain and its segments. After
/// a refusal some of them may be marked.
pub fn read_page<D: Disk>(
    alloc: Global,
    disk: &mut D,
    man: &mut BlockMan,
    buf: &mut BlockBuf,
    columns: u16,
    group: GroupRef,
) -> Result<Placed, StoreFault>
    requires { blocks_in (D.extent disk.old Main) ≤ man.old.blocks }
    ensures exact { IfSome (D.content disk.old Main) (λ main.
        Tells (λ placed. record { it = placed; used = man.new.used })
        (page_read columns group man.old.used main) result) }
    ensures stays { StaysUsed man.old.used man.new.used }
    ensures blocks { man.new.blocks ≡ man.old.blocks }
    ensures looks { Looks D.Disk disk.old disk.new }
    ensures cause { HasCauseIf (D.faults disk.old) (D.faults disk.new)
        (result ≡ Err DiskFault) }
{
    let string = StringRef {
        root: group.root,
        part: Part::Page,
    };
    let found = read_string(alloc, disk, man, buf, string)?;
    let page = page_in(alloc, found.bytes.as_slice(), columns, group.rows)?;
    let count = blocks_in(disk.len(FileId::Main));
    let own = claim_page(alloc, man, page.columns.as_slice(), count)?;
    let mut blocks = found.blocks;
    blocks.append(own)?;
    Ok(Placed {
        group,
        page,
        blocks,
    })
}
