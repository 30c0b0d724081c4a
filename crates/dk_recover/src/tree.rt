//! The tree of tables, read from its chain.
ghost use Rattle.std.specs.Prelude.{◌≡◌, ◌≢◌, ◌≤◌, Ok, Err, IfOk, IfSome};
ghost use Rattle.dk_fault.specs.Causes.{HasCauseIf};
ghost use Rattle.dk_device.specs.declared.device.FileId.TheVariants.{Main};
ghost use Rattle.dk_device.specs.Changes.{Looks};
ghost use Rattle.dk_block_file.specs.declared.fault.BlockFault.TheVariants.{DiskFault};
ghost use Rattle.dk_block_file.specs.Blocks.{blocks_in};
ghost use Rattle.dk_meta.specs.Strings.{IsString};
ghost use Rattle.dk_meta.specs.Tree.{IsTree, tree_bytes};
ghost use Rattle.dk_strings.specs.Chains.{with_blocks};
ghost use Rattle.dk_strings.specs.Effects.{StaysUsed, Tells};
ghost use Rattle.dk_recover.specs.declared.tree.FoundTree.{FoundTree as Answer};
ghost use Rattle.dk_recover.specs.Tree.{tables_in, stored_tree, tree_read, IsStoredTree, IsTreeAt};

use dk_block_file::{BlockBuf, StoreFault};
use dk_block_man::BlockMan;
use dk_device::Disk;
use dk_header::NO_ROOT;
use dk_meta::MetaError;
use dk_pages::Tree;
use dk_strings::{StringRef, read_string};
use dk_types::{Damage, Part};
use dk_values::{Ids, List};
use std::alloc::Global;

/// The tables of a checkpoint, and the blocks of the chain that they stand in.
#[derive(Debug, Drop)]
pub struct FoundTree {
    pub tables: Tree,
    pub blocks: Ids,
}

/// The tables that bytes spell.
fn tables_in(alloc: Global, bytes: &[u8]) -> Result<Tree, StoreFault>
    ensures exact { Tells (λ tables. tables) (tables_in bytes.now) result }
    ensures found { IfOk result (λ tables. IsString IsTree tree_bytes tables bytes.now) }
    ensures no_fault { result ≢ Err DiskFault }
{
    match dk_meta::read_tree(alloc, bytes) {
        Ok(tables) => Ok(tables),
        Err(MetaError::Malformed { at }) => Err(StoreFault::Damaged(Damage::Malformed {
            part: Part::Tree,
            at,
        })),
        Err(MetaError::OutOfMemory) => Err(StoreFault::OutOfMemory),
    }
}

/// Reads the tree in the chain at a root, and marks the chain's blocks.
fn read_stored<D: Disk>(
    alloc: Global,
    disk: &mut D,
    man: &mut BlockMan,
    buf: &mut BlockBuf,
    root: u64,
) -> Result<FoundTree, StoreFault>
    requires { blocks_in (D.extent disk.old Main) ≤ man.old.blocks }
    ensures exact { IfSome (D.content disk.old Main)
        (λ main. Tells (λ tree. tree) (stored_tree root man.old.used main) result) }
    ensures found { IfSome (D.content disk.old Main)
        (λ main. IfOk result (λ tree. IsStoredTree main man.old.used root tree)) }
    ensures marked { IfOk result (λ tree. man.new.used ≡ with_blocks tree.blocks man.old.used) }
    ensures stays { StaysUsed man.old.used man.new.used }
    ensures blocks { man.new.blocks ≡ man.old.blocks }
    ensures looks { Looks D.Disk disk.old disk.new }
    ensures cause { HasCauseIf (D.faults disk.old) (D.faults disk.new)
        (result ≡ Err DiskFault) }
{
    let string = StringRef {
        root,
        part: Part::Tree,
    };
    let found = read_string(alloc, disk, man, buf, string)?;
    let tables = tables_in(alloc, found.bytes.as_slice())?;
    Ok(FoundTree {
        tables,
        blocks: found.blocks,
    })
}

#[tactic(auto, using(crate::proofs::TreeLemmas::tree_found, crate::proofs::TreeLemmas::no_tree_found))]
/// Reads the tree at the root that a database header names, and marks the blocks of its chain. After a refusal some of
/// them may be marked.
pub fn read_tree<D: Disk>(
    alloc: Global,
    disk: &mut D,
    man: &mut BlockMan,
    buf: &mut BlockBuf,
    root: u64,
) -> Result<FoundTree, StoreFault>
    requires { blocks_in (D.extent disk.old Main) ≤ man.old.blocks }
    ensures found { IfSome (D.content disk.old Main)
        (λ main. IfOk result (λ tree. IsTreeAt main man.old.used root tree)) }
    ensures only { IfSome (D.content disk.old Main) (λ main. (tree : Answer) →
        IsTreeAt main man.old.used root tree → Tells (λ t. t) (Ok tree) result) }
    ensures exact { IfSome (D.content disk.old Main)
        (λ main. Tells (λ tree. tree) (tree_read root man.old.used main) result) }
    ensures marked { IfOk result (λ tree. man.new.used ≡ with_blocks tree.blocks man.old.used) }
    ensures stays { StaysUsed man.old.used man.new.used }
    ensures blocks { man.new.blocks ≡ man.old.blocks }
    ensures looks { Looks D.Disk disk.old disk.new }
    ensures cause { HasCauseIf (D.faults disk.old) (D.faults disk.new)
        (result ≡ Err DiskFault) }
{
    if root == NO_ROOT {
        return Ok(FoundTree {
            tables: List::new(alloc),
            blocks: List::new(alloc),
        });
    }
    read_stored(alloc, disk, man, buf, root)
}
