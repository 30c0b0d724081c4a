//! The flip of the header that names the tree.
ghost use Rattle.std.specs.Prelude.{◌≤◌};
ghost use Rattle.dk_device.specs.declared.device.FileId.TheVariants.{Main};
ghost use Rattle.dk_device.specs.Changes.{images_of};
ghost use Rattle.dk_fault.specs.Causes.{HasCause};
ghost use Rattle.dk_block_file.specs.Current.{HasHeaders};
ghost use Rattle.dk_block_file.specs.Flips.{MayClose};
ghost use Rattle.dk_checkpoint.specs.Flip.{Flips};

use dk_block_file::{flip_body, flip_close, flip_open};
use dk_device::Disk;
use dk_header::DbHeader;
use thiserror::Error;

/// A call of the disk failed while a header was flipped: whether the twin's gate was closed before, and whether its
/// opening was begun.
#[derive(Clone, Copy, Debug, PartialEq, Eq, Drop, Error)]
#[error("disk fault")]
pub struct FlipFault {
    pub closed: bool,
    pub opened: bool,
}

/// Makes a header that of a twin and, by its gate, the current one: the gate is closed, the body written, and the gate
/// opened, each synced before the next. The twin is not the current one. `was_open` is false where its gate is closed in
/// all that a crash may leave.
pub fn flip<D: Disk>(
    disk: &mut D,
    twin: u8,
    was_open: bool,
    header: &DbHeader,
) -> Result<(), FlipFault>
    requires twin { twin ≤ 1 }
    requires headers { HasHeaders D.Disk disk.old }
    requires lower { MayClose was_open twin (images_of D.Disk disk.old Main) }
    ensures flips { Flips D.Disk twin was_open header.now disk.old disk.new result }
    ensures cause { HasCause (D.faults disk.old) (D.faults disk.new) result }
{
    flip_to(
        disk,
        twin,
        was_open,
        header.iteration,
        header.root,
        header.blocks,
    )
}

/// Does it, with the header of this iteration, root and number of blocks.
fn flip_to<D: Disk>(
    disk: &mut D,
    twin: u8,
    was_open: bool,
    iteration: u64,
    root: u64,
    blocks: u64,
) -> Result<(), FlipFault>
    requires twin { twin ≤ 1 }
    requires headers { HasHeaders D.Disk disk.old }
    requires lower { MayClose was_open twin (images_of D.Disk disk.old Main) }
    ensures flips { Flips D.Disk twin was_open
        (record { iteration = iteration; root = root; blocks = blocks }) disk.old disk.new result }
    ensures cause { HasCause (D.faults disk.old) (D.faults disk.new) result }
{
    let header = DbHeader {
        iteration,
        root,
        blocks,
    };
    match flip_close(disk, twin, was_open) {
        Err(_) => Err(FlipFault {
            closed: false,
            opened: false,
        }),
        Ok(()) => match flip_body(disk, twin, &header) {
            Err(_) => Err(FlipFault {
                closed: true,
                opened: false,
            }),
            Ok(()) => match flip_open(disk, twin) {
                Err(_) => Err(FlipFault {
                    closed: true,
                    opened: true,
                }),
                Ok(()) => Ok(()),
            },
        },
    }
}
