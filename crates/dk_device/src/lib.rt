//! The disk that the store stands on: two files, the calls that read and change them, and what a crash may leave.
//!
//! [`Disk`] says of each call what it does to the content and to each image that a crash now may leave, and that the
//! images of earlier moments stay what they were. Between two syncs of a file each written range and the part past an
//! old end may hold any bytes, and of a file that was cut any front is left that is no shorter than the new length;
//! after a sync a crash leaves what a read gives. [`write_synced`], [`cut_synced`] and [`replace_synced`] are changes,
//! each with its sync, with what a crash at each moment inside may leave.
//!
//! [`MemoryDisk`] keeps its calls and meets this in both directions, and gives images for tests. [`HostDisk`] stands
//! over two real files, of which it knows lengths and faults alone. Stands on std, the count of faults and `thiserror`.
#![tactic(auto)]

mod bytes;
mod calls;
mod change;
mod device;
mod faults;
mod file;
mod host;
mod host_file;
mod image;
mod memory;
mod synced;
#[cfg(test)]
mod tests;

pub use calls::{DiskCall, Request, Written};
pub use device::{Disk, DiskFault, FileId, LAST_MOMENT, MOST_BYTES};
pub use dk_fault::Failed;
pub use host::HostDisk;
pub use image::Choice;
pub use memory::MemoryDisk;
pub use synced::{cut_synced, replace_synced, write_synced};
