//! The blocks of the main file with their checksum, its creation, and the three calls that flip a twin's header.
//!
//! A block reads as it was written, or the two checksums that differ are named. Each call that writes leaves the bytes
//! outside its range as they were in every image that a crash may leave, and after Ok of `create` or a flip every image
//! is the content. A gate is opened only where the body is the same in every image. Each call says which calls of the
//! disk it makes, also where one of them fails. Stands on the disk and the headers.
#![tactic(auto)]

mod block;
mod block_buf;
mod empty;
mod fault;
mod flip;
mod layout;
#[cfg(test)]
mod tests;

pub use block::{read_block, write_block};
pub use block_buf::BlockBuf;
pub use empty::create;
pub use fault::{BlockFault, StoreFault};
pub use flip::{flip_body, flip_close, flip_open};
pub use layout::{BLOCK_BYTES, HEADERS_BYTES, PAYLOAD_BYTES, blocks_in};
