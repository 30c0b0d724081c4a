//! The bytes of the headers.
ghost use Rattle.std.specs.Prelude.{◌≡◌, ◌≤◌, ◌++◌, ◌-◌, ℕ, Ok, true, length, drop};
ghost use Rattle.std.specs.Int.{w32, w64, to_le_bytes};
ghost use Rattle.dk_header.specs.Layout.{with_checksum, main_bytes, body_bytes, main_read, body_read, iteration_fits};

use crate::header::{
    BODY_BYTES, BODY_FIELDS_END, DbHeader, HEADER_BYTES, MAGIC, MAIN_FIELDS_END, SUM_BYTES,
};
use dk_bytes::checksum;

/// The fields behind the main header's checksum.
fn main_fields(fields: &mut [u8], version: u64)
    requires { MAIN_FIELDS_END - SUM_BYTES ≤ length fields.old }
    ensures { fields.new ≡
        to_le_bytes w32 MAGIC ++ (to_le_bytes w64 version ++ drop 8 (drop 4 fields.old)) }
{
    let (magic, rest) = fields.split_at_mut(4);
    let (number, _) = rest.split_at_mut(8);
    magic.copy_from_slice(&MAGIC.to_le_bytes());
    number.copy_from_slice(&version.to_le_bytes());
}

fn frame_main(bytes: &mut [u8], version: u64)
    requires { MAIN_FIELDS_END ≤ length bytes.old }
    ensures { bytes.new ≡ with_checksum
        (to_le_bytes w32 MAGIC ++ (to_le_bytes w64 version ++ drop 8 (drop 4 (drop SUM_BYTES bytes.old)))) }
{
    let (sum, fields) = bytes.split_at_mut(SUM_BYTES);
    main_fields(fields, version);
    sum.copy_from_slice(&checksum(fields).to_le_bytes());
}

fn make_main(version: u64) -> [u8; HEADER_BYTES]
    ensures { result ≡ main_bytes version }
{
    let mut bytes = [0; HEADER_BYTES];
    frame_main(&mut bytes, version);
    bytes
}

/// The main header of a version.
pub fn main_header(version: u64) -> [u8; HEADER_BYTES]
    ensures layout { result ≡ main_bytes version }
    ensures again { main_read result ≡ Ok version }
{
    make_main(version)
}

/// The fields behind a database header's checksum.
fn body_fields(fields: &mut [u8], header: &DbHeader)
    requires { BODY_FIELDS_END - SUM_BYTES ≤ length fields.old }
    ensures { fields.new ≡ to_le_bytes w64 header.now.iteration ++
        (to_le_bytes w64 header.now.root ++
        (to_le_bytes w64 header.now.blocks ++ drop 8 (drop 8 (drop 8 fields.old)))) }
{
    let (iteration, rest) = fields.split_at_mut(8);
    let (root, rest) = rest.split_at_mut(8);
    let (blocks, _) = rest.split_at_mut(8);
    iteration.copy_from_slice(&header.iteration.to_le_bytes());
    root.copy_from_slice(&header.root.to_le_bytes());
    blocks.copy_from_slice(&header.blocks.to_le_bytes());
}

fn frame_body(bytes: &mut [u8], header: &DbHeader)
    requires { BODY_FIELDS_END ≤ length bytes.old }
    ensures { bytes.new ≡ with_checksum
        (to_le_bytes w64 header.now.iteration ++
        (to_le_bytes w64 header.now.root ++
        (to_le_bytes w64 header.now.blocks ++ drop 8 (drop 8 (drop 8 (drop SUM_BYTES bytes.old)))))) }
{
    let (sum, fields) = bytes.split_at_mut(SUM_BYTES);
    body_fields(fields, header);
    sum.copy_from_slice(&checksum(fields).to_le_bytes());
}

fn make_body(header: &DbHeader) -> [u8; BODY_BYTES]
    ensures { result ≡ body_bytes header.now }
{
    let mut bytes = [0; BODY_BYTES];
    frame_body(&mut bytes, header);
    bytes
}

/// The same of the fields one by one.
fn body_with(iteration: u64, root: u64, blocks: u64) -> [u8; BODY_BYTES]
    ensures layout { result ≡
        body_bytes record { iteration = iteration; root = root; blocks = blocks } }
    ensures again { iteration_fits iteration ≡ true → (twin : ℕ) →
        body_read twin result ≡ Ok record { iteration = iteration; root = root; blocks = blocks } }
{
    make_body(&DbHeader {
        iteration,
        root,
        blocks,
    })
}

/// A database header without its gate.
pub fn body_of(header: &DbHeader) -> [u8; BODY_BYTES]
    ensures layout { result ≡ body_bytes header.now }
    ensures again { iteration_fits header.now.iteration ≡ true → (twin : ℕ) →
        body_read twin result ≡ Ok header.now }
{
    body_with(header.iteration, header.root, header.blocks)
}
