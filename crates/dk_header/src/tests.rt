//! Which header is chosen, and where a damaged byte is found.
ghost use Rattle.std.specs.Prelude.{◌<◌, ◌≤◌};

use crate::header::{BODY_FIELDS_END, MAIN_FIELDS_END};
use crate::{
    BODY_BYTES, DbHeader, HEADER_BYTES, MainFault, SUM_BYTES, VERSION, body_of, choose, log_header,
    main_header, read_main, version_of,
};
use dk_bytes::checksum;
use dk_types::{Damage, Part};
use std::process::Abort;

const ZEROS: [u8; HEADER_BYTES] = [0; HEADER_BYTES];

fn open_header(iteration: u64, gate: u8) -> [u8; HEADER_BYTES] {
    let body = body_of(&DbHeader {
        iteration,
        root: 7,
        blocks: 9,
    });
    let mut bytes = [0; HEADER_BYTES];
    bytes[..BODY_BYTES].copy_from_slice(&body);
    bytes[BODY_BYTES] = gate;
    bytes
}

fn check(
    rt: &impl Abort,
    h0: &[u8; HEADER_BYTES],
    h1: &[u8; HEADER_BYTES],
    twin: Result<(u8, bool), Damage>,
) {
    let found = match choose(h0, h1) {
        Ok(current) => Ok((current.twin, current.other_open)),
        Err(damage) => Err(damage),
    };
    assert_eq!(rt; found, twin);
}

#[test]
fn the_open_twin_with_the_higher_iteration_is_chosen(rt: HostRuntime) {
    let one = open_header(1, 1);
    let two = open_header(2, 1);
    check(&rt, &ZEROS, &ZEROS, Err(Damage::NoGate));
    check(&rt, &one, &ZEROS, Ok((0, false)));
    check(&rt, &ZEROS, &two, Ok((1, false)));
    check(&rt, &one, &two, Ok((1, true)));
    check(&rt, &two, &one, Ok((0, true)));
    check(&rt, &two, &open_header(3, 0), Ok((0, false)));
    check(&rt, &two, &two, Err(Damage::SameIteration { iteration: 2 }));
    let none = Damage::Malformed {
        part: Part::Header,
        at: 0,
    };
    check(&rt, &one, &open_header(0, 1), Err(none));
}

/// Whether a bit of the body, changed, is found as a wrong checksum.
fn is_found(good: &[u8; HEADER_BYTES], place: usize, bit: u8) -> bool
    requires place { place < BODY_BYTES }
    requires bit { bit < 8 }
{
    let mut bytes = *good;
    bytes[place] ^= 1 << bit;
    match choose(&ZEROS, &bytes) {
        Err(Damage::HeaderSum { twin, .. }) => twin == 1,
        _ => false,
    }
}

#[test]
fn each_changed_bit_is_found(rt: HostRuntime) {
    let good = open_header(5, 1);
    for place in 0..BODY_BYTES {
        for bit in 0..8 {
            assert!(rt; is_found(&good, place, bit));
        }
    }
}

/// Whether a body with one byte more that isn't zero, and its checksum, is refused at the byte's place.
fn is_malformed(place: usize) -> bool
    requires fields { BODY_FIELDS_END ≤ place }
    requires body { place < BODY_BYTES }
{
    let mut bytes = open_header(5, 1);
    bytes[place] = 1;
    let sum = checksum(&bytes[SUM_BYTES..BODY_BYTES]).to_le_bytes();
    bytes[..SUM_BYTES].copy_from_slice(&sum);
    match choose(&ZEROS, &bytes) {
        Err(
            Damage::Malformed {
                part: Part::Header,
                at,
            },
        ) => at == (place - SUM_BYTES) as u64,
        _ => false,
    }
}

#[test]
fn each_byte_of_a_body_that_must_be_zero_is_found(rt: HostRuntime) {
    for place in BODY_FIELDS_END..BODY_BYTES {
        assert!(rt; is_malformed(place));
    }
}

/// The same of the main header.
fn is_malformed_main(place: usize) -> bool
    requires fields { MAIN_FIELDS_END ≤ place }
    requires header { place < HEADER_BYTES }
{
    let mut bytes = main_header(VERSION);
    bytes[place] = 1;
    let sum = checksum(&bytes[SUM_BYTES..]).to_le_bytes();
    bytes[..SUM_BYTES].copy_from_slice(&sum);
    read_main(&bytes) == Err(MainFault::Malformed { at: place as u64 })
}

#[test]
fn each_byte_of_the_main_header_that_must_be_zero_is_found(rt: HostRuntime) {
    for place in MAIN_FIELDS_END..HEADER_BYTES {
        assert!(rt; is_malformed_main(place));
    }
}

#[test]
fn the_main_header_is_read(rt: HostRuntime) {
    let mut bytes = main_header(VERSION);
    assert_eq!(rt; read_main(&bytes), Ok(VERSION));
    assert_eq!(rt;
        (bytes[8], bytes[11], bytes[12], bytes[13]),
        (b'D', b'K', 0xe9, 3)
    );
    bytes[100] = 1;
    assert_eq!(rt; read_main(&bytes), Err(MainFault::NotADatabase));
    assert_eq!(rt; version_of(&bytes), VERSION);
}

#[test]
fn the_header_of_the_log_has_its_fields_and_their_sum(rt: HostRuntime) {
    let bytes = log_header(3);
    let sum = checksum(b"DKLOG001\x03\0\0\0\0\0\0\0").to_le_bytes();
    assert_eq!(rt; &bytes[..8], b"DKLOG001".as_slice());
    assert_eq!(rt; &bytes[8..16], [3, 0, 0, 0, 0, 0, 0, 0].as_slice());
    assert_eq!(rt; &bytes[16..], sum.as_slice());
}
