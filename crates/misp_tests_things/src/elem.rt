//! Rows as their bytes, in the form that is written, and in the first, which is read.

use crate::values::assert_bytes;
use misp_elem::{DecodeFault, Row, decode, decode_on_wire, encode};
use misp_ids::{EventId, OrgId, Uid};
use std::alloc::{AllocError, Global};
use std::process::Abort;

const OWNER: OrgId = OrgId(Uid(0xa1a1_a1a1_a1a1_a1a1_a1a1_a1a1_a1a1_a1a1));

/// Rows that are kept, as `spelled` reads them, each with the number of its bytes: a tombstone, an
/// event, an attribute, one in an object whose part and moments are known, an object, a reference,
/// proposals to change and to delete, a verdict and a sighting.
const KEPT: [(&[u8], usize); 10] = [
    (b"\x02*\0*\0@\0\0\x07", 46),
    (
        b"\x02*\0*\0@\x03\0\0~\x08A report~\x0a2024-05-28\x02\x01~~~*~\x05alpha\
          ~\x02~\x09tlp:green\x33\x99\0\x01~\x07tlp:red\xcc\0\x33\0",
        144,
    ),
    (
        b"\x02*\0*\x02*@\x05\x01\x02~\x0asha1/other\x03\x01~\x04seen\0~\x07A value~\0~\0\0\0",
        108,
    ),
    (
        b"\x02*\0*\x03**@\x05\x01\x02~\x0asha1/other\x03\x01~\x04seen\0~\x07A value~\0~\x04sha1\
          \x01\0\x06\x0a\x24\x18\x25\xe1\x20\x01\x03\x84\x44\x0c\xcc\x73\x5f\xff",
        144,
    ),
    (
        b"\x02*\0*\x01*@\x05\x01\x01~\x04file~\x04file~~~~~\0\x18\0",
        96,
    ),
    (b"\x02*\x01**\x02**@\x05\x01\x03~\x05drops~\0\0", 108),
    (
        b"\x02*\x02*\x02*\x05alpha**@\x05\x01\x04\0~\x04beta~\x02AS\x03\x01~\0~\x03AS1",
        128,
    ),
    (
        b"\x02*\x02*\x02*\x05alpha**@\x05\x01\x04\x01~\x04beta~\0\0\0~\0~\0",
        123,
    ),
    (b"\x02*\x03*\x02*\x05alpha**\x04beta*@\x05\x01\x05\x01", 122),
    (
        b"\x02*\x04*\x02*\x05alpha**@\x05\x01\x06~\x04beta\x02@~\0",
        121,
    ),
];

/// Rows of the first form, each with the same row in the form that is written: of the rows above
/// the tombstone and the first attribute.
const ANEW: [(&[u8], &[u8]); 2] = [
    (b"\x01*\0*\0@\0\0\x07", b"\x02*\0*\0@\0\0\x07"),
    (
        b"\x01*\0*\x02*@\x05\x01\x02~\x0asha1/other\x03\x01~\x04seen\0~\x07A value~\0",
        b"\x02*\0*\x02*@\x05\x01\x02~\x0asha1/other\x03\x01~\x04seen\0~\x07A value~\0~\0\0\0",
    ),
];

/// The row of an event, as it stands on the wire in each form.
const ON_WIRE: [&[u8]; 2] = [
    b"\x01~~~~~\0\0*\0@\x03\x02\0~\x08A report~\x0a2024-05-28\x02\x01~~~*~\x05alpha~\0",
    b"\x02~~~~~\0\0*\0@\x03\x02\0~\x08A report~\x0a2024-05-28\x02\x01~~~*~\x05alpha~\0",
];

fn put(out: &mut Vec<u8>, times: u32, byte: u8) -> Result<(), AllocError> {
    for _ in 0..times {
        out.push(byte)?;
    }
    Ok(())
}

/// The bytes in which `*` stands for an identifier, sixteen times `a1`, then `a2` and so on, `@`
/// for the stamp 1700000000, and `~` for three zeros.
fn spelled(alloc: Global, short: &[u8]) -> Result<Vec<u8>, AllocError> {
    let mut out = Vec::new(alloc);
    let mut last = 0xa0_u8;
    for byte in short {
        match *byte {
            b'*' => {
                last = last.wrapping_add(1);
                put(&mut out, 16, last)?;
            }
            b'@' => out.extend_from_slice(&1_700_000_000_u64.to_be_bytes())?,
            b'~' => put(&mut out, 3, 0)?,
            other => out.push(other)?,
        }
    }
    Ok(out)
}

fn assert_written(rt: &impl Abort, alloc: Global, row: &Row, bytes: &[u8]) {
    let again = encode(alloc, row).expect(rt, "memory");
    assert_bytes(rt, again.as_slice(), bytes);
    drop(again);
}

// Asserts that a copy of this row is written as these bytes.
fn assert_copied(rt: &impl Abort, alloc: Global, row: &Row, bytes: &[u8]) {
    let copy = row.clone().expect(rt, "memory");
    assert_written(rt, alloc, &copy, bytes);
    drop(copy);
}

// Asserts that the first bytes are a row of this owner and stamp, which is written as the second.
fn assert_written_as(rt: &impl Abort, alloc: Global, bytes: &[u8], want: &[u8]) {
    let row = decode(alloc, bytes).ok().expect(rt, "a row");
    assert!(rt; row.owner == OWNER);
    assert!(rt; row.stamp.get() == 1_700_000_000);
    assert_copied(rt, alloc, &row, want);
    drop(row);
}

#[test]
fn rows_are_read_and_written(rt: HostRuntime) {
    for (short, length) in &KEPT {
        let bytes = spelled(rt.alloc(), short).expect(&rt, "memory");
        assert_eq!(rt; bytes.len(), *length);
        assert_written_as(&rt, rt.alloc(), bytes.as_slice(), bytes.as_slice());
        drop(bytes);
    }
}

#[test]
fn rows_of_the_first_form_are_written_in_the_second(rt: HostRuntime) {
    for (old, new) in &ANEW {
        let old = spelled(rt.alloc(), old).expect(&rt, "memory");
        let new = spelled(rt.alloc(), new).expect(&rt, "memory");
        assert_written_as(&rt, rt.alloc(), old.as_slice(), new.as_slice());
        drop(old);
        drop(new);
    }
}

// Why these bytes are no row of the event on the wire, where they are none.
fn fault_on_wire(rt: &impl Abort, alloc: Global, short: &[u8]) -> Option<DecodeFault> {
    let bytes = spelled(alloc, short).expect(rt, "memory");
    match decode_on_wire(alloc, bytes.as_slice(), EventId(OWNER.0), None) {
        Ok(row) => {
            drop(row);
            None
        }
        Err(fault) => Some(fault),
    }
}

#[test]
fn on_the_wire_the_first_form_is_none(rt: HostRuntime) {
    let [first, second] = ON_WIRE;
    let fault = Some(DecodeFault::BadRow { place: 0 });
    assert!(rt; fault_on_wire(&rt, rt.alloc(), first) == fault);
    assert!(rt; fault_on_wire(&rt, rt.alloc(), second) == None);
}
