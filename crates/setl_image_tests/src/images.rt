//! Images are decoded, and encoded again as the same bytes; other bytes are refused.

use setl_image::{ImageFault, decode, encode};
use std::alloc::{AllocError, AllocFailed, Global};

// Memory ran out.
#[derive(Debug, Drop)]
struct Fail {}

impl From<AllocError> for Fail {
    fn from(_e: AllocError) -> Fail {
        Fail {}
    }
}

impl<T: Drop> From<AllocFailed<T>> for Fail {
    fn from(_e: AllocFailed<T>) -> Fail {
        Fail {}
    }
}

// `program p; end p;`
const SMALLEST: &[u8] = &[
    0x53, 0x45, 0x54, 0x4C, 0x49, 0x4D, 0x47, 0x31, 0x00, 0x00, 0x00, 0x01, 0x01, 0x70, 0x00, 0x00,
    0x00, 0x00, 0x01, 0x01, 0x6F,
];

// A variable, a base, two declared variables, a body with a variable of its own and one of its third former, and a
// procedure with a parameter.
const LARGER: &[u8] = &[
    0x53, 0x45, 0x54, 0x4C, 0x49, 0x4D, 0x47, 0x31, // SETLIMG1
    0x01, 0x01, 0x61, // var a
    0x01, 0x01, 0x62, 0x01, // base b: int
    0x02, 0x01, 0x63, 0x05, 0x00, // c: elmt b
    0x01, 0x64, 0x06, 0x02, 0x08, 0x00, 0x00, 0x02, // d: remote set(smap(general) string)
    0x02, 0x01, 0x70, 0x00, 0x00, 0x00, // two bodies; p
    0x02, 0x01, 0x78, 0x03, 0x79, 0x2E, 0x33, // x, y.3
    0x05, 0x01, 0x40, 0x05, // int 5
    0x01, 0x49, 0x00, // store a
    0x02, 0x47, 0x03, // load y.3
    0x02, 0x6D, 0x01, // print 1
    0xAC, 0x02, 0x6F, // stop, in line 300
    0x01, 0x71, 0x01, 0x02, 0x01, 0x7A, 0x04, 0x00, 0x00, 0x00, // q(rw z), in line 4
    0x02, 0x04, 0x44, // om
    0x05, 0x6A, // return
];

// Where a byte of `LARGER` stands that is turned, and what it becomes: a mark that isn't one, a capital letter, a base that
// isn't there, a mode and a form that aren't, a number of former 0, a variable that isn't there, a gap in the table, and a
// parameter that is passed in no way.
const TURNED: &[(usize, u8)] = &[
    (7, 0x32),
    (10, 0x41),
    (19, 0x01),
    (18, 0x0A),
    (23, 0x04),
    (40, 0x30),
    (47, 0x02),
    (49, 0x32),
    (60, 0x03),
];

// The image that these bytes spell, encoded again, is these bytes.
fn comes_back(alloc: Global, bytes: &[u8]) -> Result<bool, Fail> {
    match decode(alloc, bytes) {
        Err(ImageFault::Bad) => Ok(false),
        Err(ImageFault::NoMemory) => Err(Fail {}),
        Ok(image) => {
            let again = encode(alloc, &image)?;
            Ok(again.as_slice() == bytes)
        }
    }
}

fn is_refused(alloc: Global, bytes: &[u8]) -> bool {
    matches!(decode(alloc, bytes), Err(ImageFault::Bad))
}

#[test]
fn images_come_back(rt: HostRuntime) -> Result<(), Fail> {
    assert!(rt; comes_back(rt.alloc(), SMALLEST)?);
    assert!(rt; comes_back(rt.alloc(), LARGER)?);
    Ok(())
}

#[test]
fn each_prefix_is_refused(rt: HostRuntime) -> Result<(), Fail> {
    for n in 0..LARGER.len() {
        assert!(rt; is_refused(rt.alloc(), &LARGER[..n]));
    }
    Ok(())
}

#[test]
fn turned_bytes_are_refused(rt: HostRuntime) -> Result<(), Fail> {
    for (at, byte) in TURNED {
        let mut bytes = Vec::from_slice(rt.alloc(), LARGER)?;
        if let Some(place) = bytes.get_mut(*at) {
            *place = *byte;
        }
        assert!(rt; is_refused(rt.alloc(), bytes.as_slice()));
    }
    Ok(())
}

// Each byte, changed: then the bytes are refused, or they spell another image.
#[test]
fn changed_bytes_spell_another_image_or_none(rt: HostRuntime) -> Result<(), Fail> {
    for at in 0..LARGER.len() {
        for byte in 0..=255 {
            let mut bytes = Vec::from_slice(rt.alloc(), LARGER)?;
            if let Some(place) = bytes.get_mut(at) {
                *place = byte;
            }
            let bytes = bytes.as_slice();
            assert!(rt; is_refused(rt.alloc(), bytes) || comes_back(rt.alloc(), bytes)?);
        }
    }
    Ok(())
}
