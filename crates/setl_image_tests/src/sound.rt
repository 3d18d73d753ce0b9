//! Images that are sound, and images that aren't.

use setl_image::{ImageFault, decode};
use setl_image_sound::{VerifyFault, verify};
use std::alloc::{AllocError, AllocFailed, Global};

// Memory ran out, or the bytes are no image.
#[derive(Debug, Drop)]
struct Fail {}

impl From<ImageFault> for Fail {
    fn from(_e: ImageFault) -> Fail {
        Fail {}
    }
}

impl From<AllocError> for Fail {
    fn from(_e: AllocError) -> Fail {
        Fail {}
    }
}

impl<T: Drop> From<AllocFailed<T>> for Fail {
    fn from(_e: AllocFailed<T>) -> Fail {
        Fail {}
    }
}

// The image of a program with the own name x, without steps, up to their count.
const HEAD: &[u8] = &[
    0x53, 0x45, 0x54, 0x4C, 0x49, 0x4D, 0x47, 0x31, 0x00, 0x00, 0x00, 0x01, 0x01, 0x70, 0x00, 0x00,
    0x00, 0x01, 0x01, 0x78,
];

// `stop`; and `om`, `store x`, `take x`, `print 1`, `stop`.
const SOUND: &[&[u8]] = &[
    &[1, 1, 111],
    &[5, 1, 68, 1, 73, 1, 1, 72, 1, 1, 109, 1, 1, 111],
];

// `return` in the main program; a jump behind the last step; a last step that doesn't end the body; `print 1` without an
// operand; `jump 0`; and a take before a read: `take x`, `drop`, `load x`, `print 1`, `stop`.
const UNSOUND: &[&[u8]] = &[
    &[1, 1, 106],
    &[2, 1, 90, 2, 1, 111],
    &[1, 1, 104],
    &[2, 1, 109, 1, 1, 111],
    &[1, 1, 90, 0],
    &[5, 1, 72, 1, 1, 91, 1, 71, 1, 1, 109, 1, 1, 111],
];

// Declarations that break a rule: of a name that is no variable, of one twice, and `set(elmt b)`, which is plain.
const DECLARED: &[&[u8]] = &[
    &[0x00, 0x01, 0x01, 0x79, 0x01],
    &[0x00, 0x02, 0x01, 0x78, 0x01, 0x01, 0x78, 0x01],
    &[
        0x01, 0x01, 0x62, 0x01, 0x01, 0x01, 0x78, 0x06, 0x00, 0x05, 0x00,
    ],
];

// Whether the image of these bytes is sound.
fn is_sound(alloc: Global, bytes: &[u8]) -> Result<bool, Fail> {
    let image = decode(alloc, bytes)?;
    match verify(alloc, &image) {
        Ok(()) => Ok(true),
        Err(VerifyFault::Unsound) => Ok(false),
        Err(VerifyFault::NoMemory) => Err(Fail {}),
    }
}

// Whether the image with these steps is sound.
fn with_steps(alloc: Global, steps: &[u8]) -> Result<bool, Fail> {
    let mut bytes = Vec::from_slice(alloc, HEAD)?;
    bytes.extend_from_slice(steps)?;
    is_sound(alloc, bytes.as_slice())
}

// Whether the image with this section and `stop` alone is sound.
fn with_section(alloc: Global, section: &[u8]) -> Result<bool, Fail> {
    let mut bytes = Vec::from_slice(alloc, b"SETLIMG1\0")?;
    bytes.extend_from_slice(section)?;
    bytes.extend_from_slice(b"\x01\x01p\0\0\0\x01\x01x\x01\x01o")?;
    is_sound(alloc, bytes.as_slice())
}

#[test]
fn images_are_sound_or_not(rt: HostRuntime) -> Result<(), Fail> {
    for steps in SOUND {
        assert!(rt; with_steps(rt.alloc(), steps)?);
    }
    for steps in UNSOUND {
        assert!(rt; !with_steps(rt.alloc(), steps)?);
    }
    assert!(rt; with_section(rt.alloc(), b"\x01\x01b\x01\x01\x01x\x06\x02\x05\0")?);
    for section in DECLARED {
        assert!(rt; !with_section(rt.alloc(), section)?);
    }
    Ok(())
}
