//! A way round that takes no turn is found.

use setl_image::{ImageFault, decode};
use setl_image_verify::falling_heights;
use std::alloc::{AllocError, AllocFailed, Global};

// Memory ran out, or the bytes are no image.
#[derive(Debug, Drop)]
struct Fail {}

impl From<ImageFault> for Fail {
    fn from(_e: ImageFault) -> Fail {
        Fail {}
    }
}

impl From<AllocError> for Fail {
    fn from(_e: AllocError) -> Fail {
        Fail {}
    }
}

impl<T: Drop> From<AllocFailed<T>> for Fail {
    fn from(_e: AllocFailed<T>) -> Fail {
        Fail {}
    }
}

// The image of a program without steps, up to their count.
const HEAD: &[u8] = &[
    0x53, 0x45, 0x54, 0x4C, 0x49, 0x4D, 0x47, 0x31, 0x00, 0x00, 0x00, 0x01, 0x01, 0x70, 0x00, 0x00,
    0x00, 0x00,
];

// Steps in which each way round takes a turn: `stop`; `round`, `jump 0`; and `om`, `begin`, `next 4`, `jump 2`, `stop`.
const FALLING: &[&[u8]] = &[
    &[1, 1, 111],
    &[2, 1, 104, 1, 90, 0],
    &[5, 1, 68, 1, 94, 1, 99, 4, 1, 90, 2, 1, 111],
];

// Steps in which one takes none: `jump 0`; `true`, `unless 0`, `stop`; and `om`, `begin`, `next 2`, `stop`, which goes
// round at the end of the iterator.
const ROUND: &[&[u8]] = &[
    &[1, 1, 90, 0],
    &[3, 1, 66, 1, 89, 0, 1, 111],
    &[4, 1, 68, 1, 94, 1, 99, 2, 1, 111],
];

// Whether the steps behind the head fall.
fn fall(alloc: Global, steps: &[u8]) -> Result<bool, Fail> {
    let mut bytes = Vec::from_slice(alloc, HEAD)?;
    bytes.extend_from_slice(steps)?;
    let image = decode(alloc, bytes.as_slice())?;
    let Some(body) = image.code.bodies.as_slice().first() else {
        return Ok(false);
    };
    if body.steps.len() > 9 {
        return Ok(false);
    }
    Ok(falling_heights(alloc, body.steps.as_slice())?.is_some())
}

#[test]
fn each_way_round_takes_a_turn(rt: HostRuntime) -> Result<(), Fail> {
    for steps in FALLING {
        assert!(rt; fall(rt.alloc(), steps)?);
    }
    for steps in ROUND {
        assert!(rt; !fall(rt.alloc(), steps)?);
    }
    Ok(())
}
