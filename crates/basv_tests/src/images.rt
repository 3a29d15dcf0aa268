//! Images as they are read and written.

use arm2_machine::{ImageError, read_image, write_image};
use std::alloc::Global;
use std::test::Fail;

/// The image of one word that the processor doesn't know.
const UNKNOWN_IMAGE: &[u8] = b"BVA2\x01\0\0\0\x10\0\0\xe6";

fn is_no_image(alloc: Global, bytes: &[u8], at: u32) -> bool {
    matches!(read_image(alloc, bytes), Err(ImageError::NotImage { at: place }) if place == at)
}

/// Bytes that are no image, and the place where that shows.
const NO_IMAGES: [(&[u8], u32); 2] = [(b"BVA2\x01\0\0\0\x10\0\0\xe6\0", 12), (&[0; 16], 0)];

#[test]
fn images_are_read_back(rt: HostRuntime) -> Result<(), Fail> {
    let alloc = rt.alloc();
    for length in 0..UNKNOWN_IMAGE.len() {
        assert!(rt;
            is_no_image(alloc, &UNKNOWN_IMAGE[..length], length as u32),
            "the first {length} bytes"
        );
    }
    for (bytes, at) in NO_IMAGES {
        assert!(rt; is_no_image(alloc, bytes, at), "{bytes:?}");
    }
    assert!(rt;
        matches!(
            read_image(alloc, b"BVA2\x01\0\x20\0"),
            Err(ImageError::TooLong)
        )
    );
    assert_eq!(rt;
        write_image(alloc, &[0xe600_0010])?.as_slice(),
        UNKNOWN_IMAGE
    );
    Ok(())
}
