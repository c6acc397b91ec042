//! Long texts, put together of parts.
use std::alloc::{AllocError, Allocator};

/// Texts, each repeated so many times.
pub type Repeats = &'static [(&'static [u8], usize)];

/// The text of blocks of parts, each block repeated so many times.
pub fn text_of<A: Allocator>(
    alloc: A,
    blocks: &[(Repeats, usize)],
) -> Result<Vec<u8, A>, AllocError> {
    let mut text = Vec::new(alloc);
    for (parts, times) in blocks {
        for _ in 0..*times {
            put(&mut text, parts)?;
        }
    }
    Ok(text)
}

fn put<A: Allocator>(text: &mut Vec<u8, A>, parts: &[(&[u8], usize)]) -> Result<(), AllocError> {
    for (part, count) in parts {
        for _ in 0..*count {
            text.extend_from_slice(part)?;
        }
    }
    Ok(())
}
