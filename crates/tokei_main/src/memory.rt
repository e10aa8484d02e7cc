//! What becomes of memory that is given back.
use std::alloc::{AllocError, Global};

/// As large as any block that a start takes.
const LARGE: usize = 1_048_576;

/// Has the C library keep blocks that are given back, so that later ones get their pages, which
/// the system would have to make anew. It does so for blocks up to the size of the first one that
/// it gives back to the system (`mallopt(3)`, `M_MMAP_THRESHOLD`): so that one is large, and
/// nothing is written to it. Where it is refused, all goes on as well.
pub fn keep_freed_blocks(alloc: Global) {
    let _block: Result<Vec<u8>, AllocError> = Vec::with_capacity(alloc, LARGE);
}
