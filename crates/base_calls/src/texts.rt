// Bytes of texts, for the tests of several calls.
use aeg_base::{Bytes, Memory};
use std::alloc::Global;

pub fn bytes_of(alloc: Global, text: &str) -> Result<Bytes, Memory> {
    Ok(Bytes::of(Vec::from_slice(alloc, text.as_bytes())?))
}
