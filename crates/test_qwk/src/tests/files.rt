//! Files of blocks.
use byte_lists::Bytes;
use std::alloc::{AllocError, Global};
use test_cases::{Miss, number_of};

/// Adds a block of 128 bytes, which is filled up with spaces.
fn add_block(file: &mut Bytes, block: &[u8]) -> Result<(), AllocError> {
    file.add(block)?;
    for _ in block.len()..128 {
        file.add(b" ")?;
    }
    Ok(())
}

/// The first bytes of these blocks, each filled up with spaces to 128 bytes.
pub fn front_of(alloc: Global, blocks: &[Bytes], length: u32) -> Result<Bytes, Miss> {
    let mut file = Bytes::new(alloc);
    for block in blocks {
        add_block(&mut file, block.as_slice())?;
    }
    let front = file.as_slice().get(..length as usize);
    Ok(Bytes::from_slice(alloc, front.ok_or(Miss::Words)?)?)
}

/// The file of a case: how many bytes it has, and its blocks.
pub fn file_of(alloc: Global, words: &[Bytes]) -> Result<Bytes, Miss> {
    let [length, blocks @ ..] = words else {
        return Err(Miss::Words);
    };
    front_of(alloc, blocks, number_of(length.as_slice())?)
}
