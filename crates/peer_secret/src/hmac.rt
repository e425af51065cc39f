//! HMAC (RFC 2104) over SHA-256.

ghost use Rattle.std.specs.Prelude.{◌≡◌, ◌++◌, map, bit_xor, IfOk};
ghost use Rattle.sha2.specs.Sha256.{sha256};
ghost use Rattle.peer_secret.specs.Hmac.{hmac, key_block, padded, short_key};

use sha2::{Digest, Sha256};
use std::alloc::{AllocError, Global};

/// How many bytes a block of SHA-256 has.
const BLOCK_SIZE: usize = 64;

/// What is mixed into each byte of the key for the inner digest, and for the outer one.
const INNER_PAD: u8 = 0x36;

const OUTER_PAD: u8 = 0x5c;

/// A key, or its digest if it is longer than a block.
fn short_key(alloc: Global, key: &[u8]) -> Result<Vec<u8>, AllocError>
    ensures { IfOk result (λ short. short.items ≡ short_key key.now) }
{
    if key.len() > BLOCK_SIZE {
        return Vec::from_slice(alloc, &Sha256::digest(key));
    }
    Vec::from_slice(alloc, key)
}

/// A key as one block, with zeros after it.
fn key_block(alloc: Global, key: &[u8]) -> Result<Vec<u8>, AllocError>
    ensures { IfOk result (λ block. block.items ≡ key_block key.now) }
{
    let mut block = short_key(alloc, key)?;
    block.resize(BLOCK_SIZE, 0)?;
    Ok(block)
}

/// A block with a byte mixed into each of its bytes.
fn padded(alloc: Global, block: &[u8], pad: u8) -> Result<Vec<u8>, AllocError>
    ensures { IfOk result (λ padded. padded.items ≡ map (λ byte. bit_xor byte pad) block.now) }
{
    let mut padded = Vec::with_capacity(alloc, block.len())?;
    for byte in block {
        padded.push(*byte ^ pad)?;
    }
    Ok(padded)
}

/// The digest of two pieces taken as one message.
fn digest_of_both(first: &[u8], second: &[u8]) -> [u8; 32]
    ensures { result ≡ sha256 (first.now ++ second.now) }
{
    let mut hasher = Sha256::new();
    hasher.update(first);
    hasher.update(second);
    hasher.finalize()
}

/// The HMAC-SHA-256 of a message.
pub fn hmac_sha256(alloc: Global, key: &[u8], message: &[u8]) -> Result<[u8; 32], AllocError>
    ensures { IfOk result (λ code. code ≡ hmac key.now message.now) }
{
    let block = key_block(alloc, key)?;
    let inner = padded(alloc, block.as_slice(), INNER_PAD)?;
    let outer = padded(alloc, block.as_slice(), OUTER_PAD)?;
    let digest = digest_of_both(inner.as_slice(), message);
    Ok(digest_of_both(outer.as_slice(), &digest))
}
