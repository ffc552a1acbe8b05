//! The hash of a key, which picks the node that knows where its record is.
ghost use Rattle.std.specs.Prelude.{◌≡◌};
ghost use Rattle.ct_values.specs.Hash.{hash_of};

use crate::key::Key;

/// The hash of a key: a number that starts with the length, gains each byte at its place, and is mixed once
/// at the end, all modulo 2^32.
pub fn hash(key: &Key) -> u32
    ensures { result ≡ hash_of key.now }
{
    let bytes = key.bytes();
    let mut value = 0x238F13AFu32.wrapping_mul(bytes.len() as u32);
    for (i, byte) in bytes.iter().enumerate() {
        value = value.wrapping_add(u32::from(*byte) << (i * 5 % 24));
    }
    value.wrapping_mul(1103515243).wrapping_add(12345)
}
