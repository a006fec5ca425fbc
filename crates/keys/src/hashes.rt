// The numbers of keys.
ghost use Rattle.std.specs.Prelude.{◌≡◌};
ghost use Rattle.keys.specs.Hashes.{hash_of};

// A number that keys have in common where they are the same, so that few keys are compared byte by byte.
pub(crate) fn hash(key: &[u8]) -> u32
    ensures { result ≡ hash_of key.now }
{
    let mut sum: u32 = 0;
    for b in key {
        sum = sum.wrapping_mul(31).wrapping_add(u32::from(*b));
    }
    sum
}
