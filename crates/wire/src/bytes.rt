//! Reading bytes.
ghost use Rattle.std.specs.Prelude.{◌≡◌, ◌<◌, ◌≤◌, length, take, drop, MatchOption, slice_index};
ghost use Rattle.wire.specs.Bytes.{u16_of, u32_of};

/// The byte at a place; 0 where there is none.
pub fn byte_at(bytes: &[u8], place: usize) -> u8
    ensures { result ≡ slice_index bytes.now place }
{
    bytes.get(place).copied().unwrap_or(0)
}

/// What is behind the first so many bytes.
pub fn skip(bytes: &[u8], count: usize) -> &[u8]
    ensures { result.now ≡ drop count bytes.now }
{
    bytes.get(count..).unwrap_or(&[])
}

/// The first so many bytes, or all where there are fewer.
pub fn first(bytes: &[u8], count: usize) -> &[u8]
    ensures { result.now ≡ take count bytes.now }
{
    bytes.get(..count).unwrap_or(bytes)
}

/// The first so many bytes, and those behind; none where there are fewer.
pub fn cut(bytes: &[u8], size: usize) -> Option<(&[u8], &[u8])>
    ensures { MatchOption result (length bytes.now < size) (λ p. (size ≤ length bytes.now) × (p.0.now ≡ take size bytes.now) × (p.1.now ≡ drop size bytes.now)) }
{
    bytes.split_at_checked(size)
}

/// The number that the first 2 bytes make.
pub fn u16_of(bytes: &[u8]) -> u16
    ensures { result ≡ u16_of bytes.now }
{
    u16::from_be_bytes([byte_at(bytes, 0), byte_at(bytes, 1)])
}

/// The number that the first 4 bytes make.
pub fn u32_of(bytes: &[u8]) -> u32
    ensures { result ≡ u32_of bytes.now }
{
    u32::from_be_bytes([
        byte_at(bytes, 0),
        byte_at(bytes, 1),
        byte_at(bytes, 2),
        byte_at(bytes, 3),
    ])
}
