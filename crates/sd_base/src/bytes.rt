//! Numbers and counted bytes in front of other bytes. A caller says by `ok_or` which fault too few bytes are.
ghost use Rattle.std.specs.Prelude.{◌≡◌, ◌+◌, ◌<◌, length, IfSome};
ghost use Rattle.std.specs.Option.{option_map};
ghost use Rattle.std.specs.Int.{w16, w32, w64};
ghost use Rattle.sd_base.specs.Numbers.{front_bytes, front_number, front_counted};

/// So many bytes and the bytes after them, or `None` where there are fewer.
pub fn split_bytes(bytes: &[u8], count: u64) -> Option<(&[u8], &[u8])>
    ensures front { option_map (λ x. (x.0.now, x.1.now)) result ≡ front_bytes count bytes.now }
    ensures len { IfSome result (λ x. length x.0.now ≡ count) }
    ensures shorter { IfSome result (λ x. length x.0.now + length x.1.now ≡ length bytes.now) }
{
    if (bytes.len() as u64) < count {
        return None;
    }
    Some(bytes.split_at(count as usize))
}

/// A number of two bytes, its low byte first, and the bytes after it.
pub fn split_u16(bytes: &[u8]) -> Option<(u16, &[u8])>
    ensures number { option_map (λ x. (x.0, x.1.now)) result ≡ front_number w16 bytes.now }
    ensures shorter { IfSome result (λ x. length x.1.now + 2 ≡ length bytes.now) }
{
    let (front, rest) = bytes.split_first_chunk::<2>()?;
    Some((u16::from_le_bytes(*front), rest))
}

/// A number of four bytes, its low byte first, and the bytes after it.
pub fn split_u32(bytes: &[u8]) -> Option<(u32, &[u8])>
    ensures number { option_map (λ x. (x.0, x.1.now)) result ≡ front_number w32 bytes.now }
    ensures shorter { IfSome result (λ x. length x.1.now + 4 ≡ length bytes.now) }
{
    let (front, rest) = bytes.split_first_chunk::<4>()?;
    Some((u32::from_le_bytes(*front), rest))
}

/// A number of eight bytes, its low byte first, and the bytes after it.
pub fn split_u64(bytes: &[u8]) -> Option<(u64, &[u8])>
    ensures number { option_map (λ x. (x.0, x.1.now)) result ≡ front_number w64 bytes.now }
    ensures shorter { IfSome result (λ x. length x.1.now + 8 ≡ length bytes.now) }
{
    let (front, rest) = bytes.split_first_chunk::<8>()?;
    Some((u64::from_le_bytes(*front), rest))
}

/// A count in two bytes, so many bytes, and the bytes after them.
pub fn split_counted(bytes: &[u8]) -> Option<(&[u8], &[u8])>
    ensures counted { option_map (λ x. (x.0.now, x.1.now)) result ≡ front_counted bytes.now }
    ensures shorter { IfSome result (λ x. length x.0.now + length x.1.now < length bytes.now) }
{
    let (count, rest) = split_u16(bytes)?;
    split_bytes(rest, u64::from(count))
}
