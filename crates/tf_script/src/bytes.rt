//! Where runs of bytes begin and end.

ghost use Rattle.std.specs.Prelude.{◌≡◌, ◌+◌, ◌≤◌, ◌<◌, ◌==◌, length, take, drop, MatchOption};
ghost use Rattle.std.specs.List.{prefix_len, position_or_len, before_first, after_first};

/// How many spaces stand at the front. Linear in their number.
pub fn leading_spaces(bytes: &[u8]) -> usize
    ensures count { result ≡ prefix_len (λ byte. byte == 32) bytes.now }
    ensures within { result ≤ length bytes.now }
{
    for (place, byte) in bytes.iter().enumerate() {
        if *byte != b' ' {
            return place;
        }
    }
    bytes.len()
}

/// How many bytes stand before the first `stop`: all where there is none. Linear in their number.
pub fn length_before(bytes: &[u8], stop: u8) -> usize
    ensures count { result ≡ position_or_len (λ byte. byte == stop) bytes.now }
    ensures within { result ≤ length bytes.now }
{
    for (place, byte) in bytes.iter().enumerate() {
        if *byte == stop {
            return place;
        }
    }
    bytes.len()
}

/// What stands before the first `stop` and, where there is one, what stands after it.
pub fn cut(bytes: &[u8], stop: u8) -> (&[u8], Option<&[u8]>)
    ensures front { result.0.now ≡ before_first (λ byte. byte == stop) bytes.now }
    ensures back { MatchOption result.1
        (position_or_len (λ byte. byte == stop) bytes.now ≡ length bytes.now)
        (λ rest. (position_or_len (λ byte. byte == stop) bytes.now < length bytes.now)
        × (rest.now ≡ after_first (λ byte. byte == stop) bytes.now)) }
{
    let count = length_before(bytes, stop);
    if count < bytes.len() {
        (&bytes[..count], Some(&bytes[count + 1..]))
    } else {
        (bytes, None)
    }
}

/// The first line of bytes and the bytes after it.
pub fn first_line(bytes: &[u8]) -> (&[u8], &[u8])
    ensures line { result.0.now ≡ before_first (λ byte. byte == 10) bytes.now }
    ensures rest { result.1.now ≡ after_first (λ byte. byte == 10) bytes.now }
{
    match cut(bytes, b'\n') {
        (line, Some(rest)) => (line, rest),
        (line, None) => (line, &bytes[bytes.len()..]),
    }
}
