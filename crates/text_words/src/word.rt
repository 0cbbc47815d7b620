ghost use Rattle.std.specs.Prelude.{◌≡◌, ◌==◌, ◌<◌, length, position, IfSome};
ghost use Rattle.text_words.specs.Reading.{front, past};

/// The place of the first `separator`.
pub fn place_of(bytes: &[u8], separator: u8) -> Option<usize>
    ensures value { result ≡ position (λ b. b == separator) bytes.now }
    ensures within { IfSome result (λ place. place < length bytes.now) }
{
    bytes.iter().position(|b| *b == separator)
}

/// The bytes before the first `separator` and those after it. Where there is none, these are all bytes and none.
pub fn split_first(bytes: &[u8], separator: u8) -> (&[u8], &[u8])
    ensures front { result.0.now ≡ front separator bytes.now }
    ensures past { result.1.now ≡ past separator bytes.now }
{
    match place_of(bytes, separator) {
        Some(end) => (&bytes[..end], &bytes[end + 1..]),
        None => (bytes, &bytes[bytes.len()..]),
    }
}
