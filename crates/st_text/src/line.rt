//! Lines at the front of bytes.

ghost use Rattle.std.specs.Prelude.{◌≡◌, ◌++◌, ◌∷◌, Contains, MatchOption};

/// The first line, without its line feed, and what stands behind it.
pub fn next_line(bytes: &[u8]) -> Option<(&[u8], &[u8])>
    ensures { MatchOption result (¬ (Contains bytes.now 10))
        (λ read. ¬ (Contains read.0.now 10)
        × (bytes.now ≡ read.0.now ++ 10 ∷ read.1.now)) }
{
    let at = bytes.iter().position(|byte| *byte == b'\n')?;
    Some((&bytes[..at], &bytes[at + 1..]))
}
