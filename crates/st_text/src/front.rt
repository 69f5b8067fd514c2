//! What stands at the front of bytes.

ghost use Rattle.std.specs.Prelude.{◌≡◌, ◌≢◌, ℕ, List, MatchOption, ◌∷◌, ◌↔◌, IsTrue};
ghost use Rattle.st_text.specs.Text.{Ends};
ghost use Rattle.st_text.specs.inner.Fronts.{Closes};

/// Whether a text may end before these bytes.
pub(crate) fn ends(bytes: &[u8]) -> bool
    ensures { IsTrue result ↔ Ends bytes.now }
{
    match bytes.first() {
        None => true,
        Some(byte) => *byte == b' ' || *byte == b')' || *byte == b'\n',
    }
}

/// Whether a row may end before these bytes.
pub(crate) fn closes(bytes: &[u8]) -> bool
    ensures { IsTrue result ↔ Closes bytes.now }
{
    match bytes.first() {
        None => true,
        Some(byte) => *byte == b')' || *byte == b'\n',
    }
}

/// What stands behind this byte, where it is the first.
pub(crate) fn after(bytes: &[u8], byte: u8) -> Option<&[u8]>
    ensures { MatchOption result ((rest : List ℕ) → bytes.now ≢ byte ∷ rest)
        (λ rest. bytes.now ≡ byte ∷ rest.now) }
{
    let (first, rest) = bytes.split_first()?;
    if *first != byte {
        return None;
    }
    Some(rest)
}
