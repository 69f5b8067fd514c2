//! How the names of relations are spelled.

ghost use Rattle.std.specs.Prelude.{◌↔◌, IsTrue};
ghost use Rattle.std.specs.List.{All};
ghost use Rattle.st_deriv.specs.LineText.{IsNameByte, IsRelationName};

/// Whether names may go on with this byte.
fn is_name_byte(byte: u8) -> bool
    ensures { IsTrue result ↔ IsNameByte byte }
{
    match byte {
        b'A'..=b'Z' | b'a'..=b'z' | b'0'..=b'9' | b'_' | b'\'' => true,
        _ => false,
    }
}

/// Whether names may go on with each of these bytes.
fn are_name_bytes(bytes: &[u8]) -> bool
    ensures { IsTrue result ↔ All IsNameByte bytes.now }
{
    bytes.iter().all(|byte| is_name_byte(*byte))
}

/// Whether the bytes are the name of a relation.
pub(crate) fn is_relation_name(bytes: &[u8]) -> bool
    ensures { IsTrue result ↔ IsRelationName bytes.now }
{
    match bytes {
        [] => false,
        [first, others @ ..] => b'A' <= *first && *first <= b'Z' && are_name_bytes(others),
    }
}
