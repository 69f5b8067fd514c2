//! The numbered rules of the language, by which a refusal is told.

/// The rules that a specification, a term or a query can break (`docs/refusals.md`).
///
/// L: the spelling of tokens. S: the grammar. B: names and declarations. Y: types. I: dimensions.
/// M: directions and functions.
#[derive(Clone, Copy, Debug, PartialEq, Eq)]
pub enum RuleId {
    L1,
    L2,
    L3,
    L4,
    S1,
    S2,
    S3,
    S4,
    B1,
    B2,
    B3,
    B4,
    B5,
    B6,
    Y1,
    Y2,
    Y3,
    Y4,
    Y5,
    Y6,
    Y7,
    Y8,
    I1,
    I2,
    M1,
    M2,
    M3,
    M4,
    M5,
    M6,
    M7,
}
