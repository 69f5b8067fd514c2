//! The rules that an accepted derivation keeps.

/// The rules that an accepted derivation keeps (`docs/derivations.md`).
#[derive(Clone, Copy, Debug, PartialEq, Eq)]
pub enum VerifyRule {
    V1,
    V2,
    V3,
    V4,
    V5,
    V6,
    V7,
    V8,
    V9,
    V10,
    V11,
    V12,
    V13,
}
