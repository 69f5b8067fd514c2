//! The typing rules of the internal language, by which a refusal is told.

/// The rules that a typed internal language keeps (`docs/internal-language.md`).
#[derive(Clone, Copy, Debug, PartialEq, Eq)]
pub enum TypeRule {
    T1,
    T2,
    T3,
    T4,
    T5,
    T6,
    T7,
    T8,
    T9,
    T10,
    T11,
    T12,
    T13,
    T14,
}
