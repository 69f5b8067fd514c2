//! The first fault of tokens: at which of them, and by which rule.

use st_num::RuleId;

/// The number of the token that is refused, or of all tokens where they end too early, and the
/// rule that is broken there.
#[derive(Clone, Copy, Debug, PartialEq, Eq)]
pub struct TokenFault {
    pub token: usize,
    pub rule: RuleId,
}
