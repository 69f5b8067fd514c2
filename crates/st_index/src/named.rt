//! What definitions are found by: their names.

ghost use Rattle.std.specs.Prelude.{◌≡◌, ℕ, List};

use st_il::{FunDef, RelationDef, SyntaxDef};
use st_num::Name;

/// What has a name.
pub(crate) trait Named: Drop {
    ghost name: { Self → List ℕ };

    fn name(&self) -> &Name
        ensures { result.now ≡ name self.now };
}

impl Named for SyntaxDef {
    ghost name = { λ syntax. syntax.name };

    fn name(&self) -> &Name {
        &self.name
    }
}

impl Named for RelationDef {
    ghost name = { λ relation. relation.name };

    fn name(&self) -> &Name {
        &self.name
    }
}

impl Named for FunDef {
    ghost name = { λ fun. fun.name };

    fn name(&self) -> &Name {
        &self.name
    }
}
