//! Names that are declared once.

ghost use Rattle.std.specs.Prelude.{◌↔◌, IsTrue, All};
ghost use Rattle.st_ilcheck.specs.Declarations.{IsOnceIn};

use crate::names::Names;
use st_num::Name;

/// Whether each name is one of these, once.
pub(crate) fn all_once(names: &Names, cited: &[Name]) -> bool
    ensures { IsTrue result ↔ All (IsOnceIn names.now) cited.now }
{
    for i in 0..cited.len() {
        if !names.is_once(&cited[i]) {
            return false;
        }
    }
    true
}
