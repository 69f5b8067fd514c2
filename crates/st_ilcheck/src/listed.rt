//! Variables as they are listed, and names among others.

ghost use Rattle.std.specs.Prelude.{◌≡◌};
ghost use Rattle.std.specs.Option.{option_copied};
ghost use Rattle.st_il.specs.Names.{has_name};
ghost use Rattle.st_semantics.specs.Environments.{listed_as};

use st_il::Listed;
use st_num::Name;

/// The listed variable of a name.
pub(crate) fn listed_as<'l>(listed: &'l [Listed], name: &Name) -> Option<&'l Listed>
    ensures { option_copied result ≡ listed_as name.now listed.now }
{
    for variable in listed {
        if name.as_slice() == variable.name.as_slice() {
            return Some(variable);
        }
    }
    None
}

/// Whether the name is one of these.
pub(crate) fn has_name(names: &[Name], name: &Name) -> bool
    ensures { result ≡ has_name names.now name.now }
{
    for other in names {
        if name.as_slice() == other.as_slice() {
            return true;
        }
    }
    false
}
