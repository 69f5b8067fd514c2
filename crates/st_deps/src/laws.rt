//! Laws of groups: there is at most one list of them.

ghost use Rattle.std.specs.Prelude.{◌≡◌, List};
ghost use Rattle.st_deps.specs.Cited.{Name};
ghost use Rattle.st_deps.specs.Definitions.{Cites, declared};
ghost use Rattle.st_deps.specs.Groups.{AreGroups};
ghost use Rattle.st_il.specs.declared.definition.Il.{Il};

/// An internal language has at most one list of groups.
#[tactic(auto, using(crate::proofs::Unique::groups_unique))]
pub fn one_list_of_groups()
    ensures { (il : Il) (one other : List (List Name))
        → AreGroups (Cites il) (declared il) one → AreGroups (Cites il) (declared il) other
        → one ≡ other }
{}
