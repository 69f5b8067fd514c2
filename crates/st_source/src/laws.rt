//! The law that breaches stand in the files of their source.

ghost use Rattle.st_source.specs.BreachesStand.{BreachesStand};

/// Breaches stand in files of the tokens. There is nothing to run.
pub fn breaches_stand()
    ensures { BreachesStand }
{}
