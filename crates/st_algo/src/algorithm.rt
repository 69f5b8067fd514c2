//! Algorithms and their steps.

use st_il::{IlExp, Iteration};
use st_num::{Boxed, Name, Row};

/// A step of an algorithm.
#[derive(Drop)]
pub enum AlgoStep {
    /// The inputs are matched with these patterns.
    Match(Row<IlExp>),
    /// The condition is to hold.
    Test(IlExp),
    /// The value of the second expression is matched with the first one, which is a pattern.
    Let(IlExp, IlExp),
    /// A judgement of the named relation is found for these inputs, and its outputs are met by
    /// these.
    Goal(Name, Row<IlExp>, Row<IlExp>),
    /// A step for each element of the named lists.
    Loop(Iteration, Row<Name>, Boxed<AlgoStep>),
    /// No earlier rule is to give a result.
    Otherwise,
    /// The outputs are the values of these.
    Give(Row<IlExp>),
}

/// The steps of a rule under its own name, or of a clause under that of its function.
#[derive(Drop)]
pub struct Algorithm {
    pub name: Name,
    pub steps: Row<AlgoStep>,
}

/// The algorithms of an internal language.
#[derive(Drop)]
pub struct Algos {
    /// For each relation, in the order of the source, those of its rules, in that order; none for
    /// a rule that has no order.
    pub relations: Row<Row<Option<Algorithm>>>,
    /// For each function, in the order of the source, those of its clauses, in that order.
    pub funs: Row<Row<Algorithm>>,
}
