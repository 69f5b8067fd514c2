//! Values, and environments that give them to variables.

use st_num::{Boxed, Name, Num, Row};

/// A value. A record has its fields in declared order.
#[derive(Drop)]
pub enum Value {
    Bool(bool),
    Num(Num),
    Text(Name),
    Case(Name, Row<Value>),
    Fields(Row<(Name, Value)>),
    Tuple(Row<Value>),
    List(Row<Value>),
    Opt(Option<Boxed<Value>>),
}

/// The values of variables, in byte order of their names, without repeats.
#[derive(Drop)]
pub struct Env {
    pub entries: Row<(Name, Value)>,
}
