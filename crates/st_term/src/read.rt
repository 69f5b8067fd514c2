//! Terms and queries, read from their texts.

ghost use Rattle.std.specs.Prelude.{◌≡◌, ◌<◌, ◌^◌, List, map, length, IfOk};
ghost use Rattle.st_il.specs.declared.expression.IlExp.{IlExp};
ghost use Rattle.st_il.specs.declared.value.Value.{Value};
ghost use Rattle.st_elab_table.specs.Questions.{Breach};
ghost use Rattle.st_elab_rows.specs.Told.{Told};
ghost use Rattle.st_elab_exp.specs.Exactly.{IsGiven, IsRefused};
ghost use Rattle.st_semantics.specs.Formed.{IsFormed};
ghost use Rattle.st_term.specs.Reading.{variables_of, closed, beginning, IsTextOf, TextBreach, IsTermOf, TermBreach, IsTerm, IsTermBreach, IsQueryOf, QueryBreach, IsQuery, IsQueryBreach};

use crate::foreign::first_foreign;
use crate::formed::formed;
use crate::open::first_open;
use crate::value::values_of;
use st_dims::Within;
use st_el::Exp;
use st_elab_exp::{Decls, Scope, check_parts, infer_exp};
use st_il::{IlExp, Ty, Value};
use st_num::{Dim, Fault, Name, NoMemory, Row, RuleId, Span};
use st_parse::parse_exp;
use st_scan::scan;
use std::alloc::Global;

/// The names that are declared by `var`.
fn variables_of(alloc: Global, vars: &[(Name, Ty)]) -> Result<Row<Name>, NoMemory>
    ensures { IfOk result (λ names. names ≡ map (λ v. v.0) vars.now) }
{
    let mut names = Row::new(alloc);
    for var in vars {
        names.push(var.0.copy(alloc)?)?;
    }
    Ok(names)
}

/// The expressions of which this is the text.
fn expressions(alloc: Global, decls: &Decls, bytes: &[u8]) -> Result<Row<Exp>, Fault>
    requires { length bytes.now < 2 ^ 32 }
    ensures { Told (IsTextOf decls.now bytes.now) (TextBreach decls.now bytes.now) result }
{
    let tokens = scan(alloc, 0, bytes)?;
    let variables = variables_of(alloc, decls.vars.as_slice())?;
    let exps = parse_exp(alloc, &tokens, variables.as_slice())?;
    Ok(exps)
}

/// A scope without variables, in no iteration.
fn closed(alloc: Global) -> Scope
    ensures { result ≡ closed }
{
    Scope {
        variables: Row::new(alloc),
        around: Dim::new(alloc),
    }
}

/// The fault that there are too many expressions or too few.
fn other_number() -> Fault
    ensures { result ≡ Fault.Refused beginning RuleId.Y6 }
{
    Fault::Refused {
        at: Span {
            file: 0,
            line: 1,
            column: 1,
        },
        rule: RuleId::Y6,
    }
}

/// The values of the expressions as a term for these holes.
fn term_of(alloc: Global, decls: &Decls, holes: &[Ty], exps: &[Exp]) -> Result<Row<Value>, Fault>
    ensures { Told (IsTermOf decls.now holes.now exps.now)
        (TermBreach decls.now holes.now exps.now) result }
{
    if let Some(at) = first_foreign(exps) {
        return Err(Fault::Refused {
            at,
            rule: RuleId::Y8,
        });
    }
    if exps.len() != holes.len() {
        return Err(other_number());
    }
    let scope = closed(alloc);
    let within = Within::new(alloc);
    let elaborated = check_parts(alloc, decls, &scope, &within, exps, holes)?;
    let values = values_of(alloc, elaborated.as_slice(), &decls.types)?;
    Ok(values)
}

/// What the expressions are elaborated to as a query.
fn query_of(alloc: Global, decls: &Decls, exps: &[Exp]) -> Result<IlExp, Fault>
    ensures { Told (IsQueryOf decls.now exps.now) (QueryBreach decls.now exps.now) result }
{
    if let Some(at) = first_open(alloc, exps)? {
        return Err(Fault::Refused {
            at,
            rule: RuleId::Y8,
        });
    }
    match exps {
        [exp] => {
            let scope = closed(alloc);
            let found = infer_exp(alloc, decls, &scope, exp)?;
            Ok(found.0)
        }
        _ => Err(other_number()),
    }
}

/// The values of a term, one for each hole, from its text, which has fewer than 2^32 bytes; or the
/// first rule that the text breaks, and where: a token, the grammar or a limit; Y8 where a part is
/// no value form; Y6 where there are more or fewer expressions than holes; or what elaboration
/// refuses. A value that is higher than 1,000 is answered by want of memory.
pub fn read_term(
    alloc: Global,
    decls: &Decls,
    holes: &[Ty],
    bytes: &[u8],
) -> Result<Row<Value>, Fault>
    requires { length bytes.now < 2 ^ 32 }
    ensures told { Told (IsTerm decls.now holes.now bytes.now)
        (IsTermBreach decls.now holes.now bytes.now) result }
    ensures gives { (values : List Value) → IsTerm decls.now holes.now bytes.now values
        → IsGiven values result }
    ensures refuses { (b : Breach) → IsTermBreach decls.now holes.now bytes.now b
        → IsRefused b result }
{
    let exps = expressions(alloc, decls, bytes)?;
    let values = term_of(alloc, decls, holes, exps.as_slice())?;
    Ok(values)
}

/// What a query is elaborated to, from its text, which has fewer than 2^32 bytes; or the first rule
/// that the text breaks, and where: a token, the grammar or a limit; Y8 where a part is a variable,
/// or an iteration that goes over variables; Y6 where there is not one expression; or what
/// elaboration refuses. Each record in it has the fields of its type, and each part that was left out
/// is of a list or an option.
pub fn read_query(alloc: Global, decls: &Decls, bytes: &[u8]) -> Result<IlExp, Fault>
    requires { length bytes.now < 2 ^ 32 }
    ensures told { Told (IsQuery decls.now bytes.now) (IsQueryBreach decls.now bytes.now) result }
    ensures gives { (x : IlExp) → IsQuery decls.now bytes.now x → IsGiven x result }
    ensures refuses { (b : Breach) → IsQueryBreach decls.now bytes.now b → IsRefused b result }
    ensures formed { IfOk result (λ x. IsFormed decls.now.types x) }
{
    let exps = expressions(alloc, decls, bytes)?;
    let query = query_of(alloc, decls, exps.as_slice())?;
    formed(alloc, &query, &decls.types)?;
    Ok(query)
}
