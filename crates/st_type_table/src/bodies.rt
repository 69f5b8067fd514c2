//! The conditions on the parts of definitions, a run of parts at a time.

use crate::definitions::Definitions;
use crate::fault::Broken;
use crate::parts::check_parts;
use crate::survey::{Survey, survey_of};
use st_il::SyntaxDef;
use st_num::{NoMemory, Row};
use std::alloc::Global;
use std::marker::Model;

/// Definitions of syntaxes, some of which may break a rule. Contracts see them as they were given.
#[derive(Drop)]
pub struct Bodies<'a> {
    defs: Definitions<'a>,
    survey: Survey,
}

impl<'a> Model for Bodies<'a> {
    ghost use Rattle.std.specs.Prelude.{List};
    ghost use Rattle.std.specs.Coded.{codes};
    ghost use Rattle.st_il.specs.declared.definition.SyntaxDef.{SyntaxDef};
    ghost use Rattle.st_il.specs.contracts.ty.Ty as ty;
    ghost use Rattle.st_type_table.specs.inner.Survey.{IsSurvey};

    ghost Value = { List SyntaxDef };

    ghost coded = { Prim.hlevel (codes, ty.the_row.coded) };

    ghost view = { λ b. b.defs };

    ghost invariant = { λ b. IsSurvey b.defs b.survey };
}

impl<'a> Bodies<'a> {
    ghost use Rattle.std.specs.Prelude.{◌≡◌, ◌<◌, IfOk, None, length};
    ghost use Rattle.st_type_table.specs.Breach.{FindsAt};

    /// The definitions, with what is needed to ask their parts.
    pub fn of(alloc: Global, defs: &'a Row<SyntaxDef>) -> Result<Bodies<'a>, NoMemory>
        ensures { IfOk result (λ bodies. bodies ≡ defs.now) }
    {
        let defs = Definitions::of(alloc, defs.as_slice())?;
        let survey = survey_of(alloc, &defs)?;
        Ok(Bodies { defs, survey })
    }

    /// The first condition that is false, of those on the parts from one number up to another; no
    /// part need have the second. A number that 32 bits do not hold is answered by want of memory.
    pub fn check(
        &self,
        alloc: Global,
        syntax: usize,
        from: usize,
        to: usize,
    ) -> Result<Option<Broken>, NoMemory>
        requires within { syntax < length self.now }
        requires before { FindsAt self.now syntax 0 from None }
        ensures { IfOk result (λ found. FindsAt self.now syntax from to found) }
    {
        let found = check_parts(alloc, &self.defs, &self.survey, syntax, from, to)?;
        Ok(found)
    }
}
