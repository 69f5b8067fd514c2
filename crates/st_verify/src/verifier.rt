//! The verifier: it takes the lines of a derivation one by one.

ghost use Rattle.std.specs.Prelude.{◌≡◌, ◌^◌, ◌<◌, List, Option, None, Some, length, IsOkAnd};
ghost use Rattle.st_deriv.specs.declared.line.Line.{Line};
ghost use Rattle.st_il.specs.Small.{IsSmallIl};
ghost use Rattle.st_semantics.specs.declared.notes.Notes.{Notes};
ghost use Rattle.st_semantics.specs.declared.verify_rule.VerifyRule.{VerifyRule};
ghost use Rattle.st_semantics.specs.declared.verify_rule.VerifyRule.TheVariants.{V3};
ghost use Rattle.st_semantics.specs.Accepts.{ReadsTo, Accepts, AreSound};
ghost use Rattle.st_semantics.specs.Notes.{nothing_noted};
ghost use Rattle.st_semantics.specs.Verdict.{Verdict};
ghost use Rattle.st_verify.specs.Verifier.{Refuses, UnlessRefused, JudgesNext, Judges, Feeds, FeedsNext, Finishes, refusal_by};

use crate::noted::{no_notes, note};
use crate::verdict::broken_rule;
use crate::{Accepted, Notes, VerifyFault, VerifyRule};
use st_deriv::{Line, read_line};
use st_il::Il;
use st_text::TextFault;
use std::alloc::Global;
use std::marker::Model;

/// A checker of one derivation.
#[derive(Drop)]
pub struct Verifier {
    il: Il,
    notes: Notes,
    refusal: Option<VerifyFault>,
}

impl Model for Verifier {
    ghost use Rattle.std.specs.Coded.{codes};
    ghost use Rattle.st_il.specs.contracts.definition.Il.{the_row as il_row};
    ghost use Rattle.st_semantics.specs.contracts.notes.Notes.{the_row as notes_row};
    ghost use Rattle.st_verify.specs.Verifier.{Checking, IsKept};

    ghost Value = { Checking };

    ghost coded = { Prim.hlevel (codes, il_row.coded, notes_row.coded) };

    ghost view = { λ v. record { il = v.il; notes = v.notes; refusal = v.refusal } };

    ghost invariant = { λ v. IsKept v.il v.notes };
}

impl Verifier {
    /// A verifier that no line was given to. It takes no memory.
    pub fn new(alloc: Global, il: Il) -> Result<Verifier, VerifyFault>
        requires { IsSmallIl il }
        ensures { IsOkAnd result
            (λ verifier. verifier ≡ record { il = il; notes = nothing_noted; refusal = None }) }
    {
        Ok(Verifier {
            il,
            notes: no_notes(alloc),
            refusal: None,
        })
    }

    /// Takes the next line.
    pub fn judge(&mut self, alloc: Global, line: &Line) -> Result<(), VerifyFault>
        requires { length self.old.notes.lines < 2 ^ 32 }
        ensures judges { Judges self.old line.now result self.new }
        ensures one { (broken other : Option VerifyRule)
            → Verdict self.old.il self.old.notes line.now broken
            → Verdict self.old.il self.old.notes line.now other → broken ≡ other }
        ensures sound { (lines : List Line) → (notes : Notes) → ReadsTo self.old.il lines notes
            → AreSound self.old.il lines }
    {
        match self.refusal {
            Some(fault) => Err(fault),
            None => self.judge_next(alloc, line),
        }
    }

    /// Takes the next line where none was refused.
    fn judge_next(&mut self, alloc: Global, line: &Line) -> Result<(), VerifyFault>
        requires { length self.old.notes.lines < 2 ^ 32 }
        ensures { JudgesNext self.old line.now result self.new }
    {
        if let Some(rule) = broken_rule(&self.il, &self.notes, line) {
            return Err(self.refuse(rule));
        }
        note(&mut self.notes, alloc, line)?;
        Ok(())
    }

    /// Takes the next line, as its bytes without the line feed.
    pub fn feed(&mut self, alloc: Global, line: &[u8]) -> Result<(), VerifyFault>
        requires { length self.old.notes.lines < 2 ^ 32 }
        ensures { Feeds self.old line.now result self.new }
    {
        match self.refusal {
            Some(fault) => Err(fault),
            None => self.feed_next(alloc, line),
        }
    }

    /// Takes the next line, as its bytes, where none was refused.
    fn feed_next(&mut self, alloc: Global, line: &[u8]) -> Result<(), VerifyFault>
        requires { length self.old.notes.lines < 2 ^ 32 }
        ensures { FeedsNext self.old line.now result self.new }
    {
        match read_line(alloc, line) {
            Ok(line) => self.judge_next(alloc, &line),
            Err(TextFault::Malformed { line: _ }) => Err(self.refuse(VerifyRule::V3)),
            Err(TextFault::Memory) => Err(VerifyFault::Memory),
        }
    }

    /// Takes a next line that is malformed. It takes no memory.
    pub fn judge_malformed(&mut self) -> Result<(), VerifyFault>
        ensures { UnlessRefused self.old result self.new (Refuses V3 self.old result self.new) }
    {
        match self.refusal {
            Some(fault) => Err(fault),
            None => Err(self.refuse(VerifyRule::V3)),
        }
    }

    /// Ends the derivation behind its last line. It takes no memory.
    pub fn finish(&mut self) -> Result<Accepted, VerifyFault>
        ensures finishes { Finishes self.old result self.new }
        ensures sound { (lines : List Line) → Accepts IsSmallIl self.old.il lines
            → AreSound self.old.il lines }
    {
        match self.refusal {
            Some(fault) => Err(fault),
            None if self.notes.ended => Ok(Accepted {
                lines: self.notes.lines.len() as u64,
                steps: self.notes.steps,
            }),
            None => Err(self.refuse(VerifyRule::V12)),
        }
    }

    /// Refuses the next line by a rule, and keeps the refusal.
    fn refuse(&mut self, rule: VerifyRule) -> VerifyFault
        ensures fault { result ≡ refusal_by rule self.old.notes }
        ensures kept { self.new
            ≡ record self.old { refusal = Some (refusal_by rule self.old.notes) } }
    {
        let fault = VerifyFault::Refused {
            rule,
            line: self.notes.lines.len() as u64 + 1,
            typing: None,
        };
        self.refusal = Some(fault);
        fault
    }
}
