//! The second pass over a text: the blocks of its functions.

ghost use Rattle.std.specs.Prelude.{◌≡◌, MatchResult, Ok, Err};
ghost use Rattle.oat_lines.specs.Faults.{Gives};
ghost use Rattle.oat_lines.specs.Lines.{words_of};

use crate::fault::{TextFault, TextFaultKind};
use crate::form::{InstrForm, LineForm, TermForm, line_form};
use crate::outline::Outline;
use crate::pass::Pass;
use crate::scope::Scope;
use crate::word::name_at;
use oat_ir::{BlockIr, Instr, Listed, Term};
use oat_lines::{Fault, at_line};
use oat_map::Name;
use std::alloc::Global;
use std::marker::Model;
use std::mem;

/// What the lines so far give.
#[derive(Drop)]
pub struct Bodies<'o> {
    alloc: Global,
    pub outline: &'o Outline,
    /// The blocks of the functions that have ended.
    pub ended: Vec<Listed<BlockIr>>,
    /// The blocks of the present function.
    pub blocks: Vec<BlockIr>,
    /// The label of the present block.
    pub label: Option<Name>,
    pub instrs: Vec<Instr>,
}

impl<'o> Model for Bodies<'o> {
    ghost use Rattle.oat_text.specs.Bodies.{Bodies as Filled};

    ghost Value = { Filled };

    ghost view = { λ b. record { outline = b.outline.now; ended = b.ended.items; blocks = b.blocks.items; label = b.label; instrs = b.instrs.items } };
}

impl Bodies<'_> {
    ghost use Rattle.oat_text.specs.Scoped.{scoped};
    ghost use Rattle.oat_text.specs.Bodies.{no_bodies, scope_in, instr_in, term_in, instr_line, term_line, fill};

    pub fn new(outline: &Outline) -> Bodies<'_>
        ensures { result ≡ no_bodies outline.now }
    {
        Bodies {
            alloc: outline.alloc,
            outline,
            ended: Vec::new(outline.alloc),
            blocks: Vec::new(outline.alloc),
            label: None,
            instrs: Vec::new(outline.alloc),
        }
    }

    /// The blocks of the functions that have ended.
    pub fn into_ended(self) -> Vec<Listed<BlockIr>>
        ensures { result.items ≡ self.entry.ended }
    {
        self.ended
    }

    fn scope(&self) -> Result<Scope<'_>, TextFaultKind>
        ensures { MatchResult result (λ scope. scope_in self.now ≡ Ok (scoped scope)) (λ kind. scope_in self.now ≡ Err kind) }
    {
        let outline = self.outline;
        match outline.heads.get(self.ended.len()) {
            Some(head) => Ok(Scope {
                globals: &outline.globals,
                funcs: &outline.funcs,
                locals: &head.locals,
                labels: &head.labels,
            }),
            None => Err(TextFaultKind::Unknown),
        }
    }

    #[tactic(auto, unfolding(crate::specs::Bodies::instr_in))]
    fn instr_in(&self, form: InstrForm, words: &[u8]) -> Result<Instr, TextFaultKind>
        ensures { result ≡ instr_in self.now form (words_of words.now) }
    {
        let scope = self.scope()?;
        scope.instr_in(form, words)
    }

    #[tactic(auto, unfolding(crate::specs::Bodies::term_in))]
    fn term_in(&self, form: TermForm, words: &[u8]) -> Result<Term, TextFaultKind>
        ensures { result ≡ term_in self.now form (words_of words.now) }
    {
        let scope = self.scope()?;
        scope.term_in(form, words)
    }

    #[tactic(auto, unfolding(crate::specs::Bodies::instr_line))]
    fn take_instr(&mut self, line: u32, form: InstrForm, words: &[u8]) -> Result<(), TextFault>
        ensures { Gives (λ _. self.new) result (instr_line line self.old form (words_of words.now)) }
    {
        let instr = at_line(line, self.instr_in(form, words))?;
        self.instrs.push(instr)?;
        Ok(())
    }

    #[tactic(auto, unfolding(crate::specs::Bodies::term_line))]
    fn take_term(&mut self, line: u32, form: TermForm, words: &[u8]) -> Result<(), TextFault>
        ensures { Gives (λ _. self.new) result (term_line line self.old form (words_of words.now)) }
    {
        let term = at_line(line, self.term_in(form, words))?;
        let label = self
            .label
            .take()
            .ok_or(Fault::At(line, TextFaultKind::Unknown))?;
        let instrs = mem::replace(&mut self.instrs, Vec::new(self.alloc));
        self.blocks.push(BlockIr {
            label,
            instrs: Listed::from_vec(instrs),
            term,
        })?;
        Ok(())
    }

    /// Takes what a line of this form gives.
    #[tactic(auto, unfolding(crate::specs::Bodies::fill))]
    fn fill(&mut self, line: u32, form: LineForm, words: &[u8]) -> Result<(), TextFault>
        ensures { Gives (λ _. self.new) result (fill line self.old form (words_of words.now)) }
    {
        match form {
            LineForm::Block => {
                self.label = name_at(words, 0);
                Ok(())
            }
            LineForm::Instr(form) => self.take_instr(line, form, words),
            LineForm::Term(form) => self.take_term(line, form, words),
            LineForm::End => {
                let blocks = mem::replace(&mut self.blocks, Vec::new(self.alloc));
                self.ended.push(Listed::from_vec(blocks))?;
                Ok(())
            }
            LineForm::Global(_) | LineForm::Func(_) | LineForm::Local => Ok(()),
        }
    }
}

impl Pass for Bodies<'_> {
    ghost use Rattle.oat_text.specs.Bodies.{body_line};

    ghost takes = { body_line };

    #[tactic(auto, unfolding(crate::specs::Bodies::body_line))]
    fn take(&mut self, line: u32, first: &[u8], words: &[u8]) -> Result<(), TextFault> {
        let form = line_form(first).ok_or(Fault::At(line, TextFaultKind::Unknown))?;
        self.fill(line, form, words)
    }
}
