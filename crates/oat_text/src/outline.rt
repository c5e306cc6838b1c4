//! The first pass over a text: what its lines declare.

ghost use Rattle.std.specs.Prelude.{◌≡◌, ◌≤◌, ◌+◌, true, length, OnOk};
ghost use Rattle.oat_lines.specs.Faults.{Gives};
ghost use Rattle.oat_lines.specs.Lines.{words_of};
ghost use Rattle.oat_text.specs.Forms.{func_kinds};
ghost use Rattle.oat_text.specs.Outline.{add_parameter, add_parameters};

use crate::fault::{TextFault, TextFaultKind};
use crate::form::{FuncForm, GlobalForm, LineForm};
use crate::global::global_in;
use crate::head::{Head, Stage};
use crate::pass::Pass;
use crate::table::Table;
use crate::tested::tested;
use crate::word::{id_first, local_at, name_at, name_first, parameter_in};
use indexmap::IndexSet;
use oat_ir::{GlobalItem, Local, Role};
use oat_lines::{Fault, at_line, first_word};
use oat_map::Name;
use std::alloc::Global;
use std::marker::Model;
use std::mem;

/// What the lines so far declare.
#[derive(Drop)]
pub struct Outline {
    pub alloc: Global,
    pub globals: Table<GlobalItem>,
    /// The numbers of the operations.
    pub operations: IndexSet<u16>,
    /// The names of the functions that have begun.
    pub funcs: Table<Name>,
    /// The functions that have ended.
    pub heads: Vec<Head>,
    /// The function that hasn't.
    pub present: Head,
    pub stage: Stage,
}

impl Model for Outline {
    ghost use Rattle.oat_text.specs.Outline.{Outline as Declared};

    ghost Value = { Declared };

    ghost view = { λ o. record { globals = o.globals; operations = o.operations.keys; funcs = o.funcs; heads = o.heads.items; present = o.present; stage = o.stage } };
}

#[tactic(auto, unfolding(crate::specs::Outline::add_parameter))]
fn add_parameter(line: u32, locals: &mut Table<Local>, word: &[u8]) -> Result<(), TextFault>
    ensures added { Gives (λ _. locals.new) result (add_parameter line locals.old word.now) }
    ensures more { OnOk result (length locals.new ≡ length locals.old + 1) }
{
    let parameter = parameter_in(word).ok_or(Fault::At(line, TextFaultKind::Token))?;
    locals.declare(line, parameter)
}

/// Declares the parameters that these words are.
fn add_parameters(line: u32, locals: &mut Table<Local>, words: &[u8]) -> Result<(), TextFault>
    ensures added { Gives (λ _. locals.new) result (add_parameters line locals.old (words_of words.now)) }
    ensures length { OnOk result (length locals.new ≡ length locals.old + length (words_of words.now)) }
{
    let mut rest = words;
    'words: while let Some((word, after)) = first_word(rest) {
        add_parameter(line, locals, word)?;
        rest = after;
    }
    Ok(())
}

impl Outline {
    ghost use Rattle.oat_text.specs.Outline.{nothing, global_line, begin_func, begin_operation, plain_line, operation_line, func_line, local_line, block_line, declare, is_outside};
    ghost use Rattle.oat_text.specs.Readings.{has_number};

    pub fn new(alloc: Global) -> Outline
        ensures { result ≡ nothing }
    {
        Outline {
            alloc,
            globals: Table::new(alloc),
            operations: IndexSet::new(alloc),
            funcs: Table::new(alloc),
            heads: Vec::new(alloc),
            present: Head::new(alloc),
            stage: Stage::Outside,
        }
    }

    #[tactic(auto, unfolding(crate::specs::Outline::global_line))]
    fn take_global(&mut self, line: u32, form: GlobalForm, words: &[u8]) -> Result<(), TextFault>
        ensures { Gives (λ _. self.new) result (global_line line self.old form (words_of words.now)) }
    {
        let item = at_line(line, global_in(form, words))?;
        self.globals.declare(line, item)
    }

    #[tactic(auto, unfolding(crate::specs::Outline::begin_func))]
    fn begin_func(
        &mut self,
        line: u32,
        role: Role,
        name: Name,
        words: &[u8],
    ) -> Result<(), TextFault>
        requires { length (words_of words.now) ≤ 4 }
        ensures { Gives (λ _. self.new) result (begin_func line self.old role name (words_of words.now)) }
    {
        self.funcs.declare(line, name)?;
        let mut locals = Table::new(self.alloc);
        add_parameters(line, &mut locals, words)?;
        self.present = Head {
            role,
            params: locals.len() as u8,
            locals,
            labels: Table::new(self.alloc),
        };
        self.stage = Stage::Locals;
        Ok(())
    }

    #[tactic(auto, unfolding(crate::specs::Outline::begin_operation))]
    fn begin_operation(
        &mut self,
        line: u32,
        id: u16,
        name: Name,
        words: &[u8],
    ) -> Result<(), TextFault>
        requires { length (words_of words.now) ≤ 4 }
        ensures { Gives (λ _. self.new) result (begin_operation line self.old id name (words_of words.now)) }
    {
        if self.operations.contains(&id) {
            return Err(Fault::At(line, TextFaultKind::Duplicate));
        }
        self.operations.insert(id)?;
        self.begin_func(line, Role::Operation(id), name, words)
    }

    #[tactic(auto, unfolding(crate::specs::Outline::local_line))]
    fn take_local(&mut self, line: u32, words: &[u8]) -> Result<(), TextFault>
        ensures { Gives (λ _. self.new) result (local_line line self.old (words_of words.now)) }
    {
        let local = local_at(words).ok_or(Fault::At(line, TextFaultKind::Token))?;
        self.present.locals.declare(line, local)
    }

    #[tactic(auto, unfolding(crate::specs::Outline::block_line))]
    fn take_block(&mut self, line: u32, words: &[u8]) -> Result<(), TextFault>
        ensures { Gives (λ _. self.new) result (block_line line self.old (words_of words.now)) }
    {
        let label = name_at(words, 0).ok_or(Fault::At(line, TextFaultKind::Token))?;
        self.present.labels.declare(line, label)?;
        self.stage = Stage::Inside;
        Ok(())
    }

    #[tactic(auto, unfolding(crate::specs::Outline::plain_line))]
    fn begin_plain(&mut self, line: u32, words: &[u8]) -> Result<(), TextFault>
        requires { length (words_of words.now) ≤ 5 }
        ensures { Gives (λ _. self.new) result (plain_line line self.old (words_of words.now)) }
    {
        let (name, words) = name_first(words).ok_or(Fault::At(line, TextFaultKind::Token))?;
        self.begin_func(line, Role::Plain, name, words)
    }

    #[tactic(auto, unfolding(crate::specs::Outline::operation_line))]
    fn begin_numbered(&mut self, line: u32, words: &[u8]) -> Result<(), TextFault>
        requires { length (words_of words.now) ≤ 6 }
        ensures { Gives (λ _. self.new) result (operation_line line self.old (words_of words.now)) }
    {
        let (id, words) = id_first(words).ok_or(Fault::At(line, TextFaultKind::Number))?;
        let (name, words) = name_first(words).ok_or(Fault::At(line, TextFaultKind::Token))?;
        self.begin_operation(line, id, name, words)
    }

    #[tactic(auto, unfolding(crate::specs::Outline::func_line))]
    fn take_func(&mut self, line: u32, form: FuncForm, words: &[u8]) -> Result<(), TextFault>
        requires { length (words_of words.now) ≤ length (func_kinds form) }
        ensures { Gives (λ _. self.new) result (func_line line self.old form (words_of words.now)) }
    {
        match form {
            FuncForm::Plain => self.begin_plain(line, words),
            FuncForm::Operation => self.begin_numbered(line, words),
            FuncForm::Main => {
                let name = Name::new(b"main").ok_or(Fault::At(line, TextFaultKind::Token))?;
                self.begin_func(line, Role::Main, name, words)
            }
        }
    }

    /// Takes what a line of this form declares.
    #[tactic(auto, unfolding(crate::specs::Outline::declare))]
    fn declare(&mut self, line: u32, form: LineForm, words: &[u8]) -> Result<(), TextFault>
        requires { has_number form (words_of words.now) ≡ true }
        ensures { Gives (λ _. self.new) result (declare line self.old form (words_of words.now)) }
    {
        match form {
            LineForm::Global(form) => self.take_global(line, form, words),
            LineForm::Func(form) => self.take_func(line, form, words),
            LineForm::Local => self.take_local(line, words),
            LineForm::Block => self.take_block(line, words),
            LineForm::End => {
                let head = mem::replace(&mut self.present, Head::new(self.alloc));
                self.heads.push(head)?;
                self.stage = Stage::Outside;
                Ok(())
            }
            LineForm::Instr(_) => Ok(()),
            LineForm::Term(_) => {
                self.stage = Stage::Behind;
                Ok(())
            }
        }
    }

    pub fn is_outside(&self) -> bool
        ensures { result ≡ is_outside self.now.stage }
    {
        matches!(self.stage, Stage::Outside)
    }
}

impl Pass for Outline {
    ghost use Rattle.oat_text.specs.Outline.{outline_line};

    ghost takes = { outline_line };

    #[tactic(auto, unfolding(crate::specs::Outline::outline_line))]
    fn take(&mut self, line: u32, first: &[u8], words: &[u8]) -> Result<(), TextFault> {
        let form = at_line(
            line,
            tested(self.stage, self.funcs.is_empty(), first, words),
        )?;
        self.declare(line, form, words)
    }
}
