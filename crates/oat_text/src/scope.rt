//! The names that a line of a function may use, and the instructions that it spells by them.

ghost use Rattle.std.specs.Prelude.{◌≡◌, ◌≤◌, drop, slice_get, length};
ghost use Rattle.oat_lines.specs.Lines.{words_of};
ghost use Rattle.oat_text.specs.Scoped.{scoped};
ghost use Rattle.oat_text.specs.Bodies.{global_index, func_index, local_index, label_index, argument, arguments, const_of, copy_of, binary_of, load_of, store_of, loadx_of, storex_of, ref_of, call_of, icall_of, instr_of, branch_of, term_of};

use crate::fault::TextFaultKind;
use crate::form::{InstrForm, TermForm};
use crate::table::Table;
use crate::word::{i64_in, word_at};
use oat_ir::{Args, BinOp, GlobalItem, Instr, Local, Term};
use oat_lines::first_word;
use oat_map::Name;

/// The names that a line of a function may use.
#[derive(Clone, Copy)]
pub struct Scope<'a> {
    pub globals: &'a Table<GlobalItem>,
    pub funcs: &'a Table<Name>,
    pub locals: &'a Table<Local>,
    pub labels: &'a Table<Name>,
}

impl Scope<'_> {
    fn global(&self, words: &[u8], place: usize) -> Result<u32, TextFaultKind>
        ensures { result ≡ global_index (scoped self.now) (words_of words.now) place }
    {
        let word = word_at(words, place).ok_or(TextFaultKind::Unknown)?;
        self.globals.number(word).ok_or(TextFaultKind::Unknown)
    }

    fn func(&self, words: &[u8], place: usize) -> Result<u32, TextFaultKind>
        ensures { result ≡ func_index (scoped self.now) (words_of words.now) place }
    {
        let word = word_at(words, place).ok_or(TextFaultKind::Unknown)?;
        self.funcs.number(word).ok_or(TextFaultKind::Unknown)
    }

    fn local(&self, words: &[u8], place: usize) -> Result<u32, TextFaultKind>
        ensures { result ≡ local_index (scoped self.now) (words_of words.now) place }
    {
        let word = word_at(words, place).ok_or(TextFaultKind::Unknown)?;
        self.argument(word)
    }

    fn label(&self, words: &[u8], place: usize) -> Result<u32, TextFaultKind>
        ensures { result ≡ label_index (scoped self.now) (words_of words.now) place }
    {
        let word = word_at(words, place).ok_or(TextFaultKind::Unknown)?;
        self.labels.number(word).ok_or(TextFaultKind::Unknown)
    }

    fn argument(&self, word: &[u8]) -> Result<u32, TextFaultKind>
        ensures { result ≡ argument (scoped self.now) word.now }
    {
        self.locals.number(word).ok_or(TextFaultKind::Unknown)
    }

    #[tactic(auto, unfolding(crate::specs::Bodies::const_of))]
    fn const_in(&self, words: &[u8]) -> Result<Instr, TextFaultKind>
        ensures { result ≡ const_of (scoped self.now) (words_of words.now) }
    {
        let x = self.local(words, 0)?;
        let word = word_at(words, 1).ok_or(TextFaultKind::Number)?;
        let value = i64_in(word).ok_or(TextFaultKind::Number)?;
        Ok(Instr::Const { x, value })
    }

    #[tactic(auto, unfolding(crate::specs::Bodies::copy_of))]
    fn copy_in(&self, words: &[u8]) -> Result<Instr, TextFaultKind>
        ensures { result ≡ copy_of (scoped self.now) (words_of words.now) }
    {
        let x = self.local(words, 0)?;
        let y = self.local(words, 1)?;
        Ok(Instr::Copy { x, y })
    }

    #[tactic(auto, unfolding(crate::specs::Bodies::binary_of))]
    fn binary_in(&self, op: BinOp, words: &[u8]) -> Result<Instr, TextFaultKind>
        ensures { result ≡ binary_of (scoped self.now) op (words_of words.now) }
    {
        let x = self.local(words, 0)?;
        let y = self.local(words, 1)?;
        let z = self.local(words, 2)?;
        Ok(Instr::Binary { op, x, y, z })
    }

    #[tactic(auto, unfolding(crate::specs::Bodies::load_of))]
    fn load_in(&self, words: &[u8]) -> Result<Instr, TextFaultKind>
        ensures { result ≡ load_of (scoped self.now) (words_of words.now) }
    {
        let x = self.local(words, 0)?;
        let global = self.global(words, 1)?;
        Ok(Instr::Load { x, global })
    }

    #[tactic(auto, unfolding(crate::specs::Bodies::store_of))]
    fn store_in(&self, words: &[u8]) -> Result<Instr, TextFaultKind>
        ensures { result ≡ store_of (scoped self.now) (words_of words.now) }
    {
        let global = self.global(words, 0)?;
        let x = self.local(words, 1)?;
        Ok(Instr::Store { global, x })
    }

    #[tactic(auto, unfolding(crate::specs::Bodies::loadx_of))]
    fn loadx_in(&self, words: &[u8]) -> Result<Instr, TextFaultKind>
        ensures { result ≡ loadx_of (scoped self.now) (words_of words.now) }
    {
        let x = self.local(words, 0)?;
        let array = self.global(words, 1)?;
        let i = self.local(words, 2)?;
        Ok(Instr::LoadX { x, array, i })
    }

    #[tactic(auto, unfolding(crate::specs::Bodies::storex_of))]
    fn storex_in(&self, words: &[u8]) -> Result<Instr, TextFaultKind>
        ensures { result ≡ storex_of (scoped self.now) (words_of words.now) }
    {
        let array = self.global(words, 0)?;
        let i = self.local(words, 1)?;
        let x = self.local(words, 2)?;
        Ok(Instr::StoreX { array, i, x })
    }

    #[tactic(auto, unfolding(crate::specs::Bodies::ref_of))]
    fn ref_in(&self, words: &[u8]) -> Result<Instr, TextFaultKind>
        ensures { result ≡ ref_of (scoped self.now) (words_of words.now) }
    {
        let x = self.local(words, 0)?;
        let func = self.func(words, 1)?;
        Ok(Instr::RefTo { x, func })
    }

    fn args_in(&self, words: &[u8]) -> Result<Args, TextFaultKind>
        ensures { result ≡ arguments (scoped self.now) 4 (words_of words.now) }
    {
        let mut locals = [0; 4];
        let mut len = 0;
        let mut rest = words;
        'words: while let Some((word, after)) = first_word(rest) {
            if len == 4 {
                return Err(TextFaultKind::Unknown);
            }
            locals[len] = self.argument(word)?;
            len += 1;
            rest = after;
        }
        match Args::new(&locals[..len]) {
            Some(args) => Ok(args),
            None => Err(TextFaultKind::Unknown),
        }
    }

    #[tactic(auto, unfolding(crate::specs::Bodies::call_of))]
    fn call_in(&self, words: &[u8]) -> Result<Instr, TextFaultKind>
        ensures { result ≡ call_of (scoped self.now) (words_of words.now) }
    {
        let x = self.local(words, 0)?;
        let func = self.func(words, 1)?;
        let args = self.args_in(behind_two(words))?;
        Ok(Instr::Call { x, func, args })
    }

    #[tactic(auto, unfolding(crate::specs::Bodies::icall_of))]
    fn icall_in(&self, words: &[u8]) -> Result<Instr, TextFaultKind>
        ensures { result ≡ icall_of (scoped self.now) (words_of words.now) }
    {
        let x = self.local(words, 0)?;
        let y = self.local(words, 1)?;
        let args = self.args_in(behind_two(words))?;
        Ok(Instr::ICall { x, y, args })
    }

    /// The instruction that a line of this form spells.
    #[tactic(auto, unfolding(crate::specs::Bodies::instr_of))]
    pub fn instr_in(&self, form: InstrForm, words: &[u8]) -> Result<Instr, TextFaultKind>
        ensures { result ≡ instr_of (scoped self.now) form (words_of words.now) }
    {
        match form {
            InstrForm::Const => self.const_in(words),
            InstrForm::Copy => self.copy_in(words),
            InstrForm::Binary(op) => self.binary_in(op, words),
            InstrForm::Load => self.load_in(words),
            InstrForm::Store => self.store_in(words),
            InstrForm::LoadX => self.loadx_in(words),
            InstrForm::StoreX => self.storex_in(words),
            InstrForm::RefTo => self.ref_in(words),
            InstrForm::Call => self.call_in(words),
            InstrForm::ICall => self.icall_in(words),
            InstrForm::Input => {
                let x = self.local(words, 0)?;
                Ok(Instr::Input { x })
            }
            InstrForm::Output => {
                let x = self.local(words, 0)?;
                Ok(Instr::Output { x })
            }
        }
    }

    #[tactic(auto, unfolding(crate::specs::Bodies::branch_of))]
    fn branch_in(&self, words: &[u8]) -> Result<Term, TextFaultKind>
        ensures { result ≡ branch_of (scoped self.now) (words_of words.now) }
    {
        let x = self.local(words, 0)?;
        let first = self.label(words, 1)?;
        let second = self.label(words, 2)?;
        Ok(Term::Branch { x, first, second })
    }

    /// The terminator that a line of this form spells.
    #[tactic(auto, unfolding(crate::specs::Bodies::term_of))]
    pub fn term_in(&self, form: TermForm, words: &[u8]) -> Result<Term, TextFaultKind>
        ensures { result ≡ term_of (scoped self.now) form (words_of words.now) }
    {
        match form {
            TermForm::Jump => {
                let to = self.label(words, 0)?;
                Ok(Term::Jump { to })
            }
            TermForm::Branch => self.branch_in(words),
            TermForm::Ret => {
                let x = self.local(words, 0)?;
                Ok(Term::Ret { x })
            }
            TermForm::Halt => Ok(Term::Halt),
        }
    }
}

fn behind_two(words: &[u8]) -> &[u8]
    ensures { words_of result.now ≡ drop 2 (words_of words.now) }
{
    match first_word(words) {
        None => words,
        Some((_, rest)) => match first_word(rest) {
            None => rest,
            Some((_, after)) => after,
        },
    }
}
