ghost use Rattle.std.specs.Prelude.{◌≡◌, ◌==◌, [], length, option_map, if◌then◌else◌, Some, None};
ghost use Rattle.oat_lines.specs.Faults.{Gives};
ghost use Rattle.std.specs.Str.{bytes_eq};
ghost use Rattle.oat_lines.specs.Lines.{words_of, is_comment};
ghost use Rattle.oat_case.specs.Reading.{bytes_at, numeral_at, key_line, nonce_line, operation_line, steps_line, calls_line, input_line, write_of, add_write, write_line, statement_line, header_line, line_of, session_of, whole, nothing_yet};

use crate::case::{Case, Key, Session, Write};
use crate::fault::{CaseFault, CaseFaultKind};
use crate::limits::{
    is_call_count, is_key_in_range, is_operation, is_step_limit, is_write_in_data,
    is_write_in_range,
};
use crate::number::{address, integer};
use hex::FromHexError;
use oat_lines::{first_word, read_numeral, sole_word, three_words};
use oat_list::Listed;
use std::alloc::Global;

/// What the lines so far have gathered.
#[derive(Drop)]
pub struct Draft {
    pub begun: bool,
    pub key: Option<Key>,
    pub nonce: Option<[u8; 16]>,
    pub operation: Option<u16>,
    pub steps: Option<u64>,
    pub calls: Option<u32>,
    pub inputs: Vec<i64>,
    pub writes: Vec<Write>,
    /// The number below which no further write may be.
    pub least: u64,
}

/// The bytes of a word of hexadecimal digits, two for each.
pub fn bytes(alloc: Global, line: u32, word: &[u8]) -> Result<Vec<u8>, CaseFault>
    ensures { Gives (λ bytes. bytes.items) result (bytes_at line word.now) }
{
    match hex::decode(alloc, word) {
        Ok(bytes) => Ok(bytes),
        Err(FromHexError::OutOfMemory) => Err(CaseFault::Memory),
        Err(_) => Err(CaseFault::At(line, CaseFaultKind::Token)),
    }
}

fn nonce_of(bytes: &[u8]) -> Option<[u8; 16]>
    ensures { result ≡ (if length bytes.now == 16 then Some bytes.now else None) }
{
    if bytes.len() == 16 {
        bytes.first_chunk::<16>().copied()
    } else {
        None
    }
}

/// A decimal number, and `u64::MAX` in place of any above it.
fn number(line: u32, word: &[u8]) -> Result<u64, CaseFault>
    ensures { result ≡ numeral_at line word.now }
{
    read_numeral(word).ok_or(CaseFault::At(line, CaseFaultKind::Token))
}

fn is_word(word: &[u8], wanted: &[u8]) -> bool
    ensures { result ≡ bytes_eq word.now wanted.now }
{
    word == wanted
}

fn begins_comment(word: &[u8]) -> bool
    ensures { result ≡ is_comment word.now }
{
    !word.is_empty() && word[0] == b';'
}

#[tactic(auto, unfolding(crate::specs::Reading::write_of))]
fn write_from(
    alloc: Global,
    line: u32,
    before: &[u8],
    place: &[u8],
    digits: &[u8],
) -> Result<Write, CaseFault>
    ensures { Gives (λ write. write) result (write_of line (before.now, place.now, digits.now)) }
{
    let before = number(line, before)?;
    let address = address(place).ok_or(CaseFault::At(line, CaseFaultKind::Token))?;
    let bytes = bytes(alloc, line, digits)?;
    Ok(Write {
        before,
        address,
        bytes: Listed::from_vec(bytes),
    })
}

fn session_from(
    line: u32,
    key: Option<Key>,
    nonce: Option<[u8; 16]>,
    operation: Option<u16>,
    calls: Option<u32>,
) -> Result<Session, CaseFault>
    ensures { result ≡ session_of line key nonce operation calls }
{
    let key = key.ok_or(CaseFault::At(line, CaseFaultKind::Missing))?;
    let nonce = nonce.ok_or(CaseFault::At(line, CaseFaultKind::Missing))?;
    let op = operation.ok_or(CaseFault::At(line, CaseFaultKind::Missing))?;
    Ok(Session {
        key,
        nonce,
        op,
        calls,
    })
}

impl Draft {
    ghost use Rattle.oat_case.specs.Draft.{gathered};

    #[tactic(auto, unfolding(crate::specs::Reading::key_line))]
    pub fn take_key(&mut self, alloc: Global, line: u32, words: &[u8]) -> Result<(), CaseFault>
        ensures { Gives (λ _. gathered self.new) result (key_line line (gathered self.old) (words_of words.now)) }
    {
        let word = sole_word(words).ok_or(CaseFault::At(line, CaseFaultKind::Token))?;
        let key = bytes(alloc, line, word)?;
        if self.key.is_some() {
            return Err(CaseFault::At(line, CaseFaultKind::Twice));
        }
        if !is_key_in_range(&key) {
            return Err(CaseFault::At(line, CaseFaultKind::Range));
        }
        self.key = Some(Listed::from_vec(key));
        Ok(())
    }

    #[tactic(auto, unfolding(crate::specs::Reading::nonce_line))]
    pub fn take_nonce(&mut self, alloc: Global, line: u32, words: &[u8]) -> Result<(), CaseFault>
        ensures { Gives (λ _. gathered self.new) result (nonce_line line (gathered self.old) (words_of words.now)) }
    {
        let word = sole_word(words).ok_or(CaseFault::At(line, CaseFaultKind::Token))?;
        let bytes = bytes(alloc, line, word)?;
        if self.nonce.is_some() {
            return Err(CaseFault::At(line, CaseFaultKind::Twice));
        }
        let nonce = nonce_of(&bytes).ok_or(CaseFault::At(line, CaseFaultKind::Range))?;
        self.nonce = Some(nonce);
        Ok(())
    }

    #[tactic(auto, unfolding(crate::specs::Reading::operation_line))]
    pub fn take_operation(&mut self, line: u32, words: &[u8]) -> Result<(), CaseFault>
        ensures { Gives (λ _. gathered self.new) result (operation_line line (gathered self.old) (words_of words.now)) }
    {
        let word = sole_word(words).ok_or(CaseFault::At(line, CaseFaultKind::Token))?;
        let id = number(line, word)?;
        if self.operation.is_some() {
            return Err(CaseFault::At(line, CaseFaultKind::Twice));
        }
        if !is_operation(id) {
            return Err(CaseFault::At(line, CaseFaultKind::Range));
        }
        self.operation = Some(id as u16);
        Ok(())
    }

    #[tactic(auto, unfolding(crate::specs::Reading::steps_line))]
    pub fn take_steps(&mut self, line: u32, words: &[u8]) -> Result<(), CaseFault>
        ensures { Gives (λ _. gathered self.new) result (steps_line line (gathered self.old) (words_of words.now)) }
    {
        let word = sole_word(words).ok_or(CaseFault::At(line, CaseFaultKind::Token))?;
        let steps = number(line, word)?;
        if self.steps.is_some() {
            return Err(CaseFault::At(line, CaseFaultKind::Twice));
        }
        if !is_step_limit(steps) {
            return Err(CaseFault::At(line, CaseFaultKind::Range));
        }
        self.steps = Some(steps);
        Ok(())
    }

    #[tactic(auto, unfolding(crate::specs::Reading::calls_line))]
    pub fn take_calls(&mut self, line: u32, words: &[u8]) -> Result<(), CaseFault>
        ensures { Gives (λ _. gathered self.new) result (calls_line line (gathered self.old) (words_of words.now)) }
    {
        let word = sole_word(words).ok_or(CaseFault::At(line, CaseFaultKind::Token))?;
        let calls = number(line, word)?;
        if self.calls.is_some() {
            return Err(CaseFault::At(line, CaseFaultKind::Twice));
        }
        if !is_call_count(calls) {
            return Err(CaseFault::At(line, CaseFaultKind::Range));
        }
        self.calls = Some(calls as u32);
        Ok(())
    }

    #[tactic(auto, unfolding(crate::specs::Reading::input_line))]
    pub fn take_input(&mut self, line: u32, words: &[u8]) -> Result<(), CaseFault>
        ensures { Gives (λ _. gathered self.new) result (input_line line (gathered self.old) (words_of words.now)) }
    {
        let word = sole_word(words).ok_or(CaseFault::At(line, CaseFaultKind::Token))?;
        let input = integer(line, word)?;
        self.inputs.push(input)?;
        Ok(())
    }

    #[tactic(auto, unfolding(crate::specs::Reading::add_write))]
    fn add_write(&mut self, line: u32, write: Write) -> Result<(), CaseFault>
        ensures { Gives (λ _. gathered self.new) result (add_write line (gathered self.old) write) }
    {
        if !is_write_in_range(&write) {
            return Err(CaseFault::At(line, CaseFaultKind::Range));
        }
        if !is_write_in_data(&write) {
            return Err(CaseFault::At(line, CaseFaultKind::OutsideData));
        }
        if write.before < self.least {
            return Err(CaseFault::At(line, CaseFaultKind::Order));
        }
        let before = write.before;
        self.writes.push(write)?;
        self.least = before;
        Ok(())
    }

    #[tactic(auto, unfolding(crate::specs::Reading::write_line))]
    fn take_write(&mut self, alloc: Global, line: u32, words: &[u8]) -> Result<(), CaseFault>
        ensures { Gives (λ _. gathered self.new) result (write_line line (gathered self.old) (words_of words.now)) }
    {
        let (before, place, digits) = three_words(words).ok_or(CaseFault::At(
            line,
            CaseFaultKind::Token,
        ))?;
        let write = write_from(alloc, line, before, place, digits)?;
        self.add_write(line, write)
    }

    #[tactic(auto, unfolding(crate::specs::Reading::statement_line))]
    fn take_statement(
        &mut self,
        alloc: Global,
        line: u32,
        keyword: &[u8],
        words: &[u8],
    ) -> Result<(), CaseFault>
        ensures { Gives (λ _. gathered self.new) result (statement_line line (gathered self.old) keyword.now (words_of words.now)) }
    {
        if is_word(keyword, b"key") {
            self.take_key(alloc, line, words)
        } else if is_word(keyword, b"nonce") {
            self.take_nonce(alloc, line, words)
        } else if is_word(keyword, b"operation") {
            self.take_operation(line, words)
        } else if is_word(keyword, b"steps") {
            self.take_steps(line, words)
        } else if is_word(keyword, b"calls") {
            self.take_calls(line, words)
        } else if is_word(keyword, b"input") {
            self.take_input(line, words)
        } else if is_word(keyword, b"write") {
            self.take_write(alloc, line, words)
        } else {
            Err(CaseFault::At(line, CaseFaultKind::Token))
        }
    }

    #[tactic(auto, unfolding(crate::specs::Reading::header_line))]
    fn take_header(&mut self, line: u32, first: &[u8], words: &[u8]) -> Result<(), CaseFault>
        ensures { Gives (λ _. gathered self.new) result (header_line line (gathered self.old) first.now (words_of words.now)) }
    {
        let version = sole_word(words).ok_or(CaseFault::At(line, CaseFaultKind::Token))?;
        if !is_word(first, b"oat-case") || !is_word(version, b"1") {
            return Err(CaseFault::At(line, CaseFaultKind::Token));
        }
        self.begun = true;
        Ok(())
    }

    /// Takes what a line says, or skips it.
    #[tactic(auto, unfolding(crate::specs::Reading::line_of))]
    pub fn take_line(&mut self, alloc: Global, number: u32, line: &[u8]) -> Result<(), CaseFault>
        ensures { Gives (λ _. gathered self.new) result (line_of number (gathered self.old) (words_of line.now)) }
    {
        match first_word(line) {
            None => Ok(()),
            Some((first, words)) => {
                if begins_comment(first) {
                    Ok(())
                } else if self.begun {
                    self.take_statement(alloc, number, first, words)
                } else {
                    self.take_header(number, first, words)
                }
            }
        }
    }

    /// The case, where nothing is wanting.
    #[tactic(auto, unfolding(crate::specs::Reading::whole))]
    pub fn finish(self, line: u32) -> Result<Case, CaseFault>
        ensures { result ≡ whole line (gathered self) }
    {
        if !self.begun {
            return Err(CaseFault::At(line, CaseFaultKind::Missing));
        }
        let session = session_from(line, self.key, self.nonce, self.operation, self.calls)?;
        let steps = self
            .steps
            .ok_or(CaseFault::At(line, CaseFaultKind::Missing))?;
        Ok(Case {
            session,
            steps,
            inputs: Listed::from_vec(self.inputs),
            writes: Listed::from_vec(self.writes),
        })
    }

    pub fn new(alloc: Global) -> Self
        ensures { gathered result ≡ nothing_yet }
    {
        Draft {
            begun: false,
            key: None,
            nonce: None,
            operation: None,
            steps: None,
            calls: None,
            inputs: Vec::new(alloc),
            writes: Vec::new(alloc),
            least: 0,
        }
    }
}
