ghost use Rattle.std.specs.Prelude.{◌≡◌, []};
ghost use Rattle.oat_owner.specs.{Gives, words_of};
ghost use Rattle.oat_script.specs.Reading.{is_new, may_be_device, device_line, add_call, challenge_line, answer_line, statement_line, line_of, whole};

use crate::fault::{ScriptFault, ScriptFaultKind};
use crate::script::{Script, ScriptDevice};
use crate::word::{begins_comment, bytes, challenge, device, is_word};
use oat_lines::{first_word, sole_word, three_words};
use oat_list::Listed;
use oat_owner::OwnerCall;
use std::alloc::Global;

/// What the lines so far have read_so_far.
#[derive(Drop)]
pub struct Draft {
    pub devices: Vec<ScriptDevice>,
    pub calls: Vec<OwnerCall>,
}

fn is_new(devices: &[ScriptDevice], id: u32) -> bool
    ensures { result ≡ is_new devices.now id }
{
    for device in devices {
        if device.id == id {
            return false;
        }
    }
    true
}

impl Draft {
    ghost use Rattle.oat_script.specs.Draft.{read_so_far};

    pub fn new(alloc: Global) -> Self
        ensures { read_so_far result ≡ record { devices = []; calls = [] } }
    {
        Draft {
            devices: Vec::new(alloc),
            calls: Vec::new(alloc),
        }
    }

    fn may_be_device(&self) -> bool
        ensures { result ≡ may_be_device (read_so_far self.now) }
    {
        self.calls.is_empty() && self.devices.len() < 16
    }

    #[tactic(auto, unfolding(crate::specs::Reading::device_line))]
    fn take_device(&mut self, alloc: Global, line: u32, words: &[u8]) -> Result<(), ScriptFault>
        ensures { Gives (λ _. read_so_far self.new) result (device_line line (read_so_far self.old) (words_of words.now)) }
    {
        let (id, file, key) = three_words(words).ok_or(ScriptFault::At(
            line,
            ScriptFaultKind::Token,
        ))?;
        let device = device(alloc, line, id, file, key)?;
        if !is_new(&self.devices, device.id) {
            return Err(ScriptFault::At(line, ScriptFaultKind::Twice));
        }
        if !self.may_be_device() {
            return Err(ScriptFault::At(line, ScriptFaultKind::Order));
        }
        self.devices.push(device)?;
        Ok(())
    }

    #[tactic(auto, unfolding(crate::specs::Reading::add_call))]
    fn add_call(&mut self, line: u32, call: OwnerCall) -> Result<(), ScriptFault>
        ensures { Gives (λ _. read_so_far self.new) result (add_call line (read_so_far self.old) call) }
    {
        if self.devices.is_empty() {
            return Err(ScriptFault::At(line, ScriptFaultKind::Order));
        }
        self.calls.push(call)?;
        Ok(())
    }

    #[tactic(auto, unfolding(crate::specs::Reading::challenge_line))]
    fn take_challenge(&mut self, alloc: Global, line: u32, words: &[u8]) -> Result<(), ScriptFault>
        ensures { Gives (λ _. read_so_far self.new) result (challenge_line line (read_so_far self.old) (words_of words.now)) }
    {
        let (id, op, nonce) = three_words(words).ok_or(ScriptFault::At(
            line,
            ScriptFaultKind::Token,
        ))?;
        let call = challenge(alloc, line, id, op, nonce)?;
        self.add_call(line, call)
    }

    #[tactic(auto, unfolding(crate::specs::Reading::answer_line))]
    fn take_answer(&mut self, alloc: Global, line: u32, words: &[u8]) -> Result<(), ScriptFault>
        ensures { Gives (λ _. read_so_far self.new) result (answer_line line (read_so_far self.old) (words_of words.now)) }
    {
        let word = sole_word(words).ok_or(ScriptFault::At(line, ScriptFaultKind::Token))?;
        let frame = bytes(alloc, line, word)?;
        self.add_call(line, OwnerCall::Answer(Listed::from_vec(frame)))
    }

    #[tactic(auto, unfolding(crate::specs::Reading::statement_line))]
    fn take_statement(
        &mut self,
        alloc: Global,
        line: u32,
        keyword: &[u8],
        words: &[u8],
    ) -> Result<(), ScriptFault>
        ensures { Gives (λ _. read_so_far self.new) result (statement_line line (read_so_far self.old) keyword.now (words_of words.now)) }
    {
        if is_word(keyword, b"device") {
            self.take_device(alloc, line, words)
        } else if is_word(keyword, b"challenge") {
            self.take_challenge(alloc, line, words)
        } else if is_word(keyword, b"answer") {
            self.take_answer(alloc, line, words)
        } else {
            Err(ScriptFault::At(line, ScriptFaultKind::Token))
        }
    }

    /// Takes what a line says, or skips it.
    #[tactic(auto, unfolding(crate::specs::Reading::line_of))]
    pub fn take_line(&mut self, alloc: Global, number: u32, line: &[u8]) -> Result<(), ScriptFault>
        ensures { Gives (λ _. read_so_far self.new) result (line_of number (read_so_far self.old) (words_of line.now)) }
    {
        let Some((first, words)) = first_word(line) else {
            return Ok(());
        };
        if begins_comment(first) {
            return Ok(());
        }
        self.take_statement(alloc, number, first, words)
    }

    /// The script, if it has a device.
    #[tactic(auto, unfolding(crate::specs::Reading::whole))]
    pub fn finish(self, line: u32) -> Result<Script, ScriptFault>
        ensures { result ≡ whole line (read_so_far self) }
    {
        if self.devices.is_empty() {
            return Err(ScriptFault::At(line, ScriptFaultKind::Order));
        }
        Ok(Script {
            devices: Listed::from_vec(self.devices),
            calls: Listed::from_vec(self.calls),
        })
    }
}
