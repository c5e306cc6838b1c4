//! The words of a line.

ghost use Rattle.std.specs.Prelude.{◌≡◌, ◌==◌, length, Some, None, if◌then◌else◌};
ghost use Rattle.std.specs.Str.{bytes_eq};
ghost use Rattle.oat_owner.specs.{Gives, is_comment, key_fits, operation_fits};
ghost use Rattle.oat_script.specs.Reading.{id_fits, number_word, bytes_word, device_words, challenge_words};

use crate::fault::{ScriptFault, ScriptFaultKind};
use crate::file::{FileName, is_file_word};
use crate::script::ScriptDevice;
use hex::FromHexError;
use oat_lines::read_numeral;
use oat_list::Listed;
use oat_owner::OwnerCall;
use std::alloc::Global;

pub fn is_word(word: &[u8], wanted: &[u8]) -> bool
    ensures { result ≡ bytes_eq word.now wanted.now }
{
    word == wanted
}

pub fn begins_comment(word: &[u8]) -> bool
    ensures { result ≡ is_comment word.now }
{
    !word.is_empty() && word[0] == b';'
}

fn is_key(key: &[u8]) -> bool
    ensures { result ≡ key_fits key.now }
{
    let len = key.len();
    1 <= len && len <= 1024
}

fn is_operation(op: u64) -> bool
    ensures { result ≡ operation_fits op }
{
    1 <= op && op <= 65535
}

fn is_id(id: u64) -> bool
    ensures { result ≡ id_fits id }
{
    id < 0x1_0000_0000
}

/// A decimal number, and `u64::MAX` in place of any above it.
#[tactic(auto, unfolding(crate::specs::Reading::number_word))]
fn number(line: u32, word: &[u8]) -> Result<u64, ScriptFault>
    ensures { result ≡ number_word line word.now }
{
    read_numeral(word).ok_or(ScriptFault::At(line, ScriptFaultKind::Token))
}

/// The bytes of a word of hexadecimal digits, two for each.
#[tactic(auto, unfolding(crate::specs::Reading::bytes_word))]
pub fn bytes(alloc: Global, line: u32, word: &[u8]) -> Result<Vec<u8>, ScriptFault>
    ensures { Gives (λ bytes. bytes.items) result (bytes_word line word.now) }
{
    match hex::decode(alloc, word) {
        Ok(bytes) => Ok(bytes),
        Err(FromHexError::OutOfMemory) => Err(ScriptFault::Memory),
        Err(_) => Err(ScriptFault::At(line, ScriptFaultKind::Token)),
    }
}

fn nonce_of(bytes: &[u8]) -> Option<[u8; 16]>
    ensures { result ≡ (if length bytes.now == 16 then Some bytes.now else None) }
{
    if bytes.len() == 16 {
        bytes.first_chunk::<16>().copied()
    } else {
        None
    }
}

/// The device that an id, the name of a file and a key give.
#[tactic(auto, unfolding(crate::specs::Reading::device_words))]
pub fn device(
    alloc: Global,
    line: u32,
    id: &[u8],
    file: &[u8],
    key: &[u8],
) -> Result<ScriptDevice, ScriptFault>
    ensures { Gives (λ device. device) result (device_words line (id.now, file.now, key.now)) }
{
    let id = number(line, id)?;
    if !is_file_word(file) {
        return Err(ScriptFault::At(line, ScriptFaultKind::Token));
    }
    let key = bytes(alloc, line, key)?;
    if !is_id(id) || !is_key(&key) {
        return Err(ScriptFault::At(line, ScriptFaultKind::Number));
    }
    let file = FileName::new(alloc, file)?;
    Ok(ScriptDevice {
        id: id as u32,
        file,
        key: Listed::from_vec(key),
    })
}

/// The challenge that an id, an operation and a nonce give.
#[tactic(auto, unfolding(crate::specs::Reading::challenge_words))]
pub fn challenge(
    alloc: Global,
    line: u32,
    id: &[u8],
    op: &[u8],
    nonce: &[u8],
) -> Result<OwnerCall, ScriptFault>
    ensures { Gives (λ call. call) result (challenge_words line (id.now, op.now, nonce.now)) }
{
    let id = number(line, id)?;
    let op = number(line, op)?;
    let nonce = bytes(alloc, line, nonce)?;
    let out_of_limits = ScriptFault::At(line, ScriptFaultKind::Number);
    if !is_id(id) || !is_operation(op) {
        return Err(out_of_limits);
    }
    let nonce = nonce_of(&nonce).ok_or(out_of_limits)?;
    Ok(OwnerCall::Issue {
        device: id as u32,
        op: op as u16,
        nonce,
    })
}
