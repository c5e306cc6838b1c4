//! Lines that declare globals.

ghost use Rattle.std.specs.Prelude.{◌≡◌};
ghost use Rattle.oat_lines.specs.Lines.{words_of};
ghost use Rattle.oat_text.specs.Outline.{scalar_of, global_of, global_in};

use crate::fault::TextFaultKind;
use crate::form::GlobalForm;
use crate::word::{count_in, i64_in, is_reference, name_at, params_in, word_at};
use oat_ir::GlobalItem;
use oat_map::Name;

#[tactic(auto, unfolding(crate::specs::Outline::scalar_of))]
fn scalar_in(name: Name, word: &[u8]) -> Result<GlobalItem, TextFaultKind>
    ensures { result ≡ scalar_of name word.now }
{
    if is_reference(word) {
        let params = params_in(word).ok_or(TextFaultKind::Token)?;
        Ok(GlobalItem::FnScalar { name, params })
    } else {
        let start = i64_in(word).ok_or(TextFaultKind::Number)?;
        Ok(GlobalItem::Scalar {
            name,
            start,
            critical: false,
        })
    }
}

#[tactic(auto, unfolding(crate::specs::Outline::global_of))]
fn global_of(form: GlobalForm, name: Name, word: &[u8]) -> Result<GlobalItem, TextFaultKind>
    ensures { result ≡ global_of form name word.now }
{
    match form {
        GlobalForm::Plain => scalar_in(name, word),
        GlobalForm::Critical => {
            let start = i64_in(word).ok_or(TextFaultKind::Number)?;
            Ok(GlobalItem::Scalar {
                name,
                start,
                critical: true,
            })
        }
        GlobalForm::Array => {
            let len = count_in(65_536, word).ok_or(TextFaultKind::Number)?;
            Ok(GlobalItem::Array { name, len })
        }
        GlobalForm::Criticals => {
            let len = count_in(4096, word).ok_or(TextFaultKind::Number)?;
            Ok(GlobalItem::CriticalArray { name, len })
        }
    }
}

/// The global that the words behind the first one declare.
#[tactic(auto, unfolding(crate::specs::Outline::global_in))]
pub fn global_in(form: GlobalForm, words: &[u8]) -> Result<GlobalItem, TextFaultKind>
    ensures { result ≡ global_in form (words_of words.now) }
{
    let name = name_at(words, 0).ok_or(TextFaultKind::Token)?;
    let word = word_at(words, 1).ok_or(TextFaultKind::Expected)?;
    global_of(form, name, word)
}
