//! The tests that a line has to pass before it is taken.

ghost use Rattle.std.specs.Prelude.{◌≡◌, ◌<◌, Bool, true, List, ℕ, length, IfOk};
ghost use Rattle.std.specs.List.{list_all};
ghost use Rattle.oat_lines.specs.Lines.{words_of};
ghost use Rattle.oat_lines.specs.Reading.{between};
ghost use Rattle.oat_text.specs.declared.form.WordKind.{WordKind};
ghost use Rattle.oat_text.specs.Readings.{is_printable, is_shaped, is_in_range, all_pass, has_number};
ghost use Rattle.oat_text.specs.Outline.{stands, fitting, tested};

use crate::fault::TextFaultKind;
use crate::form::{LineForm, WordKind, line_form};
use crate::head::Stage;
use crate::word::{count_in, i64_in, is_reference, parameter_in, ty_in};
use oat_lines::first_word;
use oat_map::Name;

/// A test of a word, by the kind of word that is wanted.
trait WordTest {
    ghost test: { WordKind → List ℕ → Bool };

    fn passes(kind: WordKind, word: &[u8]) -> bool
        ensures { result ≡ test kind word.now };
}

/// Whether a name, a type or a parameter is well formed.
struct Shape;

/// Whether a number is one, and in its range.
struct Range;

impl WordTest for Shape {
    ghost test = { is_shaped };

    fn passes(kind: WordKind, word: &[u8]) -> bool {
        match kind {
            WordKind::Named => Name::new(word).is_some(),
            WordKind::Typed => ty_in(word).is_some(),
            WordKind::Parameter => parameter_in(word).is_some(),
            WordKind::Start => !is_reference(word) || ty_in(word).is_some(),
            WordKind::Integer | WordKind::Count(_) => true,
        }
    }
}

impl WordTest for Range {
    ghost test = { is_in_range };

    fn passes(kind: WordKind, word: &[u8]) -> bool {
        match kind {
            WordKind::Start => is_reference(word) || i64_in(word).is_some(),
            WordKind::Integer => i64_in(word).is_some(),
            WordKind::Count(most) => count_in(most, word).is_some(),
            WordKind::Named | WordKind::Typed | WordKind::Parameter => true,
        }
    }
}

fn all_pass<T: WordTest>(kinds: &[WordKind], words: &[u8]) -> bool
    ensures { result ≡ all_pass T.test kinds.now (words_of words.now) }
{
    let mut rest = words;
    'kinds: for kind in kinds {
        match first_word(rest) {
            None => return true,
            Some((word, after)) => {
                if !T::passes(*kind, word) {
                    return false;
                }
                rest = after;
            }
        }
    }
    true
}

fn is_printable(word: &[u8]) -> bool
    ensures { result ≡ is_printable word.now }
{
    word.iter().all(|b| b' ' < *b && *b < 127)
}

fn are_printable(words: &[u8]) -> bool
    ensures { result ≡ list_all is_printable (words_of words.now) }
{
    let mut rest = words;
    'words: while let Some((word, after)) = first_word(rest) {
        if !is_printable(word) {
            return false;
        }
        rest = after;
    }
    true
}

fn has_between(words: &[u8], least: usize, most: usize) -> bool
    requires { most < 100 }
    ensures { result ≡ between least most (length (words_of words.now)) }
{
    let mut rest = words;
    let mut count = 0;
    'words: while let Some((_, after)) = first_word(rest) {
        if count == most {
            return false;
        }
        count += 1;
        rest = after;
    }
    least <= count
}

fn stands(stage: Stage, first: bool, form: LineForm) -> bool
    ensures { result ≡ stands stage first form }
{
    match stage {
        Stage::Outside => match form {
            LineForm::Global(_) => first,
            _ => matches!(form, LineForm::Func(_)),
        },
        Stage::Locals => matches!(form, LineForm::Local | LineForm::Block),
        Stage::Inside => matches!(form, LineForm::Instr(_) | LineForm::Term(_)),
        Stage::Behind => matches!(form, LineForm::Block | LineForm::End),
    }
}

#[tactic(auto, unfolding(crate::specs::Outline::fitting))]
fn fitting(
    stage: Stage,
    first: bool,
    form: LineForm,
    words: &[u8],
) -> Result<LineForm, TextFaultKind>
    ensures fits { result ≡ fitting stage first form (words_of words.now) }
    ensures number { IfOk result (λ form. has_number form (words_of words.now) ≡ true) }
{
    let kinds = form.kinds();
    if !all_pass::<Shape>(kinds, words) {
        return Err(TextFaultKind::Token);
    }
    if !stands(stage, first, form) || !has_number(form, words) {
        return Err(TextFaultKind::Expected);
    }
    if !all_pass::<Range>(kinds, words) {
        return Err(TextFaultKind::Number);
    }
    Ok(form)
}

fn has_number(form: LineForm, words: &[u8]) -> bool
    ensures { result ≡ has_number form (words_of words.now) }
{
    let most = form.kinds().len();
    has_between(words, most.saturating_sub(form.optional()), most)
}

/// The form of a line of this first word and those behind it, unless a test of it fails.
///
/// `first` says whether no function has begun.
#[tactic(auto, unfolding(crate::specs::Outline::tested))]
pub fn tested(
    stage: Stage,
    first: bool,
    word: &[u8],
    words: &[u8],
) -> Result<LineForm, TextFaultKind>
    ensures passed { result ≡ tested stage first word.now (words_of words.now) }
    ensures number { IfOk result (λ form. has_number form (words_of words.now) ≡ true) }
{
    if !is_printable(word) || !are_printable(words) {
        return Err(TextFaultKind::Token);
    }
    let form = line_form(word).ok_or(TextFaultKind::Expected)?;
    fitting(stage, first, form, words)
}
