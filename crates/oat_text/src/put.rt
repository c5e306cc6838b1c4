//! Words and lines, put behind the text so far.

ghost use Rattle.std.specs.Prelude.{◌≡◌, ◌++◌, [], ◌∷◌, decimal, OnOk};
ghost use Rattle.oat_lines.specs.Fields.{spaced, ended};
ghost use Rattle.oat_text.specs.Words.{ty_text, parameter_text};

use itoa::Buffer;
use oat_ir::{Local, Ty};
use oat_map::Name;
use std::alloc::AllocError;

/// A word behind others of its line.
pub fn put_word(out: &mut Vec<u8>, word: &[u8]) -> Result<(), AllocError>
    ensures { OnOk result (out.new.items ≡ out.old.items ++ 32 ∷ word.now) }
{
    out.extend_from_slice(b" ")?;
    out.extend_from_slice(word)
}

/// A line of one word.
pub fn put_line(out: &mut Vec<u8>, word: &[u8]) -> Result<(), AllocError>
    ensures { OnOk result (out.new.items ≡ out.old.items ++ ended word.now) }
{
    out.extend_from_slice(word)?;
    out.extend_from_slice(b"\n")
}

/// A line of two words.
pub fn put_two(out: &mut Vec<u8>, first: &[u8], second: &[u8]) -> Result<(), AllocError>
    ensures { OnOk result (out.new.items ≡ out.old.items ++ ended (spaced (first.now ∷ second.now ∷ []))) }
{
    out.extend_from_slice(first)?;
    out.extend_from_slice(b" ")?;
    put_line(out, second)
}

/// A line of three words.
pub fn put_three(
    out: &mut Vec<u8>,
    first: &[u8],
    second: &[u8],
    third: &[u8],
) -> Result<(), AllocError>
    ensures { OnOk result (out.new.items ≡ out.old.items ++ ended (spaced (first.now ∷ second.now ∷ third.now ∷ []))) }
{
    out.extend_from_slice(first)?;
    out.extend_from_slice(b" ")?;
    put_two(out, second, third)
}

/// A line of four words.
pub fn put_four(
    out: &mut Vec<u8>,
    first: &[u8],
    second: &[u8],
    third: &[u8],
    fourth: &[u8],
) -> Result<(), AllocError>
    ensures { OnOk result (out.new.items ≡ out.old.items ++ ended (spaced (first.now ∷ second.now ∷ third.now ∷ fourth.now ∷ []))) }
{
    out.extend_from_slice(first)?;
    out.extend_from_slice(b" ")?;
    put_three(out, second, third, fourth)
}

fn put_number(out: &mut Vec<u8>, number: u32) -> Result<(), AllocError>
    ensures { OnOk result (out.new.items ≡ out.old.items ++ decimal number) }
{
    let mut digits = Buffer::new();
    out.extend_from_slice(digits.format(number).as_bytes())
}

fn put_ty(out: &mut Vec<u8>, ty: Ty) -> Result<(), AllocError>
    ensures { OnOk result (out.new.items ≡ out.old.items ++ ty_text ty) }
{
    match ty {
        Ty::I64 => out.extend_from_slice(b"i64"),
        Ty::Fn(params) => {
            out.extend_from_slice(b"fn/")?;
            put_number(out, u32::from(params))
        }
    }
}

/// A line of a keyword, a name and a type.
pub fn put_typed(out: &mut Vec<u8>, keyword: &[u8], name: &Name, ty: Ty) -> Result<(), AllocError>
    ensures { OnOk result (out.new.items ≡ out.old.items ++ ended (spaced (keyword.now ∷ name.now ∷ ty_text ty ∷ []))) }
{
    out.extend_from_slice(keyword)?;
    put_word(out, name.as_bytes())?;
    out.extend_from_slice(b" ")?;
    put_ty(out, ty)?;
    out.extend_from_slice(b"\n")
}

/// A line of a keyword, a name and a number.
pub fn put_counted(
    out: &mut Vec<u8>,
    keyword: &[u8],
    name: &Name,
    number: u32,
) -> Result<(), AllocError>
    ensures { OnOk result (out.new.items ≡ out.old.items ++ ended (spaced (keyword.now ∷ name.now ∷ decimal number ∷ []))) }
{
    let mut digits = Buffer::new();
    put_three(
        out,
        keyword,
        name.as_bytes(),
        digits.format(number).as_bytes(),
    )
}

/// A parameter behind other words of its line.
pub fn put_parameter(out: &mut Vec<u8>, parameter: &Local) -> Result<(), AllocError>
    ensures { OnOk result (out.new.items ≡ out.old.items ++ 32 ∷ parameter_text parameter.now.name parameter.now.ty) }
{
    put_word(out, parameter.name.as_bytes())?;
    out.extend_from_slice(b":")?;
    put_ty(out, parameter.ty)
}
