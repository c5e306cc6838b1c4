//! From a checked program to its image.
ghost use Rattle.std.specs.Prelude.{◌≡◌, ℕ, ◌<◌, ◌≤◌, Err, IfErr, IfOk, OnOk, length};
ghost use Rattle.oat_match.specs.{code_limit, expansion, IsChecked, most_words, IsWellFormedImage, IsShaped, HasValidNames};
ghost use Rattle.oat_gen.specs.Code.{program_items};
ghost use Rattle.oat_build.specs.declared.fault.BuildFault.TheVariants.{CodeTooLarge, Memory};
ghost use Rattle.oat_build.specs.Built.{
  HasFunctionsOf,
  HasOperationsOf,
  RunsAsProgram,
  program_words,
};

use crate::fault::BuildFault;
use crate::image::image_of;
use crate::laws::{built_images_are_of_programs, programs_can_be_built};
use crate::names::look_at_names;
use oat_asm::{Items, assemble};
use oat_check::Checked;
use oat_gen::generate;
use oat_gen::laws::programs_have_few_words;
use oat_image::Image;
use oat_instr::instrument;
use oat_shape::laws::shape_is_decided;
use oat_shape::{CODE_BASE, ShapeFault, Shaped, check_shape};
use std::alloc::Global;

/// The image of a checked program.
///
/// It takes time about linear in the size of the program.
pub fn build(alloc: Global, checked: &Checked) -> Result<Shaped, BuildFault>
    ensures well_formed { IfOk result (λ shaped. IsWellFormedImage shaped) }
    ensures shaped { IfOk result (λ shaped. IsShaped shaped) }
    ensures functions { IfOk result (λ shaped. HasFunctionsOf checked.now shaped) }
    ensures operations { IfOk result (λ shaped. HasOperationsOf checked.now shaped) }
    ensures runs { IfOk result (λ shaped. RunsAsProgram checked.now shaped) }
    ensures few { IfOk result (λ shaped. length shaped.code ≤ most_words checked.now) }
    ensures fits { OnOk result (program_words checked.now ≤ code_limit) }
    ensures needed { (words : ℕ) → result ≡ Err (CodeTooLarge words) → words ≡ program_words checked.now }
    ensures too_large { (words : ℕ) → result ≡ Err (CodeTooLarge words) → code_limit < words }
    ensures bounded { (words : ℕ) → result ≡ Err (CodeTooLarge words) → words ≤ most_words checked.now }
{
    let program = checked.program();
    look_at_names(program);
    let items = expanded_items(alloc, checked)?;
    programs_can_be_built();
    programs_have_few_words();
    built_images_are_of_programs();
    let assembled = assemble(alloc, &items, CODE_BASE)?;
    let image = image_of(alloc, program, &items, assembled)?;
    shaped_of(alloc, image)
}

/// The program's items, with each mark expanded.
fn expanded_items(alloc: Global, checked: &Checked) -> Result<Items, BuildFault>
    requires checked { IsChecked checked.now }
    requires names { HasValidNames checked.now }
    ensures items { IfOk result (λ items. items ≡ expansion (program_items checked.now)) }
    ensures memory { IfErr result (λ fault. fault ≡ Memory) }
{
    programs_can_be_built();
    let marked = generate(alloc, checked)?;
    let items = instrument(alloc, marked)?;
    Ok(items)
}

/// An image that is known to have the shape.
fn shaped_of(alloc: Global, image: Image) -> Result<Shaped, BuildFault>
    requires well_formed { IsWellFormedImage image }
    requires shaped { IsShaped image }
    ensures same { IfOk result (λ shaped. shaped ≡ image) }
    ensures memory { IfErr result (λ fault. fault ≡ Memory) }
{
    shape_is_decided();
    match check_shape(alloc, image) {
        Ok(shaped) => Ok(shaped),
        Err(refusal) => match refusal.fault {
            ShapeFault::Memory => Err(BuildFault::Memory),
            ShapeFault::Rule { .. } => unreachable!(),
        },
    }
}
