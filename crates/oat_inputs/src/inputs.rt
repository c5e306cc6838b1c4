ghost use Rattle.std.specs.Prelude.{◌≡◌, ◌≢◌, IfOk, MatchResult};
ghost use Rattle.oat_shape.specs.{IsWellFormedImage, IsOperation};
ghost use Rattle.oat_lines.specs.declared.fault.Fault.TheVariants.{Memory};
ghost use Rattle.oat_image.specs.FaultText.{image_fault_word};
ghost use Rattle.oat_image.specs.Grammar.{IsImageText};
ghost use Rattle.oat_shape.specs.Shape.{IsShaped};
ghost use Rattle.oat_lines.specs.FaultText.{fault_text};
ghost use Rattle.oat_case.specs.FaultText.{case_fault_word};
ghost use Rattle.oat_case.specs.Grammar.{IsCaseText};
ghost use Rattle.oat_page.specs.Limits.{image_limit, case_limit};
ghost use Rattle.oat_inputs.specs.Refusals.{rule_reason, RefusesImage, RefusesShape, RefusesCase, RefusesOperation, RefusesBlob};
ghost use Rattle.oat_inputs.specs.BlobText.{HasDigits};
ghost use Rattle.oat_page.specs.Works.{IsRefusal, StopsWith};

use crate::blob_text::blob_digits;
use oat_case::{Case, CaseFault, read_case};
use oat_image::{Image, ImageFault, read_image};
use oat_lines::hexadecimal_text;
use oat_page::{File, Stop, no_operation, refused};
use oat_shape::{ShapeFault, Shaped, check_shape};
use std::alloc::{AllocError, Global};

/// What is said of an image text's fault; the error is want of memory.
fn image_fault(alloc: Global, name: &str, fault: ImageFault) -> Result<Stop, AllocError>
    ensures of_text { IfOk result (λ stop. fault ≢ Memory) }
    ensures told { IsRefusal name.now (fault_text image_fault_word fault) result }
{
    match fault {
        ImageFault::Memory => Err(AllocError),
        _ => refused(alloc, name, fault),
    }
}

/// The image of the file.
pub fn image_of(alloc: Global, file: &File) -> Result<Image, Stop>
    requires { file.now.limit ≡ image_limit }
    ensures { MatchResult result (IsImageText file.now.text) (StopsWith (RefusesImage file.now)) }
{
    match read_image(alloc, file.text()) {
        Ok(image) => Ok(image),
        Err(fault) => Err(image_fault(alloc, file.name(), fault)?),
    }
}

/// An image is refused for breaking the shape rule of this number at an address.
fn rule(alloc: Global, file: &str, number: u8, at: u64) -> Result<Stop, AllocError>
    ensures { IsRefusal file.now (rule_reason number at) result }
{
    let mut text = format!(in alloc; "refused {file} S{number} ")?.into_bytes();
    text.extend_from_slice(&hexadecimal_text::<16>(at))?;
    text.extend_from_slice(b"\n")?;
    Ok(Stop::Refused(text))
}

/// The image, which has the shape.
pub fn shaped_of(alloc: Global, file: &File, image: Image) -> Result<Shaped, Stop>
    requires { IsWellFormedImage image }
    ensures { MatchResult result (λ shaped. (shaped ≡ image) × IsShaped image) (StopsWith (RefusesShape file.now image)) }
{
    match check_shape(alloc, image) {
        Ok(shaped) => Ok(shaped),
        Err(refusal) => match refusal.fault {
            ShapeFault::Rule { number, at } => Err(rule(alloc, file.name(), number, at)?),
            ShapeFault::Memory => Err(Stop::Starved),
        },
    }
}

/// What is said of a case text's fault; the error is want of memory.
fn case_fault(alloc: Global, name: &str, fault: CaseFault) -> Result<Stop, AllocError>
    ensures of_text { IfOk result (λ stop. fault ≢ Memory) }
    ensures told { IsRefusal name.now (fault_text case_fault_word fault) result }
{
    match fault {
        CaseFault::Memory => Err(AllocError),
        _ => refused(alloc, name, fault),
    }
}

/// The case of the file.
pub fn case_of(alloc: Global, file: &File) -> Result<Case, Stop>
    requires { file.now.limit ≡ case_limit }
    ensures { MatchResult result (IsCaseText file.now.text) (StopsWith (RefusesCase file.now)) }
{
    match read_case(alloc, file.text()) {
        Ok(case) => Ok(case),
        Err(fault) => Err(case_fault(alloc, file.name(), fault)?),
    }
}

/// Tests that the image has the case's operation.
pub fn test_operation(alloc: Global, file: &File, shaped: &Shaped, op: u16) -> Result<(), Stop>
    ensures { MatchResult result (λ done. IsOperation shaped.now.map op) (StopsWith (RefusesOperation file.now shaped.now.map op)) }
{
    match shaped.begin_at(op) {
        Some(_) => Ok(()),
        None => Err(no_operation(alloc, file.name(), op)?),
    }
}

/// The digits of the blob's text.
pub fn digits_of(alloc: Global, file: &File) -> Result<&[u8], Stop>
    ensures { MatchResult result (λ digits. HasDigits file.now.text digits.now) (StopsWith (RefusesBlob file.now)) }
{
    match blob_digits(file.text()) {
        Some(digits) => Ok(digits),
        None => Err(refused(alloc, file.name(), "Hex")?),
    }
}
