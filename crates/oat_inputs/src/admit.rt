ghost use Rattle.std.specs.Prelude.{◌≡◌, MatchResult};
ghost use Rattle.oat_page.specs.Limits.{image_limit, case_limit};
ghost use Rattle.oat_inputs.specs.Admits.{AreAdmitted, Rejects};
ghost use Rattle.oat_page.specs.Works.{StopsWith};

use crate::inputs::{case_of, image_of, shaped_of, test_operation};
use oat_case::Case;
use oat_page::{File, Stop};
use oat_shape::Shaped;
use std::alloc::Global;

/// An image that has the shape, and a case for one of its operations.
#[derive(Drop)]
pub struct Admitted {
    pub shaped: Shaped,
    pub case: Case,
}

/// Reads and tests what a command over an image and a case looks at before its own work.
pub fn admit(alloc: Global, image: &File, case: &File) -> Result<Admitted, Stop>
    requires image { image.now.limit ≡ image_limit }
    requires case { case.now.limit ≡ case_limit }
    ensures { MatchResult result (λ admitted. AreAdmitted image.now case.now admitted.shaped admitted.case)
        (StopsWith (Rejects image.now case.now)) }
{
    let read = image_of(alloc, image)?;
    let shaped = shaped_of(alloc, image, read)?;
    let session_case = case_of(alloc, case)?;
    test_operation(alloc, case, &shaped, session_case.session.op)?;
    Ok(Admitted {
        shaped,
        case: session_case,
    })
}
