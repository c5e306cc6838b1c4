ghost use Rattle.std.specs.Prelude.{◌≡◌, MatchResult, map, ◌∷◌, []};
ghost use Rattle.oat_programs.specs.{program_limit, Works, answer_in, StopsWith};
ghost use Rattle.oat_room_program.specs.Build.{Builds, Compiles};

use oat_build::{BuildFault, build};
use oat_check::Checked;
use oat_image::print_image;
use oat_page::{Ended, File, Page, Pieces, Stop, Whole};
use oat_programs::{checked_of, too_large};
use std::alloc::Global;

/// The text of an image of the program, or why there is none.
fn image_page(alloc: Global, file: &File, checked: &Checked) -> Result<Page<Whole>, Stop>
    ensures { Works ⟦<Whole as Pieces>⟧.text (Compiles file.now checked.now) result }
{
    match build(alloc, checked) {
        Ok(shaped) => Ok(Page {
            ended: Ended::Done,
            pieces: Whole::of(print_image(alloc, shaped.image())?),
            err: Vec::new(alloc),
        }),
        Err(BuildFault::CodeTooLarge(words)) => Err(too_large(alloc, file.name(), words)?),
        Err(BuildFault::Memory) => Err(Stop::Starved),
    }
}

/// Compiles the program of the file into an image.
pub fn build_program(alloc: Global, files: &[File]) -> Result<Page<Whole>, Stop>
    requires { map (λ file. file.limit) files.now ≡ program_limit ∷ [] }
    ensures { Works ⟦<Whole as Pieces>⟧.text (Builds files.now) result }
{
    let program = &files[0];
    let checked = checked_of(alloc, program)?;
    image_page(alloc, program, &checked)
}
