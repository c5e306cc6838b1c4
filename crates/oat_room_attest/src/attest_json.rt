ghost use Rattle.std.specs.Prelude.{◌≡◌, map, ◌∷◌, []};
ghost use Rattle.oat_shown.specs.{case_limit, program_limit, Works};
ghost use Rattle.oat_room_attest.specs.Json.{AttestsInJson};

use crate::attest::attest_files;
use crate::json_lines::JsonLines;
use oat_page::{File, Page, Pieces, Stop};
use oat_shown::{ended_with, refuses_one, want_text};
use std::alloc::Global;

/// Attests the program of the first file and the case of the second, and tells in JSON of each window.
pub fn attest_json(alloc: Global, files: &[File]) -> Result<Page<JsonLines>, Stop>
    requires { map (λ file. file.limit) files.now ≡ program_limit ∷ case_limit ∷ [] }
    ensures { Works ⟦<JsonLines as Pieces>⟧.text (AttestsInJson files.now) result }
{
    let done = attest_files(alloc, files)?;
    let calls = done.case.session.calls;
    let verdicts = done.attested.verdicts.as_slice();
    let ended = ended_with(calls, verdicts.len(), refuses_one(verdicts));
    let said = Vec::from_slice(alloc, want_text(ended))?;
    Ok(Page {
        ended,
        pieces: JsonLines::of(done.attested, calls),
        err: said,
    })
}
