ghost use Rattle.std.specs.Prelude.{◌≡◌, ◌++◌, [], map, IfOk, codes, ◌∷◌};
ghost use Rattle.std.specs.List.{AllZip, flat_map};
ghost use Rattle.oat_shown.specs.{IsWellFormedCase, IsOperation, bodies_so_far, case_limit, image_limit, Done, Unsealed, line, shows, Works, answer_in};
ghost use Rattle.oat_shown.specs.BlobLine.{blob_line};
ghost use Rattle.oat_room_device.specs.Device.{IsBlobUnder, Runs, RunsCase};

use oat_case::{Bytes, Case};
use oat_device::Device;
use oat_inputs::admit::admit;
use oat_page::{Ended, File, Page, Pieces, Stop, Then};
use oat_shown::{BlobLines, RunLines};
use oat_verify::Shaped;
use std::alloc::{AllocError, Global};

/// The lines of a run, and those of its blobs.
pub type RunAndBlobs = Then<RunLines, BlobLines>;

/// The blobs of the windows that have sealed, in their order.
fn blobs_of(alloc: Global, device: &Device<'_>) -> Result<Vec<Bytes>, AllocError>
    ensures { IfOk result (λ blobs. AllZip (IsBlobUnder device.now.case.session.key) (bodies_so_far device.now) blobs.items) }
{
    let count = device.bodies();
    let mut blobs = Vec::with_capacity(alloc, count as usize)?;
    for serial in 0..count {
        blobs.push_reserved(Bytes::from_vec(device.blob(alloc, serial)?));
    }
    Ok(blobs)
}

/// The page of a run whose last window sealed: its lines, and those of its blobs.
fn sealed_page(alloc: Global, lines: RunLines, blobs: Vec<Bytes>) -> Page<RunAndBlobs>
    ensures { answer_in ⟦<RunAndBlobs as Pieces>⟧.text result
        ≡ shows Done (⟦<RunLines as Pieces>⟧.text lines ++ flat_map blob_line blobs.items) [] }
{
    Page {
        ended: Ended::Done,
        pieces: Then {
            first: lines,
            second: BlobLines::of(blobs),
            is_behind: false,
        },
        err: Vec::new(alloc),
    }
}

/// The page of a run whose last window didn't seal: the same lines, and that its blob is wanting.
fn unsealed_page(
    alloc: Global,
    lines: RunLines,
    blobs: Vec<Bytes>,
) -> Result<Page<RunAndBlobs>, AllocError>
    ensures { IfOk result (λ page. answer_in ⟦<RunAndBlobs as Pieces>⟧.text page
        ≡ shows Unsealed (⟦<RunLines as Pieces>⟧.text lines ++ flat_map blob_line blobs.items) (line (codes "no blob"))) }
{
    Ok(Page {
        ended: Ended::Unsealed,
        pieces: Then {
            first: lines,
            second: BlobLines::of(blobs),
            is_behind: false,
        },
        err: Vec::from_slice(alloc, b"no blob\n")?,
    })
}

/// Makes the measured run of a case, and gives its page.
fn run_case(alloc: Global, shaped: &Shaped, case: &Case) -> Result<Page<RunAndBlobs>, AllocError>
    requires well_formed { IsWellFormedCase case.now }
    requires operation { IsOperation shaped.now.map case.now.session.op }
    ensures { IfOk result (λ page. RunsCase shaped.now case.now (answer_in ⟦<RunAndBlobs as Pieces>⟧.text page)) }
{
    let mut device = Device::boot(alloc, shaped, case)?;
    let end = device.run();
    let lines = RunLines::of(alloc, device.outputs(), end)?;
    let blobs = blobs_of(alloc, &device)?;
    match device.sealed() {
        Some(_) => Ok(sealed_page(alloc, lines, blobs)),
        None => unsealed_page(alloc, lines, blobs),
    }
}

/// Runs the case of the second file on the image of the first.
pub fn device(alloc: Global, files: &[File]) -> Result<Page<RunAndBlobs>, Stop>
    requires { map (λ file. file.limit) files.now ≡ image_limit ∷ case_limit ∷ [] }
    ensures { Works ⟦<RunAndBlobs as Pieces>⟧.text (Runs files.now) result }
{
    let image = &files[0];
    let case = &files[1];
    let admitted = admit(alloc, image, case)?;
    Ok(run_case(alloc, &admitted.shaped, &admitted.case)?)
}
