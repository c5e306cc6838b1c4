//! What an image gives a device at its start.
ghost use Rattle.std.specs.Prelude.{◌≡◌, ◌≤◌, IfOk, length};
ghost use Rattle.oat_journal.specs.{IsWellFormedImage, cells_of, byte_at, BeginsAt, IsOperation};
ghost use Rattle.oat_journal.specs.Run.{start_memory};
ghost use Rattle.oat_journal.specs.Measured.{opening_of, start_cells};

use oat_case::Session;
use oat_measure::Opening;
use oat_mem::{GLOBAL_BASE, Memory};
use oat_shape::{Image, Shaped};
use std::alloc::{AllocError, Global};

/// Zeros, but for the words that the image gives.
pub fn start_memory(alloc: Global, image: &Image) -> Result<Memory, AllocError>
    requires { IsWellFormedImage image.now }
    ensures { IfOk result (λ memory. byte_at memory ≡ start_memory image.now.words) }
{
    let mut memory = Memory::zeroed(alloc)?;
    for word in image.words.as_slice() {
        memory.put_word(word.index, word.value);
    }
    Ok(memory)
}

/// The first words of the critical cells.
pub fn start_cells(alloc: Global, image: &Image, memory: &Memory) -> Result<Vec<u64>, AllocError>
    requires fit { IsWellFormedImage image.now }
    requires loaded { byte_at memory.now ≡ start_memory image.now.words }
    ensures words { IfOk result (λ cells. cells_of cells.items ≡ start_cells image.now) }
    ensures few { IfOk result (λ cells. length cells.items ≤ 65536) }
{
    let mut cells = Vec::with_capacity(alloc, image.cells.len())?;
    for index in image.cells.as_slice() {
        let word = memory.read8(GLOBAL_BASE + 8 * u64::from(*index));
        cells.push_reserved(word.unwrap());
    }
    Ok(cells)
}

/// The first words of the critical cells of an image.
pub fn first_words(alloc: Global, image: &Image) -> Result<Vec<u64>, AllocError>
    requires { IsWellFormedImage image.now }
    ensures words { IfOk result (λ cells. cells_of cells.items ≡ start_cells image.now) }
    ensures few { IfOk result (λ cells. length cells.items ≤ 65536) }
{
    let memory = start_memory(alloc, image)?;
    start_cells(alloc, image, &memory)
}

/// What the first window of a session is opened for.
pub fn opening(shaped: &Shaped, session: &Session) -> Opening
    requires { IsOperation shaped.now.map session.now.op }
    ensures begins { BeginsAt shaped.now.map session.now.op result.begin_at }
    ensures is { result ≡ opening_of shaped.now session.now result.begin_at }
{
    Opening {
        nonce: session.nonce,
        op: session.op,
        digest: shaped.digest(),
        begin_at: shaped.begin_at(session.op).unwrap(),
        serial: session.calls.map(|_| 0),
        calls: session.calls.unwrap_or(1),
    }
}
