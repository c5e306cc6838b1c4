//! Laws of shapes, each the contract of a function that does nothing.
ghost use Rattle.oat_shape.specs.Laid.{ElementsHaveTheirCells, OperationsOpenOnce, OperationsStart, ShapedImagesAreLaid};
ghost use Rattle.oat_shape.specs.Refusal.{ShapeIsDecided};

/// An image has the shape, or breaks one rule first, at one lowest address, and never both.
pub fn shape_is_decided()
    ensures { ShapeIsDecided }
{}

/// The groups of an image with the shape lie one behind the other, and each is found by its addresses.
pub fn shaped_images_are_laid()
    ensures { ShapedImagesAreLaid }
{}

/// Each element of an array has a cell, whose word is one of global data.
pub fn elements_have_their_cells()
    ensures { ElementsHaveTheirCells }
{}

/// The window of an operation opens at one place.
pub fn operations_open_once()
    ensures { OperationsOpenOnce }
{}

/// An operation starts somewhere.
pub fn operations_start()
    ensures { OperationsStart }
{}
