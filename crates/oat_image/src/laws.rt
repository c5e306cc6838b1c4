//! Facts about the image text alone: each call takes nothing and answers nothing.

ghost use Rattle.std.specs.Prelude.{◌≡◌, ◌↔◌, ℕ, List, Ok};
ghost use Rattle.oat_image.specs.declared.image.Image.{Image};
ghost use Rattle.oat_image.specs.Grammar.{IsImageText};
ghost use Rattle.oat_image.specs.ImageReading.{image_at};
ghost use Rattle.oat_image.specs.Laws.{OneImage};
ghost use Rattle.oat_image.specs.Worked.{one_jump, one_jump_text};

/// Reading a text gives an image exactly where the text is that of the image.
pub fn grammar()
    ensures { (text : List ℕ) (image : Image) → (image_at text ≡ Ok image) ↔ IsImageText text image }
{}

/// A text is that of one image.
pub fn one_image()
    ensures { OneImage }
{}

/// The text of the smallest image with a jump is the one of that image.
pub fn one_jump_is_spelled()
    ensures { IsImageText one_jump_text one_jump }
{}
