ghost use Rattle.std.specs.Prelude.{◌≡◌, IfOk, IfErr, MatchOption};
ghost use Rattle.oat_image.specs.{BeginsAt, IsOperation};
ghost use Rattle.sha2.specs.Sha256.{sha256};
ghost use Rattle.oat_image.specs.Grammar.{IsWellFormedImage, image_text};
ghost use Rattle.oat_shape.specs.Refusal.{IsFault};
ghost use Rattle.oat_shape.specs.Shape.{IsShaped};

use crate::fault::{ShapeFault, ShapeRefusal};
use crate::rules::first_broken;
use oat_image::{Image, image_digest};
use std::alloc::Global;
use std::marker::Model;

/// An image that has the shape, with the digest of its text.
#[derive(Drop)]
pub struct Shaped {
    image: Image,
    digest: [u8; 32],
}

impl Model for Shaped {
    ghost use Rattle.std.specs.Prelude.{◌≡◌};
    ghost use Rattle.sha2.specs.Sha256.{sha256};
    ghost use Rattle.oat_image.specs.Grammar.{IsWellFormedImage, image_text};
    ghost use Rattle.oat_image.specs.declared.image.Image.{Image};
    ghost use Rattle.oat_shape.specs.Shape.{IsShaped};

    ghost Value = { Image };

    ghost view = { λ shaped. shaped.image };

    ghost invariant = { λ shaped. IsWellFormedImage shaped.image × IsShaped shaped.image × (shaped.digest ≡ sha256 (image_text shaped.image)) };
}

/// Takes an image that has the shape, and hands any other back with the first rule that it breaks.
pub fn check_shape(alloc: Global, image: Image) -> Result<Shaped, ShapeRefusal>
    requires { IsWellFormedImage image }
    ensures same { IfOk result (λ shaped. shaped ≡ image) }
    ensures shaped { IfOk result (λ shaped. IsShaped shaped) }
    ensures handed_back { IfErr result (λ refusal. refusal.image ≡ image) }
    ensures fault { IfErr result (λ refusal. IsFault refusal.image refusal.fault) }
{
    match first_broken(alloc, &image) {
        Ok(None) => {
            let digest = image_digest(&image);
            Ok(Shaped { image, digest })
        }
        Ok(Some(broken)) => {
            let fault = ShapeFault::Rule {
                number: broken.number,
                at: broken.at,
            };
            Err(ShapeRefusal { image, fault })
        }
        Err(_) => Err(ShapeRefusal {
            image,
            fault: ShapeFault::Memory,
        }),
    }
}

impl Shaped {
    pub fn image(&self) -> &Image
        ensures same { result.now ≡ self.now }
        ensures well_formed { IsWellFormedImage self.now }
        ensures shaped { IsShaped self.now }
    {
        &self.image
    }

    /// The SHA-256 digest of the image's text.
    pub fn digest(&self) -> [u8; 32]
        ensures { result ≡ sha256 (image_text self.now) }
    {
        self.digest
    }

    /// Where the window of an operation opens; None where the map has no such operation.
    pub fn begin_at(&self, op: u16) -> Option<u64>
        ensures { MatchOption result (IsOperation self.now.map op → ⊥) (λ begin_at. BeginsAt self.now.map op begin_at) }
    {
        // The group of a Begin row has two words: the window opens at the second, and the operation starts behind it.
        match self.image.map.start(op) {
            Some(start) => Some(start - 4),
            None => None,
        }
    }
}
