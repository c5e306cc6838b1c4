use oat_image::Image;

/// A shape rule by its number, from 1 for S1 to 8 for S8, and the lowest address at which it fails.
#[derive(Clone, Copy)]
pub(crate) struct Broken {
    pub(crate) number: u8,
    pub(crate) at: u64,
}

/// Why an image is refused.
#[derive(Clone, Copy)]
pub enum ShapeFault {
    /// The first shape rule that fails, from 1 for S1 to 8 for S8, and the lowest address at which it does.
    Rule { number: u8, at: u64 },
    Memory,
}

/// An image that is handed back, and why.
#[derive(Drop)]
pub struct ShapeRefusal {
    pub image: Image,
    pub fault: ShapeFault,
}
