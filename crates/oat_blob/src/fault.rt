/// Bytes that are no blob.
#[derive(Clone, Copy)]
pub struct FormFault {
    /// The place of the first byte that no blob with the bytes before it can have, or the length
    /// where bytes are wanting.
    pub offset: usize,
}
