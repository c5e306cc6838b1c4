use crate::file::FileName;
use oat_case::Key;
use oat_list::Listed;
use oat_owner::OwnerCall;

/// A device of a script.
#[derive(Drop)]
pub struct ScriptDevice {
    pub id: u32,
    /// The file that has its image.
    pub file: FileName,
    pub key: Key,
}

/// The devices of an owner, and the calls that are put to it, in their order.
#[derive(Drop)]
pub struct Script {
    pub devices: Listed<ScriptDevice>,
    pub calls: Listed<OwnerCall>,
}
