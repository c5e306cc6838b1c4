//! The most bytes of each kind of file.

pub const PROGRAM_LIMIT: usize = 1_048_576;

pub const IMAGE_LIMIT: usize = 16_777_216;

pub const CASE_LIMIT: usize = 4_194_304;

pub const BLOB_LIMIT: usize = 41_943_040;

pub const POLICY_LIMIT: usize = 65_536;

pub const SCRIPT_LIMIT: usize = 67_108_864;
