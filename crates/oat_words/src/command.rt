ghost use Rattle.std.specs.Prelude.{◌≡◌, map};
ghost use Rattle.oat_words.specs.Commands.{fixed_of, bounds_of, limits_of};

use oat_page::{BLOB_LIMIT, CASE_LIMIT, IMAGE_LIMIT, POLICY_LIMIT, PROGRAM_LIMIT, SCRIPT_LIMIT};

/// The usage line, put on the second output.
pub const USAGE: &[u8] =
    b"usage: oat run PROG CASE | build PROG | device IMAGE CASE | verify IMAGE CASE BLOB | attest [--json] PROG CASE | drill N | trace IMAGE CASE | policy IMAGE CASE BLOB POLICY | owner SCRIPT\n";

/// The greatest number of a drill.
const DRILL_BOUND: u32 = 4_294_967_295;

/// A command of the program.
#[derive(Clone, Copy)]
pub enum Command {
    /// Runs a program on the inputs of a case.
    Run,
    /// Compiles a program into an image.
    Build,
    /// Judges a blob against an image and a case.
    Verify,
    /// Runs a case on an image, measured.
    Device,
    /// Runs a case on an image, and shows the run beside the verdicts on its blobs.
    Trace,
    /// Judges a blob as `Verify` does, and the accepted path by a policy.
    Policy,
    /// Puts a script to an owner of its devices.
    Owner,
    /// Builds a program, runs a case on its image, measured, and judges the run's blobs.
    Attest,
    /// Attests as `Attest` does, and tells of each window in JSON.
    AttestJson,
    /// Attests the program and the case that are made from a number.
    Drill,
}

impl Command {
    /// The words that it begins with.
    pub fn fixed(self) -> &'static [&'static str]
        ensures { map (λ word. word.now) result.now ≡ fixed_of self }
    {
        match self {
            Command::Run => &["run"],
            Command::Build => &["build"],
            Command::Verify => &["verify"],
            Command::Device => &["device"],
            Command::Trace => &["trace"],
            Command::Policy => &["policy"],
            Command::Owner => &["owner"],
            Command::Attest => &["attest"],
            Command::AttestJson => &["attest", "--json"],
            Command::Drill => &["drill"],
        }
    }

    /// The greatest value of each of its numbers.
    pub fn bounds(self) -> &'static [u32]
        ensures { result.now ≡ bounds_of self }
    {
        match self {
            Command::Run
            | Command::Build
            | Command::Verify
            | Command::Device
            | Command::Trace
            | Command::Policy
            | Command::Owner
            | Command::Attest
            | Command::AttestJson => &[],
            Command::Drill => &[DRILL_BOUND],
        }
    }

    /// The most bytes of each of its files.
    pub fn limits(self) -> &'static [usize]
        ensures { result.now ≡ limits_of self }
    {
        match self {
            Command::Run => &[PROGRAM_LIMIT, CASE_LIMIT],
            Command::Build => &[PROGRAM_LIMIT],
            Command::Verify => &[IMAGE_LIMIT, CASE_LIMIT, BLOB_LIMIT],
            Command::Device => &[IMAGE_LIMIT, CASE_LIMIT],
            Command::Trace => &[IMAGE_LIMIT, CASE_LIMIT],
            Command::Policy => &[IMAGE_LIMIT, CASE_LIMIT, BLOB_LIMIT, POLICY_LIMIT],
            Command::Owner => &[SCRIPT_LIMIT],
            Command::Attest => &[PROGRAM_LIMIT, CASE_LIMIT],
            Command::AttestJson => &[PROGRAM_LIMIT, CASE_LIMIT],
            Command::Drill => &[],
        }
    }
}

/// The commands of the program.
pub const COMMANDS: [Command; 10] = [
    Command::Run,
    Command::Verify,
    Command::Device,
    Command::Policy,
    Command::Build,
    Command::Trace,
    Command::Owner,
    Command::Attest,
    Command::AttestJson,
    Command::Drill,
];
