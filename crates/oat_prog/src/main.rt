//! `oat`: hands the words, files and outputs of the process to the program's one call.
#![tactic(auto)]

use oat_tool::run;
use oat_world::{RealFiles, RealSink};
use std::process::ExitCode;
use std::{env, io};

/// The status where there is no memory for the words.
const NO_MEMORY: u8 = 6;

fn main(rt: HostRuntime) -> ExitCode {
    let mut files = RealFiles::new(&rt);
    let mut out = RealSink::new(rt.stdout());
    let mut err = RealSink::new(rt.stderr());
    let status = match words(&rt) {
        Ok(words) => run(rt.alloc(), words.as_slice(), &mut files, &mut out, &mut err),
        // A word that is no text is a word of no command.
        Err(error) if error.kind() == io::ErrorKind::InvalidData => {
            run(rt.alloc(), &[], &mut files, &mut out, &mut err)
        }
        Err(_) => {
            let _ = rt.eprintln("want of memory");
            NO_MEMORY
        }
    };
    ExitCode::from(status)
}

/// The words after the program's name.
fn words(rt: &HostRuntime) -> io::Result<Vec<String>> {
    Ok(env::args(rt)?.skip(1).collect(rt.alloc())?)
}
