//! Calls of `attest --json`.

use super::attests::session_files;
use super::expect_among;
use super::programs::RAN;
use std::alloc::{AllocError, Global};
use std::test::Fail;

/// Sessions of several windows: both accepted; one more called for than there are; the second one refused. The program, the case, the status, and the lines.
const SESSIONS: [(&str, &str, u8, &str); 3] = [
    (
        "I2",
        "K2",
        0,
        "{\"accepted\":true,\"end\":\"halted\",\"outputs\":[],\"path\":[\"end 1\"],\"sealed\":true,\"serial\":0}\n{\"accepted\":true,\"end\":\"halted\",\"outputs\":[],\"path\":[\"end 1\"],\"sealed\":true,\"serial\":1}\n",
    ),
    (
        "I2",
        "K3",
        7,
        "{\"accepted\":true,\"end\":\"halted\",\"outputs\":[],\"path\":[\"end 1\"],\"sealed\":true,\"serial\":0}\n{\"accepted\":true,\"end\":\"halted\",\"outputs\":[],\"path\":[\"end 1\"],\"sealed\":true,\"serial\":1}\n{\"accepted\":false,\"end\":\"halted\",\"outputs\":[],\"path\":[],\"sealed\":false,\"serial\":2}\n",
    ),
    (
        "CHECKS",
        "BETWEEN",
        1,
        "{\"accepted\":true,\"end\":\"halted\",\"outputs\":[10,32],\"path\":[\"end 1\"],\"sealed\":true,\"serial\":0}\n{\"accepted\":false,\"cause\":\"critical 0 10 32\",\"end\":\"halted\",\"outputs\":[10,32],\"path\":[],\"sealed\":true,\"serial\":1}\n",
    ),
];

/// The line of a run with one window, which is accepted where it sealed: of the lines that `attest` puts of the same run.
fn json_of(alloc: Global, lines: &str, path: &str) -> Result<String, AllocError> {
    let (outputs, end) = lines.split_once("ended ").unwrap_or((lines, ""));
    let numbers = outputs.replace(alloc, "out ", "")?;
    let numbers = numbers.trim_end().replace(alloc, "\n", ",")?;
    let edges = path.trim_end().replace(alloc, "\n", "\",\"")?;
    let end = end.trim_end();
    if path.is_empty() {
        return format!(in alloc;
            "{{\"accepted\":false,\"end\":\"{end}\",\"outputs\":[{numbers}],\"path\":[],\"sealed\":false}}\n"
        );
    }
    format!(in alloc;
        "{{\"accepted\":true,\"end\":\"{end}\",\"outputs\":[{numbers}],\"path\":[\"{edges}\"],\"sealed\":true}}\n"
    )
}

#[test]
fn windows_are_told_in_json(rt: HostRuntime) -> Result<(), Fail> {
    let alloc = rt.alloc();
    for (program, case, status, text) in SESSIONS {
        let line = format!(in alloc; "attest --json {program} {case}")?;
        let said = if status == 7 { "no blob\n" } else { "" };
        let files = session_files(alloc)?;
        expect_among(&rt, alloc, line.as_str(), files, (status, text, said))?;
    }
    for (program, case, lines, path) in RAN {
        let line = format!(in alloc; "attest --json {program} {case}")?;
        let text = json_of(alloc, lines, path)?;
        let (status, said) = if path.is_empty() {
            (7, "no blob\n")
        } else {
            (0, "")
        };
        let files = session_files(alloc)?;
        expect_among(
            &rt,
            alloc,
            line.as_str(),
            files,
            (status, text.as_str(), said),
        )?;
    }
    Ok(())
}
