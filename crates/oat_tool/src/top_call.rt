ghost use Rattle.std.specs.Prelude.{◌≡◌, ◌<◌, ◌⊎◌, None, length, map};
ghost use Rattle.oat_room_attest.specs.{Rose, read_of, put_of};
ghost use Rattle.oat_words.specs.Commands.{bounds_of, limits_of};
ghost use Rattle.oat_tool.specs.Call.{Ran, ShowsWork};
ghost use Rattle.oat_tool.specs.Headline.{Headlined};
ghost use Rattle.oat_tool.specs.OneRun.{OfOneRun};

use oat_attestation::laws::{runs_are_headlined, windows_are_judged};
use oat_page::{File, Halt, finish, load_all, say, say_starved};
use oat_room_attest::Sink;
use oat_room_attest::attest::attest_program;
use oat_room_attest::attest_json::attest_json;
use oat_room_device::device::device;
use oat_room_device::trace::trace;
use oat_room_drill::drill::drill;
use oat_room_owner::Files;
use oat_room_owner::owner::serve;
use oat_room_program::build::build_program;
use oat_room_program::interpret::interpret;
use oat_room_verify::policy::police;
use oat_room_verify::verify::verify;
use oat_words::{Command, USAGE, command_of, names_of, numbers_of};
use std::alloc::Global;

/// Does the work of a command on its numbers and its files that are loaded, and answers the status.
///
/// Further files are loaded where these name some.
#[tactic(auto, using(oat_page::proofs::Working::finished))]
fn work<F: Files, O: Sink, E: Sink>(
    alloc: Global,
    command: Command,
    numbers: &[u32],
    loaded: &[File],
    files: &mut F,
    out: &mut O,
    err: &mut E,
) -> u8
    requires bounds { length numbers.now ≡ length (bounds_of command) }
    requires limits { map (λ file. file.limit) loaded.now ≡ limits_of command }
    ensures same { F.told files.new ≡ F.told files.old }
    ensures shows { ShowsWork command numbers.now loaded.now (read_of F.told F.faults files.old files.new)
        (put_of O.told O.faults out.old out.new) (put_of E.told E.faults err.old err.new) result }
    ensures read_fault { F.told files.old ≡ None → result ≡ 4 → Rose (F.faults files.old) (F.faults files.new) }
    ensures write_fault { result ≡ 5 → Rose (O.faults out.old) (O.faults out.new) ⊎ Rose (E.faults err.old) (E.faults err.new) }
    ensures raised { (O.faults out.old < O.faults out.new) ⊎ (E.faults err.old < E.faults err.new) → result ≡ 5 }
{
    match command {
        Command::Run => finish(alloc, interpret(alloc, loaded), out, err),
        Command::Build => finish(alloc, build_program(alloc, loaded), out, err),
        Command::Verify => verify(alloc, loaded, out, err),
        Command::Device => finish(alloc, device(alloc, loaded), out, err),
        Command::Trace => finish(alloc, trace(alloc, loaded), out, err),
        Command::Policy => police(alloc, loaded, out, err),
        Command::Owner => serve(alloc, loaded, files, out, err),
        Command::Attest => attest_program(alloc, loaded, out, err),
        Command::AttestJson => finish(alloc, attest_json(alloc, loaded), out, err),
        Command::Drill => finish(alloc, drill(alloc, numbers), out, err),
    }
}

/// Does what the words say, and answers the status.
///
/// `words` are the words after the program's name. Each file is loaded by the word that names it. The
/// texts that are put and the statuses are those of docs/FORMATS.md.
pub fn run<F: Files, O: Sink, E: Sink>(
    alloc: Global,
    words: &[String],
    files: &mut F,
    out: &mut O,
    err: &mut E,
) -> u8
    // What is defined for the words and the files' contents, which outcome was set out for, and how it was put.
    ensures answer { Ran words.now (read_of F.told F.faults files.old files.new)
        (put_of O.told O.faults out.old out.new) (put_of E.told E.faults err.old err.new) result }
    // The headline: when the verifier accepts the blob of a device run, whatever was written into data memory between
    // its instructions, the path it prints is the path that the run executed in the operation, and each checked critical
    // use there read its last defined value, or the run's return sequence and the replay's exhibit two different
    // messages with one SHA-256 digest.
    ensures headline { Headlined words.now (read_of F.told F.faults files.old files.new)
        (put_of O.told O.faults out.old out.new) (put_of E.told E.faults err.old err.new) result }
    // And of `attest`: all that it puts is of one measured run of the case on an image of the program, and when the verifier
    // accepts the blob of a device run, whatever was written into data memory between its instructions, the path it prints
    // is the path that the run executed in the operation, and each checked critical use there read its last defined value,
    // or the run's return sequence and the replay's exhibit two different messages with one SHA-256 digest.
    ensures one_run { OfOneRun words.now (read_of F.told F.faults files.old files.new)
        (put_of O.told O.faults out.old out.new) (put_of E.told E.faults err.old err.new) result }
    // Where files don't tell what they hold, status 4 comes only where their count of faults rose.
    ensures read_fault { F.told files.old ≡ None → result ≡ 4 → Rose (F.faults files.old) (F.faults files.new) }
    // Status 5 comes where the count of a sink rose, or stands at its end, and always where one is higher than before.
    ensures write_fault { result ≡ 5 → Rose (O.faults out.old) (O.faults out.new) ⊎ Rose (E.faults err.old) (E.faults err.new) }
    ensures raised { (O.faults out.old < O.faults out.new) ⊎ (E.faults err.old < E.faults err.new) → result ≡ 5 }
{
    windows_are_judged();
    runs_are_headlined();
    let Some(command) = command_of(words) else {
        return say(err, USAGE, 3);
    };
    let Ok(numbers) = numbers_of(alloc, words, command) else {
        return say_starved(err);
    };
    let names = names_of(words, command);
    match load_all(alloc, files, names, command.limits()) {
        Ok(loaded) => work(
            alloc,
            command,
            numbers.as_slice(),
            loaded.as_slice(),
            files,
            out,
            err,
        ),
        Err(Halt::ReadFault(line)) => say(err, line.as_slice(), 4),
        Err(Halt::Refused(line)) => say(err, line.as_slice(), 2),
        Err(Halt::Starved) => say_starved(err),
    }
}
