ghost use Rattle.std.specs.Prelude.{◌≡◌, ◌≤◌, length, map, IfOk};
ghost use Rattle.std.specs.String.{string_bytes};
ghost use Rattle.oat_page.specs.Texts.{read_fault, too_long};
ghost use Rattle.oat_page.specs.Outcome.{says};
ghost use Rattle.oat_page.specs.Loads.{wanted_of, read_of};
ghost use Rattle.oat_page.specs.Works.{LoadsFile, LoadsFiles, FaultsRose};

use crate::page::Halt;
use oat_world::{Files, LoadFault};
use std::alloc::{AllocError, Global};
use std::marker::Model;

/// A file of a command: the word that names it, the most bytes that it may have, and its text.
#[derive(Drop)]
pub struct File {
    name: String,
    limit: usize,
    text: Vec<u8>,
}

impl Model for File {
    ghost use Rattle.std.specs.Prelude.{◌≤◌, length};
    ghost use Rattle.std.specs.String.{string_bytes};
    ghost use Rattle.oat_page.specs.Loads as loads;

    ghost Value = { loads.File };

    ghost view = { λ file. record { name = string_bytes file.name; limit = file.limit; text = file.text.items } };

    ghost invariant = { λ file. length file.text.items ≤ file.limit };
}

impl File {
    ghost use Rattle.std.specs.Prelude.{◌≡◌, ◌≤◌, length};

    pub fn name(&self) -> &str
        ensures { result.now ≡ self.now.name }
    {
        self.name.as_str()
    }

    pub fn text(&self) -> &[u8]
        ensures text { result.now ≡ self.now.text }
        ensures short { length self.now.text ≤ self.now.limit }
    {
        self.text.as_slice()
    }
}

fn read_fault_line(alloc: Global, name: &str) -> Result<Vec<u8>, AllocError>
    ensures { IfOk result (λ text. says 4 text.items ≡ read_fault name.now) }
{
    Ok(format!(in alloc; "read fault {name}\n")?.into_bytes())
}

fn too_long_line(alloc: Global, name: &str, limit: usize) -> Result<Vec<u8>, AllocError>
    ensures { IfOk result (λ text. says 2 text.items ≡ too_long name.now limit) }
{
    Ok(format!(in alloc; "refused {name} TooLong {limit}\n")?.into_bytes())
}

/// Loads one file by the word that names it.
pub fn load_one<F: Files>(
    alloc: Global,
    files: &mut F,
    name: &str,
    limit: usize,
) -> Result<File, Halt>
    ensures same { F.told files.new ≡ F.told files.old }
    ensures faults_stay { F.faults files.old ≤ F.faults files.new }
    ensures limited { IfOk result (λ file. file.limit ≡ limit) }
    ensures loads { LoadsFile (record { name = name.now; limit = limit }) (read_of F.told F.faults files.old files.new) result }
    ensures untold { FaultsRose (read_of F.told F.faults files.old files.new) result }
{
    match files.load(alloc, name, limit) {
        Ok(text) => Ok(File {
            name: String::from_str(alloc, name)?,
            limit,
            text,
        }),
        Err(LoadFault::Failed) => Err(Halt::ReadFault(read_fault_line(alloc, name)?)),
        Err(LoadFault::TooLong) => Err(Halt::Refused(too_long_line(alloc, name, limit)?)),
        Err(LoadFault::Memory) => Err(Halt::Starved),
    }
}

/// Loads the files of these names in their order, each with its limit.
pub fn load_all<F: Files>(
    alloc: Global,
    files: &mut F,
    names: &[String],
    limits: &[usize],
) -> Result<Vec<File>, Halt>
    requires { length names.now ≡ length limits.now }
    ensures same { F.told files.new ≡ F.told files.old }
    ensures faults_stay { F.faults files.old ≤ F.faults files.new }
    ensures limited { IfOk result (λ loaded. map (λ file. file.limit) loaded.items ≡ limits.now) }
    ensures loads { LoadsFiles (wanted_of (map string_bytes names.now) limits.now) (read_of F.told F.faults files.old files.new) result }
    ensures untold { FaultsRose (read_of F.told F.faults files.old files.new) result }
{
    let mut loaded = Vec::new(alloc);
    for k in 0..limits.len() {
        let file = load_one(alloc, files, names[k].as_str(), limits[k])?;
        loaded.push(file)?;
    }
    Ok(loaded)
}
