use oat_build::{BlockIr, BuildFault, Func, Instr, Listed, Name, Program, Role, build};
use oat_check::{Checked, Local, Term, Ty, check};
use std::alloc::Global;
use std::test::Fail;

fn local(name: &[u8]) -> Result<Local, Fail> {
    let name = Name::new(name).ok_or("no name")?;
    Ok(Local { name, ty: Ty::I64 })
}

/// `main` with the locals a, b and c, and one block of these lines.
fn main_of(alloc: Global, instrs: Vec<Instr>) -> Result<Checked, Fail> {
    let block = BlockIr {
        label: Name::new(b"b").ok_or("no name")?,
        instrs: Listed::from_vec(instrs),
        term: Term::Halt,
    };
    let locals = [local(b"a")?, local(b"b")?, local(b"c")?];
    let main = Func {
        name: Name::new(b"main").ok_or("no name")?,
        role: Role::Main,
        params: 0,
        locals: Listed::from_vec(Vec::from_array(alloc, locals)?),
        blocks: Listed::from_vec(Vec::from_array(alloc, [block])?),
    };
    let program = Program {
        globals: Listed::from_vec(Vec::new(alloc)),
        funcs: Listed::from_vec(Vec::from_array(alloc, [main])?),
    };
    if !program.well_formed() {
        return Err(Fail::from("no program"));
    }
    Ok(check(program).ok().ok_or("a rule is broken")?)
}

#[test]
fn too_many_lines_are_told_by_their_words(rt: HostRuntime) -> Result<(), Fail> {
    let mut lines = Vec::new(rt.alloc());
    for _ in 0..140_000 {
        lines.push(Instr::Output { x: 0 })?;
    }
    let program = main_of(rt.alloc(), lines)?;
    let fault = build(rt.alloc(), &program).err();
    assert!(rt; matches!(fault, Some(BuildFault::CodeTooLarge(280_006))));
    Ok(())
}
