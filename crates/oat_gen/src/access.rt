//! Loads and stores of globals, and references to functions. X9 has the value of an ordinary one and X10 that of a
//! cell, X11 an address, and X12 the number of an element.

ghost use Rattle.std.specs.Prelude.{◌≡◌, ◌++◌, ◌<◌, ◌≤◌, OnOk};
ghost use Rattle.oat_globals.specs.{home_of};
ghost use Rattle.oat_globals.specs.Code.{address_code, element_code, index_test, ref_code};
ghost use Rattle.oat_gen.specs.Marked.{element_load, element_store, scalar_load, scalar_store};
ghost use Rattle.oat_gen.specs.Steps.{HasLowWord};

use crate::globals::GlobalPlace;
use crate::items::{from_home, into_home, push_all, push_check, push_inst, push_number};
use oat_asm::{Inst, Item, Mark};
use oat_mem::GLOBAL_BASE;
use std::alloc::AllocError;

const READ: Item = Item::Inst(Inst::Ldr {
    rt: 9,
    rn: 11,
    imm: 0,
});

const WRITE: Item = Item::Inst(Inst::Str {
    rt: 9,
    rn: 11,
    imm: 0,
});

/// x is the scalar.
pub(crate) fn push_scalar_load(
    out: &mut Vec<Item>,
    place: GlobalPlace,
    leaf: bool,
    x: u32,
) -> Result<(), AllocError>
    requires place { HasLowWord place }
    requires x { x < 255 }
    ensures { OnOk result (out.new.items ≡ out.old.items ++ scalar_load place (home_of leaf x)) }
{
    match place {
        GlobalPlace::Ordinary { word, .. } => {
            push_address(out, word)?;
            push_all(out, &[READ, into_home(9, leaf, x)])
        }
        GlobalPlace::Critical { word, cell, .. } => {
            let row = Mark::UseCell { cell, index: word };
            push_all(out, &[Item::Mark(row), into_home(10, leaf, x)])
        }
    }
}

/// The scalar is x.
pub(crate) fn push_scalar_store(
    out: &mut Vec<Item>,
    place: GlobalPlace,
    leaf: bool,
    x: u32,
) -> Result<(), AllocError>
    requires place { HasLowWord place }
    requires x { x < 255 }
    ensures { OnOk result (out.new.items ≡ out.old.items ++ scalar_store place (home_of leaf x)) }
{
    match place {
        GlobalPlace::Ordinary { word, .. } => {
            push_address(out, word)?;
            push_all(out, &[from_home(9, leaf, x), WRITE])
        }
        GlobalPlace::Critical { word, cell, .. } => {
            let row = Mark::DefCell { cell, index: word };
            push_all(out, &[from_home(10, leaf, x), Item::Mark(row)])
        }
    }
}

/// x is element i of the array.
pub(crate) fn push_element_load(
    out: &mut Vec<Item>,
    place: GlobalPlace,
    leaf: bool,
    x: u32,
    i: u32,
) -> Result<(), AllocError>
    requires place { HasLowWord place }
    requires x { x < 255 }
    requires i { i < 255 }
    ensures { OnOk result (out.new.items ≡ out.old.items ++ element_load place (home_of leaf x) (home_of leaf i)) }
{
    match place {
        GlobalPlace::Ordinary { word, len } => {
            push_element(out, word, len, leaf, i)?;
            push_all(out, &[READ, into_home(9, leaf, x)])
        }
        GlobalPlace::Critical { word, cell, len } => {
            let row = Mark::UseAt {
                cell,
                len,
                index: word,
            };
            push_all(
                out,
                &[
                    from_home(12, leaf, i),
                    Item::Mark(row),
                    into_home(10, leaf, x),
                ],
            )
        }
    }
}

/// Element i of the array is x.
pub(crate) fn push_element_store(
    out: &mut Vec<Item>,
    place: GlobalPlace,
    leaf: bool,
    i: u32,
    x: u32,
) -> Result<(), AllocError>
    requires place { HasLowWord place }
    requires x { x < 255 }
    requires i { i < 255 }
    ensures { OnOk result (out.new.items ≡ out.old.items ++ element_store place (home_of leaf i) (home_of leaf x)) }
{
    match place {
        GlobalPlace::Ordinary { word, len } => {
            push_element(out, word, len, leaf, i)?;
            push_all(out, &[from_home(9, leaf, x), WRITE])
        }
        GlobalPlace::Critical { word, cell, len } => {
            let row = Mark::DefAt {
                cell,
                len,
                index: word,
            };
            push_all(
                out,
                &[
                    from_home(12, leaf, i),
                    from_home(10, leaf, x),
                    Item::Mark(row),
                ],
            )
        }
    }
}

/// x is a reference of the function.
pub(crate) fn push_ref(
    out: &mut Vec<Item>,
    leaf: bool,
    x: u32,
    callee: u32,
) -> Result<(), AllocError>
    requires { x < 255 }
    ensures { OnOk result (out.new.items ≡ out.old.items ++ ref_code (home_of leaf x) callee) }
{
    let address = Item::AddressOf {
        register: 9,
        label: callee,
    };
    push_all(out, &[address, into_home(9, leaf, x)])
}

/// The address of a word of global data, into X11.
fn push_address(out: &mut Vec<Item>, word: u32) -> Result<(), AllocError>
    requires { word ≤ 65536 }
    ensures { OnOk result (out.new.items ≡ out.old.items ++ address_code word) }
{
    push_number(out, GLOBAL_BASE + 8 * u64::from(word))
}

/// The address of the element that local i names, into X11; a number that isn't below the length traps.
fn push_element(
    out: &mut Vec<Item>,
    word: u32,
    len: u32,
    leaf: bool,
    i: u32,
) -> Result<(), AllocError>
    requires word { word ≤ 65536 }
    requires i { i < 255 }
    ensures { OnOk result (out.new.items ≡ out.old.items ++ element_code word len (home_of leaf i)) }
{
    let sum = Inst::AddReg {
        rd: 11,
        rn: 11,
        rm: 12,
        amount: 3,
    };
    push_all(out, &[from_home(12, leaf, i)])?;
    push_number(out, u64::from(len))?;
    push_index_test(out)?;
    push_address(out, word)?;
    push_inst(out, sum)
}

/// The test of X12 against X11, without sign.
fn push_index_test(out: &mut Vec<Item>) -> Result<(), AllocError>
    ensures { OnOk result (out.new.items ≡ out.old.items ++ index_test) }
{
    let test = Inst::SubsReg {
        rd: 31,
        rn: 12,
        rm: 11,
    };
    push_inst(out, test)?;
    push_check(out, Inst::BCond { cond: 3, offset: 2 }, 2)
}
