ghost use Rattle.std.specs.Prelude.{◌≡◌, ◌++◌, codes, decimal, flat_map, pos, IfOk, OnOk};
ghost use Rattle.oat_text.specs.{ended};
ghost use Rattle.oat_make.specs.Text.{drill_text, helper_lines, main_lines, work_lines};

use crate::draws::Draws;
use std::alloc::{AllocError, Global};

/// Bytes behind the text so far.
fn put(out: &mut Vec<u8>, bytes: &[u8]) -> Result<(), AllocError>
    ensures { OnOk result (out.new.items ≡ out.old.items ++ bytes.now) }
{
    out.extend_from_slice(bytes)
}

fn put_limit(out: &mut Vec<u8>, limit: u64) -> Result<(), AllocError>
    ensures { OnOk result (out.new.items ≡ out.old.items ++ ended (codes "critical limit " ++ decimal limit)) }
{
    let line = format!(in *out.allocator(); "critical limit {limit}\n")?;
    put(out, line.as_bytes())
}

/// A function that is called in each round.
fn put_helper(out: &mut Vec<u8>, j: u64, constant: u64) -> Result<(), AllocError>
    ensures { OnOk result (out.new.items ≡ out.old.items ++ flat_map ended (helper_lines j (pos constant))) }
{
    let lines = format!(in *out.allocator();
        "func h{j} v:i64\n\
        local k i64\nlocal m i64\nlocal c i64\n\
        block b0\nconst k {constant}\nadd v v k\nload m limit\nlt c m v\nbranch c over under\n\
        block over\nsub v v m\nret v\n\
        block under\nret v\n\
        end\n"
    )?;
    put(out, lines.as_bytes())
}

/// The operation and the main function, which are those of each number.
const WORK_AND_MAIN: &[u8] = b"operation 1 work n:i64\n\
    local i i64\nlocal one i64\nlocal x i64\nlocal c i64\nlocal f fn/1\n\
    block b0\nconst one 1\njump test\n\
    block test\nlt c i n\nbranch c body done\n\
    block body\nin x\n\
    call x h0 x\ncall x h1 x\ncall x h2 x\ncall x h3 x\n\
    call x h4 x\ncall x h5 x\ncall x h6 x\ncall x h7 x\n\
    call x h8 x\ncall x h9 x\ncall x h10 x\ncall x h11 x\n\
    call x h12 x\ncall x h13 x\ncall x h14 x\ncall x h15 x\n\
    ref f h0\nicall x f x\nout x\nadd i i one\njump test\n\
    block done\nret i\n\
    end\n\
    main\n\
    local n i64\nlocal s i64\n\
    block b0\nconst n 80\ncall s work n\nhalt\n\
    end\n";

fn put_work_and_main(out: &mut Vec<u8>) -> Result<(), AllocError>
    ensures { OnOk result (out.new.items ≡ out.old.items ++ flat_map ended (work_lines ++ main_lines)) }
{
    put(out, WORK_AND_MAIN)
}

/// The text of the drill's program.
pub fn make_program(alloc: Global, number: u32) -> Result<Vec<u8>, AllocError>
    ensures { IfOk result (λ text. text.items ≡ drill_text number) }
{
    let mut draws = Draws {
        state: u64::from(number),
    };
    let mut text = Vec::new(alloc);
    put_limit(&mut text, draws.draw() % 1000)?;
    for j in 0..16u64 {
        put_helper(&mut text, j, draws.draw() % 100)?;
    }
    put_work_and_main(&mut text)?;
    Ok(text)
}
