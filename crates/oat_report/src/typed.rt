//! A map as its types have it, for laws that speak of all maps.
ghost use Rattle.std.specs.Prelude.{◌<◌, ◌^◌, length};
ghost use Rattle.std.specs.List.{All};
ghost use Rattle.oat_verify.specs.{IsName};
ghost use Rattle.oat_report.specs.SameLines.{BeginsShort, IsOfMapType};

use oat_map::{Block, Function, Map, Row};

/// Looks at each name and number of a map, and so knows that it is of its type.
pub fn look_at_map(map: &Map)
    ensures { IsOfMapType map.now }
{
    look_at_functions(map.functions.as_slice());
    look_at_blocks(map.blocks.as_slice());
    look_at_rows(map.rows.as_slice());
}

fn look_at_functions(functions: &[Function])
    ensures { All (λ function. IsName function.name) functions.now }
{
    for function in functions {
        look_at_function(function);
    }
}

fn look_at_function(function: &Function)
    ensures { IsName function.now.name }
{
    let _name = function.name.as_bytes();
}

fn look_at_blocks(blocks: &[Block])
    ensures { All (λ block. IsName block.label) blocks.now }
{
    for block in blocks {
        look_at_block(block);
    }
}

fn look_at_block(block: &Block)
    ensures { IsName block.now.label }
{
    let _label = block.label.as_bytes();
}

fn look_at_rows(rows: &[Row])
    ensures operations { All BeginsShort rows.now }
    ensures counted { length rows.now < 2 ^ 64 }
{
    let _count = rows.len();
    for row in rows {
        look_at_row(row);
    }
}

fn look_at_row(row: &Row)
    ensures { BeginsShort row.now }
{
    if let Row::Begin { op, .. } = *row {
        look_at_operation(op);
    }
}

fn look_at_operation(op: u16)
    ensures { op < 2 ^ 16 }
{}
