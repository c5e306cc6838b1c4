//! The functions and blocks of a program, each at the address of its label.
ghost use Rattle.std.specs.Prelude.{◌≡◌, ◌++◌, [], ◌∷◌, ◌<◌, ◌≤◌, ◌+◌, ◌-◌, ◌^◌, ℕ, false, IfOk, OnOk, get_or, length, map, position, take, drop};
ghost use Rattle.std.specs.List.{flat_map};
ghost use Rattle.oat_match.specs.{
  is_referenced,
  IsChecked,
  is_main,
  blocks_from,
  blocks_of,
  function_at,
  functions_of,
  block_names,
  symbol_for,
  symbols_from,
  symbols_of,
};
ghost use Rattle.oat_build.specs.Addresses.{address_in};
ghost use Rattle.oat_build.specs.Listing.{CanList, blocks_between, funcs_between, functions_between, symbol_in};

use crate::addresses::LabelAddresses;
use crate::references::references;
use oat_ir::{BlockIr, Func, Program, Role};
use oat_map::{Block, Function, Name};
use std::alloc::{AllocError, Global};

/// Functions, and their blocks.
#[derive(Drop)]
pub(crate) struct Symbols {
    pub(crate) functions: Vec<Function>,
    pub(crate) blocks: Vec<Block>,
}

/// The functions of a program with their blocks, `main` first and the others in their order.
pub(crate) fn list_symbols(
    alloc: Global,
    program: &Program,
    addresses: &LabelAddresses,
) -> Result<Symbols, AllocError>
    requires { IsChecked program.now }
    ensures functions { IfOk result (λ symbols. symbols.functions.items ≡ functions_of (address_in addresses.now) (symbols_of program.now).functions) }
    ensures blocks { IfOk result (λ symbols. symbols.blocks.items ≡ blocks_of (address_in addresses.now) (symbols_of program.now).functions) }
{
    let funcs = program.funcs.as_slice();
    let references = references(alloc, program)?;
    let lister = Lister {
        program,
        addresses,
        references: references.as_slice(),
    };
    let main = main_index(funcs).unwrap();
    let first = funcs.len() as u32;
    let first_of_main = first + blocks_in(&funcs[..main]);
    let behind_main = first_of_main + funcs[main].blocks.len() as u32;
    let mut symbols = Symbols {
        functions: Vec::new(alloc),
        blocks: Vec::new(alloc),
    };
    lister.list(main, main + 1, first_of_main, &mut symbols)?;
    lister.list(0, main, first, &mut symbols)?;
    lister.list(main + 1, funcs.len(), behind_main, &mut symbols)?;
    Ok(symbols)
}

fn is_main(func: &Func) -> bool
    ensures { result ≡ is_main func.now }
{
    matches!(func.role, Role::Main)
}

fn main_index(funcs: &[Func]) -> Option<usize>
    ensures { result ≡ position is_main funcs.now }
{
    funcs.iter().position(|func| is_main(func))
}

/// How many blocks the functions have.
fn blocks_in(funcs: &[Func]) -> u32
    requires { length (flat_map block_names funcs.now) < 2 ^ 32 }
    ensures { result ≡ length (flat_map block_names funcs.now) }
{
    let mut count = 0;
    for func in funcs {
        count += func.blocks.len() as u32;
    }
    count
}

fn copy_of(name: &Name) -> Name
    ensures { result ≡ name.now }
{
    Name::new(name.as_bytes()).unwrap()
}

/// The blocks, of which the first has this label.
fn list_blocks(
    blocks: &[BlockIr],
    addresses: &LabelAddresses,
    first: u32,
    listed: &mut Vec<Block>,
) -> Result<(), AllocError>
    requires { first + length blocks.now < 2 ^ 32 }
    ensures { OnOk result (listed.new.items ≡ listed.old.items ++ blocks_from (address_in addresses.now) first (map (λ block. block.label) blocks.now)) }
{
    let mut label = first;
    for block in blocks {
        listed.push(Block {
            start: addresses.of(label),
            label: copy_of(&block.label),
        })?;
        label += 1;
    }
    Ok(())
}

/// What is listed of functions: by the addresses of labels, and by which of them a `ref` names.
#[derive(Drop)]
struct Lister<'a> {
    program: &'a Program,
    addresses: &'a LabelAddresses,
    references: &'a [bool],
}

impl<'a> Lister<'a> {
    /// The functions with these numbers, the first block of which has this label.
    fn list(
        &self,
        from: usize,
        to: usize,
        first: u32,
        symbols: &mut Symbols,
    ) -> Result<(), AllocError>
        requires lister { CanList self.now }
        requires from { from ≤ to }
        requires to { to ≤ length self.now.program.now.funcs }
        requires labels { first + length (flat_map block_names (funcs_between self.now.program.now from to)) < 2 ^ 32 }
        ensures functions { OnOk result (symbols.new.functions.items ≡ symbols.old.functions.items ++ functions_between self.now from to first) }
        ensures blocks { OnOk result (symbols.new.blocks.items ≡ symbols.old.blocks.items ++ blocks_between self.now from to first) }
    {
        let mut number = from as u32;
        let mut label = first;
        for func in &self.program.funcs.as_slice()[from..to] {
            self.push(func, number, label, symbols)?;
            number += 1;
            label += func.blocks.len() as u32;
        }
        Ok(())
    }

    /// One function with its number, and its blocks, of which the first has this label.
    fn push(
        &self,
        func: &Func,
        number: u32,
        label: u32,
        symbols: &mut Symbols,
    ) -> Result<(), AllocError>
        requires lister { CanList self.now }
        requires number { number < length self.now.program.now.funcs }
        requires labels { label + length func.now.blocks < 2 ^ 32 }
        ensures functions { OnOk result (symbols.new.functions.items ≡ symbols.old.functions.items ++ function_at (address_in self.now.addresses.now) (symbol_in self.now number label func.now) ∷ []) }
        ensures blocks { OnOk result (symbols.new.blocks.items ≡ symbols.old.blocks.items ++ blocks_from (address_in self.now.addresses.now) label (block_names func.now)) }
    {
        symbols.functions.push(Function {
            entry: self.addresses.of(number),
            name: copy_of(&func.name),
            params: func.params,
            referenced: self.references[number as usize],
        })?;
        list_blocks(
            func.blocks.as_slice(),
            self.addresses,
            label,
            &mut symbols.blocks,
        )
    }
}
