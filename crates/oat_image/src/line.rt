ghost use Rattle.std.specs.Prelude.{◌≡◌, ◌↔◌, ◌<◌, ◌≤◌, ◌^◌, IsTrue, IfOk, Some};
ghost use Rattle.oat_image.specs.Grammar.{code_line, data_line, cell_line, flag_text, function_line, block_line, IsAddress, IsWord, IsIndex, IsInitWord, IsFunction, IsBlock};
ghost use Rattle.oat_image.specs.LineReading.{eight_digits, number_in, value_of, flag_of, spelled_name, code_of, data_of, cell_of, function_with, function_of, block_of, no_key, index_key, cell_key, entry_key, start_key};

use crate::fault::ImageFaultKind;
use crate::image::InitWord;
use crate::receiver::Receiver;
use crate::text::Form;
use crate::words::{address_digits, put_four, put_line, put_two};
use itoa::Buffer;
use oat_lines::{
    hexadecimal_text, read_decimal, read_four_fields, read_hexadecimal, read_one_field,
    read_two_fields,
};
use oat_map::{Block, Function, Name};

/// A word of code.
pub(crate) struct CodeLine;

/// A word of data.
pub(crate) struct DataLine;

/// A critical cell.
pub(crate) struct CellLine;

pub(crate) struct FunctionLine;

pub(crate) struct BlockLine;

pub(crate) fn read_address(word: &[u8]) -> Result<u64, ImageFaultKind>
    ensures value { result ≡ eight_digits word.now }
    ensures bound { IfOk result (λ n. n < 2 ^ 32) }
{
    let Some(number) = read_hexadecimal(8, word) else {
        return Err(ImageFaultKind::Number);
    };
    Ok(number)
}

pub(crate) fn read_number(least: u64, most: u64, word: &[u8]) -> Result<u64, ImageFaultKind>
    requires { most ≤ 65535 }
    ensures value { result ≡ number_in least most word.now }
    ensures bound { IfOk result (λ n. n ≤ most) }
{
    let Some(number) = read_decimal(word) else {
        return Err(ImageFaultKind::Number);
    };
    if number < least || number > most {
        return Err(ImageFaultKind::Number);
    }
    Ok(number)
}

fn read_value(word: &[u8]) -> Result<u64, ImageFaultKind>
    ensures { result ≡ value_of word.now }
{
    let Some(value) = read_hexadecimal(16, word) else {
        return Err(ImageFaultKind::Number);
    };
    if value == 0 {
        return Err(ImageFaultKind::Number);
    }
    Ok(value)
}

fn read_flag(word: &[u8]) -> Result<bool, ImageFaultKind>
    ensures { result ≡ flag_of word.now }
{
    let number = read_number(0, 1, word)?;
    Ok(number == 1)
}

fn read_name(word: &[u8]) -> Result<Name, ImageFaultKind>
    ensures { result ≡ spelled_name word.now }
{
    match Name::new(word) {
        Some(name) => Ok(name),
        None => Err(ImageFaultKind::Token),
    }
}

pub(crate) fn is_address(address: u64) -> bool
    ensures { IsTrue result ↔ IsAddress address }
{
    address < 1 << 32
}

fn is_index(index: u32) -> bool
    ensures { IsTrue result ↔ IsIndex index }
{
    index <= 65_535
}

impl Form for CodeLine {
    type Item = u32;

    ghost reads = { code_of };

    ghost key = { no_key };

    ghost spelling = { code_line };

    ghost fits = { IsWord };

    #[tactic(auto, unfolding(crate::specs::LineReading::code_of))]
    fn read(line: &[u8]) -> Result<u32, ImageFaultKind> {
        let Some(word) = read_one_field(line) else {
            return Err(ImageFaultKind::Token);
        };
        let number = read_address(word)?;
        Ok(number as u32)
    }

    fn key(_item: &u32) -> Option<u64> {
        None
    }

    fn fits(word: &u32) -> bool {
        // Each number of 32 bits is a word.
        let _word = *word;
        true
    }

    fn put<R: Receiver>(word: &u32, out: &mut R) {
        put_line(out, &address_digits(u64::from(*word)));
    }
}

impl Form for DataLine {
    type Item = InitWord;

    ghost reads = { data_of };

    ghost key = { index_key };

    ghost spelling = { data_line };

    ghost fits = { IsInitWord };

    #[tactic(auto, unfolding(crate::specs::LineReading::data_of))]
    fn read(line: &[u8]) -> Result<InitWord, ImageFaultKind> {
        let Some((first, second)) = read_two_fields(line) else {
            return Err(ImageFaultKind::Token);
        };
        let index = read_number(0, 65535, first)? as u32;
        let value = read_value(second)?;
        Ok(InitWord { index, value })
    }

    fn key(item: &InitWord) -> Option<u64> {
        Some(u64::from(item.index))
    }

    fn fits(word: &InitWord) -> bool {
        is_index(word.index) && word.value != 0
    }

    fn put<R: Receiver>(word: &InitWord, out: &mut R) {
        let mut index = Buffer::new();
        put_two(
            out,
            index.format(word.index).as_bytes(),
            &hexadecimal_text::<16>(word.value),
        );
    }
}

impl Form for CellLine {
    type Item = u32;

    ghost reads = { cell_of };

    ghost key = { cell_key };

    ghost spelling = { cell_line };

    ghost fits = { IsIndex };

    #[tactic(auto, unfolding(crate::specs::LineReading::cell_of))]
    fn read(line: &[u8]) -> Result<u32, ImageFaultKind> {
        let Some(word) = read_one_field(line) else {
            return Err(ImageFaultKind::Token);
        };
        let number = read_number(0, 65535, word)?;
        Ok(number as u32)
    }

    fn key(item: &u32) -> Option<u64> {
        Some(u64::from(*item))
    }

    fn fits(index: &u32) -> bool {
        is_index(*index)
    }

    fn put<R: Receiver>(index: &u32, out: &mut R) {
        let mut digits = Buffer::new();
        put_line(out, digits.format(*index).as_bytes());
    }
}

#[tactic(auto, unfolding(crate::specs::LineReading::function_with))]
fn read_function(
    name: Name,
    entry: &[u8],
    params: &[u8],
    flag: &[u8],
) -> Result<Function, ImageFaultKind>
    ensures { result ≡ function_with name entry.now params.now flag.now }
{
    let entry = read_address(entry)?;
    let params = read_number(0, 4, params)? as u8;
    let referenced = read_flag(flag)?;
    Ok(Function {
        entry,
        name,
        params,
        referenced,
    })
}

fn flag_character(flag: bool) -> &'static [u8]
    ensures { result.now ≡ flag_text flag }
{
    if flag { b"1" } else { b"0" }
}

impl Form for FunctionLine {
    type Item = Function;

    ghost reads = { function_of };

    ghost key = { entry_key };

    ghost spelling = { function_line };

    ghost fits = { IsFunction };

    #[tactic(auto, unfolding(crate::specs::LineReading::function_of))]
    fn read(line: &[u8]) -> Result<Function, ImageFaultKind> {
        let Some((entry, name, params, flag)) = read_four_fields(line) else {
            return Err(ImageFaultKind::Token);
        };
        let name = read_name(name)?;
        read_function(name, entry, params, flag)
    }

    fn key(item: &Function) -> Option<u64> {
        Some(item.entry)
    }

    fn fits(function: &Function) -> bool {
        // A name is one by its type.
        let _name = function.name.as_bytes();
        is_address(function.entry) && function.params <= 4
    }

    fn put<R: Receiver>(function: &Function, out: &mut R) {
        let mut params = Buffer::new();
        put_four(
            out,
            &address_digits(function.entry),
            function.name.as_bytes(),
            params.format(function.params).as_bytes(),
            flag_character(function.referenced),
        );
    }
}

impl Form for BlockLine {
    type Item = Block;

    ghost reads = { block_of };

    ghost key = { start_key };

    ghost spelling = { block_line };

    ghost fits = { IsBlock };

    #[tactic(auto, unfolding(crate::specs::LineReading::block_of))]
    fn read(line: &[u8]) -> Result<Block, ImageFaultKind> {
        let Some((start, label)) = read_two_fields(line) else {
            return Err(ImageFaultKind::Token);
        };
        let label = read_name(label)?;
        let start = read_address(start)?;
        Ok(Block { start, label })
    }

    fn key(item: &Block) -> Option<u64> {
        Some(item.start)
    }

    fn fits(block: &Block) -> bool {
        // A label is a name by its type.
        let _name = block.label.as_bytes();
        is_address(block.start)
    }

    fn put<R: Receiver>(block: &Block, out: &mut R) {
        put_two(out, &address_digits(block.start), block.label.as_bytes());
    }
}
