//! What the globals of a text hold while it runs.
ghost use Rattle.std.specs.Prelude.{◌≡◌, ◌<◌, [], IfOk, get_or, length, map, set};
ghost use Rattle.oat_tree.specs.Scopes.{globals_of};
ghost use Rattle.oat_tree.specs.Seen.{seen_tree};
ghost use Rattle.oat_check.specs.Globals.{size_in_words, start_of};
ghost use Rattle.oat_langrun.specs.Memories.{first_words};

use oat_ir::GlobalItem;
use oat_tree::Item;
use std::alloc::{AllocError, Global};
use std::marker::Model;

/// The words of each global, in their order.
#[derive(Drop)]
pub struct Memory {
    words: Vec<Vec<u64>>,
}

impl Model for Memory {
    ghost use Rattle.std.specs.Prelude.{ℕ, List, map};

    ghost Value = { List (List ℕ) };

    ghost view = { λ memory. map (λ words. words.items) memory.words.items };
}

fn size_in_words(item: &GlobalItem) -> u32
    ensures { result ≡ size_in_words item.now }
{
    match item {
        GlobalItem::Scalar { .. } | GlobalItem::FnScalar { .. } => 1,
        GlobalItem::Array { len, .. } | GlobalItem::CriticalArray { len, .. } => *len,
    }
}

fn start_of(item: &GlobalItem) -> u64
    ensures { result ≡ start_of item.now }
{
    match item {
        GlobalItem::Scalar { start, .. } => start.cast_unsigned(),
        _ => 0,
    }
}

impl Memory {
    /// All globals as they are at the start.
    pub fn at_start(alloc: Global, items: &[Item]) -> Result<Memory, AllocError>
        ensures { IfOk result (λ memory. memory ≡ map first_words (globals_of (seen_tree items.now))) }
    {
        let mut words = Vec::new(alloc);
        for item in items {
            if let Item::Global(global) = item {
                let size = size_in_words(global) as usize;
                words.push(Vec::from_elem(alloc, start_of(global), size)?)?;
            }
        }
        Ok(Memory { words })
    }

    /// How many words a global has; none where there is no such global.
    pub fn len(&self, global: u32) -> usize
        ensures { result ≡ length (get_or self.now global []) }
    {
        match self.words.as_slice().get(global as usize) {
            Some(words) => words.len(),
            None => 0,
        }
    }

    pub fn get(&self, global: u32, i: usize) -> u64
        requires { i < length (get_or self.now global []) }
        ensures { result ≡ get_or (get_or self.now global []) i 0 }
    {
        self.words[global as usize][i]
    }

    pub fn put(&mut self, global: u32, i: usize, value: u64)
        requires { i < length (get_or self.old global []) }
        ensures { self.new ≡ set self.old global (set (get_or self.old global []) i value) }
    {
        let words = &mut self.words[global as usize];
        words[i] = value;
    }
}
