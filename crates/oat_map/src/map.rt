ghost use Rattle.std.specs.Prelude.{◌≡◌, position, nat_le, IsTrue};
ghost use Rattle.std.specs.List.{list_any};
ghost use Rattle.oat_map.specs.Rows.{address_of, is_called_at, IsOrdered};

use crate::name::Name;
use crate::row::Row;
use oat_list::Listed;

#[derive(Drop)]
pub struct Function {
    pub entry: u64,
    pub name: Name,
    pub params: u8,
    /// Whether an indirect call may lead to it.
    pub referenced: bool,
}

#[derive(Drop)]
pub struct Block {
    pub start: u64,
    pub label: Name,
}

/// The control-flow map. In a well-formed image each list rises by address.
#[derive(Drop)]
pub struct Map {
    pub functions: Listed<Function>,
    pub blocks: Listed<Block>,
    pub rows: Listed<Row>,
}

impl Map {
    ghost use Rattle.std.specs.Prelude.{◌↔◌, slice_get};
    ghost use Rattle.std.specs.Option.{option_and_then};
    ghost use Rattle.oat_map.specs.Rows.{next, start, IsIndirectTarget};

    /// Whether the rows' addresses rise strictly.
    pub fn ordered(&self) -> bool
        ensures { IsTrue result ↔ IsOrdered self.now.rows }
    {
        let rows = self.rows.as_slice();
        for i in 1..rows.len() {
            if rows[i].address() <= rows[i - 1].address() {
                return false;
            }
        }
        true
    }

    /// The index of the row that stands next at or above an address.
    pub fn next_row(&self, t: u64) -> Option<usize>
        requires { IsOrdered self.now.rows }
        ensures index { result ≡ position (λ row. nat_le t (address_of row)) self.now.rows }
        ensures row { option_and_then (slice_get self.now.rows) result ≡ next self.now.rows t }
    {
        row_index(self.rows.as_slice(), t)
    }

    /// Whether an indirect call with this number of parameters may lead to an address.
    ///
    /// Where the entries rise, a `true` takes a binary search; a `false` takes a look at all functions.
    pub fn is_indirect_target(&self, params: u8, target: u64) -> bool
        ensures { IsTrue result ↔ IsIndirectTarget self.now.functions params target }
    {
        let functions = self.functions.as_slice();
        is_found_in_order(functions, params, target) || any_called_at(functions, params, target)
    }

    /// Where an operation starts: behind its Begin row; None where it has none.
    pub fn start(&self, op: u16) -> Option<u64>
        ensures { result ≡ start self.now.rows op }
    {
        self.rows
            .as_slice()
            .iter()
            .find(|row| row.begins(op))
            .map(|row| row.after())
    }
}

fn row_index(rows: &[Row], t: u64) -> Option<usize>
    requires { IsOrdered rows.now }
    ensures { result ≡ position (λ row. nat_le t (address_of row)) rows.now }
{
    let index = rows.partition_point(|row| row.address() < t);
    if index < rows.len() {
        Some(index)
    } else {
        None
    }
}

/// Looks at the one place where the target's function stands if the entries rise.
fn is_found_in_order(functions: &[Function], params: u8, target: u64) -> bool
    ensures { IsTrue result → IsTrue (list_any (is_called_at params target) functions.now) }
{
    let place = functions.partition_point(|function| function.entry < target);
    if place >= functions.len() {
        return false;
    }
    is_called_at(params, target, &functions[place])
}

fn any_called_at(functions: &[Function], params: u8, target: u64) -> bool
    ensures { result ≡ list_any (is_called_at params target) functions.now }
{
    functions
        .iter()
        .any(|function| is_called_at(params, target, function))
}

fn is_called_at(params: u8, target: u64, function: &Function) -> bool
    ensures { result ≡ is_called_at params target function.now }
{
    function.entry == target && function.params == params && function.referenced
}
