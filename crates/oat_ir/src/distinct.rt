//! Whether the items of a list are told apart by their names or numbers. No memory is taken, so
//! each item is compared with all behind it.

ghost use Rattle.std.specs.Prelude.{◌≡◌, ◌↔◌, false, Bool, IsTrue};
ghost use Rattle.std.specs.List.{AllByRecursion, IsDistinct};
ghost use Rattle.oat_ir.specs.Distinct.{have_one_name, have_one_operation, have_one_label, are_one_global, are_one_local};

use crate::func::{BlockIr, Func, Local, Role};
use crate::program::GlobalItem;
use oat_map::Name;

/// What two items may have in common.
pub(crate) trait Likeness {
    type Item;

    ghost alike: { Self.Item → Self.Item → Bool };

    fn are_alike(item: &Self::Item, other: &Self::Item) -> bool
        ensures { result ≡ alike item.now other.now };
}

pub(crate) struct GlobalName;

pub(crate) struct FuncName;

pub(crate) struct OperationId;

pub(crate) struct LocalName;

pub(crate) struct BlockLabel;

impl Likeness for GlobalName {
    type Item = GlobalItem;

    ghost alike = { are_one_global };

    fn are_alike(item: &GlobalItem, other: &GlobalItem) -> bool {
        item.name().is_same(other.name())
    }
}

impl Likeness for FuncName {
    type Item = Func;

    ghost alike = { have_one_name };

    fn are_alike(item: &Func, other: &Func) -> bool {
        item.name.is_same(&other.name)
    }
}

impl Likeness for OperationId {
    type Item = Func;

    ghost alike = { have_one_operation };

    fn are_alike(item: &Func, other: &Func) -> bool {
        match (item.role, other.role) {
            (Role::Operation(id), Role::Operation(again)) => id == again,
            _ => false,
        }
    }
}

impl Likeness for LocalName {
    type Item = Local;

    ghost alike = { are_one_local };

    fn are_alike(item: &Local, other: &Local) -> bool {
        item.name.is_same(&other.name)
    }
}

impl Likeness for BlockLabel {
    type Item = BlockIr;

    ghost alike = { have_one_label };

    fn are_alike(item: &BlockIr, other: &BlockIr) -> bool {
        item.label.is_same(&other.label)
    }
}

fn is_unlike<K: Likeness>(item: &K::Item, others: &[K::Item]) -> bool
    ensures { IsTrue result ↔ AllByRecursion (λ other. K.alike item.now other ≡ false) others.now }
{
    !others.iter().any(|other| K::are_alike(item, other))
}

pub(crate) fn are_distinct<K: Likeness>(items: &[K::Item]) -> bool
    ensures { IsTrue result ↔ IsDistinct K.alike items.now }
{
    let mut rest = items;
    'items: while let Some((item, others)) = rest.split_first() {
        if !is_unlike::<K>(item, others) {
            return false;
        }
        rest = others;
    }
    true
}
