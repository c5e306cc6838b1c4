// The keywords of rows.
ghost use Rattle.std.specs.Prelude.{◌≡◌};
ghost use Rattle.oat_image.specs.RowReading.{is_kind_in, kind_in, kind_of};

use crate::element::ElementKind;
use crate::fault::ImageFaultKind;

/// A row where the flow may turn.
#[derive(Clone, Copy)]
pub(crate) enum EdgeKind {
    Jump,
    Branch,
    Call,
    ICall,
    Ret,
}

/// A row that the flow passes, or where it is measured from or to.
#[derive(Clone, Copy)]
pub(crate) enum PointKind {
    Begin,
    End,
    UseCell,
    DefCell,
    Check,
}

/// What kind of row a line's keyword begins.
#[derive(Clone, Copy)]
pub(crate) enum RowKind {
    Edge(EdgeKind),
    Point(PointKind),
    Element(ElementKind),
}

fn read_kind(word: &[u8]) -> Option<RowKind>
    ensures { result ≡ kind_of word.now }
{
    if word == b"jump".as_slice() {
        Some(RowKind::Edge(EdgeKind::Jump))
    } else if word == b"branch".as_slice() {
        Some(RowKind::Edge(EdgeKind::Branch))
    } else if word == b"call".as_slice() {
        Some(RowKind::Edge(EdgeKind::Call))
    } else if word == b"icall".as_slice() {
        Some(RowKind::Edge(EdgeKind::ICall))
    } else if word == b"ret".as_slice() {
        Some(RowKind::Edge(EdgeKind::Ret))
    } else if word == b"begin".as_slice() {
        Some(RowKind::Point(PointKind::Begin))
    } else if word == b"end".as_slice() {
        Some(RowKind::Point(PointKind::End))
    } else if word == b"use".as_slice() {
        Some(RowKind::Point(PointKind::UseCell))
    } else if word == b"def".as_slice() {
        Some(RowKind::Point(PointKind::DefCell))
    } else if word == b"check".as_slice() {
        Some(RowKind::Point(PointKind::Check))
    } else if word == b"useat".as_slice() {
        Some(RowKind::Element(ElementKind::UseAt))
    } else if word == b"defat".as_slice() {
        Some(RowKind::Element(ElementKind::DefAt))
    } else {
        None
    }
}

fn is_kind_in(second: bool, kind: RowKind) -> bool
    ensures { result ≡ is_kind_in second kind }
{
    match kind {
        RowKind::Element(_) => second,
        RowKind::Edge(_) | RowKind::Point(_) => true,
    }
}

/// The kind of row that a keyword begins in a version of the text.
#[tactic(auto, unfolding(crate::specs::RowReading::kind_in))]
pub(crate) fn read_kind_in(second: bool, word: &[u8]) -> Result<RowKind, ImageFaultKind>
    ensures { result ≡ kind_in second word.now }
{
    match read_kind(word) {
        Some(kind) if is_kind_in(second, kind) => Ok(kind),
        _ => Err(ImageFaultKind::Token),
    }
}
