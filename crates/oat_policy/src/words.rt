//! The words of an edge's path line, in pieces that are borrowed from the map and from the digits of the edge's numbers.

ghost use Rattle.std.specs.Prelude.{◌≡◌, ◌∷◌, [], map};
ghost use Rattle.std.specs.Option.{option_and_then};
ghost use Rattle.std.specs.Fmt.{decimal};
ghost use Rattle.oat_report.specs.{Map, place_name, block_name, function_below, site, call_site};
ghost use Rattle.oat_report.specs.PathLine.{place_text, site_text, bit_text, address_digits};
ghost use Rattle.oat_policy.specs.EdgeWords.{edge_words};
ghost use Rattle.oat_policy.specs.Pieces.{place_word, path_word, path_words};

use itoa::Buffer;
use oat_lines::hexadecimal_text;
use oat_report::{
    Edge, Map, block_at, call_of, function_at, last_below, number_in_place, place_at_or_below,
    without_zeros,
};

/// A name, and a label behind a point.
#[derive(Clone, Copy)]
pub struct PlaceWord<'a> {
    pub name: &'a [u8],
    pub label: Option<&'a [u8]>,
}

/// A word of a path line: a place, a keyword or a number, and digits behind a number sign.
#[derive(Clone, Copy)]
pub struct PathWord<'a> {
    pub place: PlaceWord<'a>,
    pub number: Option<&'a [u8]>,
}

/// The words of an edge's path line: the first `count`.
#[derive(Clone, Copy)]
pub struct EdgeWords<'a> {
    pub words: [PathWord<'a>; 4],
    pub count: usize,
}

/// Room for the digits of an edge's numbers.
#[derive(Clone, Copy)]
pub struct DigitRoom {
    first: Buffer,
    second: Buffer,
    from: [u8; 16],
    to: [u8; 16],
}

impl DigitRoom {
    pub fn new() -> DigitRoom {
        DigitRoom {
            first: Buffer::new(),
            second: Buffer::new(),
            from: [0; 16],
            to: [0; 16],
        }
    }
}

impl EdgeWords<'_> {
    pub fn as_slice(&self) -> &[PathWord<'_>]
        ensures { map path_word result.now ≡ path_words self.now }
    {
        let end = self.count.min(4);
        &self.words[..end]
    }
}

fn name_alone(name: &[u8]) -> PlaceWord<'_>
    ensures { place_word result ≡ name.now }
{
    PlaceWord { name, label: None }
}

fn unnumbered(place: PlaceWord<'_>) -> PathWord<'_>
    ensures { path_word result ≡ place_word place.entry }
{
    PathWord {
        place,
        number: None,
    }
}

fn plain(word: &[u8]) -> PathWord<'_>
    ensures { path_word result ≡ word.now }
{
    unnumbered(name_alone(word))
}

/// The name of the last function that is entered below a place, or nothing.
fn name_below(map: &Map, place: u64) -> &[u8]
    ensures { result.now ≡ function_below map.now place }
{
    match last_below(map.functions.as_slice(), place) {
        Some(function) => function.name.as_bytes(),
        None => &[],
    }
}

fn block_name(map: &Map, place: u64) -> PlaceWord<'_>
    ensures { place_word result ≡ place_text (block_name map.now place) }
{
    match block_at(map.blocks.as_slice(), place) {
        Some(block) => PlaceWord {
            name: name_below(map, place),
            label: Some(block.label.as_bytes()),
        },
        None => name_alone(b"-"),
    }
}

fn place_name(map: &Map, place: u64) -> PlaceWord<'_>
    ensures { place_word result ≡ place_text (place_name map.now place) }
{
    match function_at(map.functions.as_slice(), place) {
        Some(function) => name_alone(function.name.as_bytes()),
        None => block_name(map, place),
    }
}

fn name_of_some(map: &Map, place: Option<u64>) -> PlaceWord<'_>
    ensures { place_word result ≡ place_text (option_and_then (place_name map.now) place) }
{
    match place {
        Some(place) => place_name(map, place),
        None => name_alone(b"-"),
    }
}

fn target_word(map: &Map, target: u64) -> PathWord<'_>
    ensures { path_word result ≡ place_text (place_name map.now target) }
{
    unnumbered(place_name(map, target))
}

fn site_word<'a>(map: &'a Map, address: u64, digits: &'a mut Buffer) -> PathWord<'a>
    ensures { path_word result ≡ site_text (site map.now address) }
{
    let place = place_at_or_below(map, address);
    let number = number_in_place(map, place, address);
    PathWord {
        place: name_of_some(map, place),
        number: Some(digits.format(number).as_bytes()),
    }
}

fn call_word<'a>(map: &'a Map, back: u64, digits: &'a mut Buffer) -> PathWord<'a>
    ensures { path_word result ≡ site_text (call_site map.now back) }
{
    site_word(map, call_of(map.rows.as_slice(), back), digits)
}

fn bit_word(bit: bool) -> PathWord<'static>
    ensures { path_word result ≡ bit_text bit }
{
    plain(if bit { b"1" } else { b"0" })
}

fn number_word(number: usize, digits: &mut Buffer) -> PathWord<'_>
    ensures { path_word result ≡ decimal number }
{
    plain(digits.format(number).as_bytes())
}

fn address_word(address: u64, digits: &mut [u8; 16]) -> PathWord<'_>
    ensures { path_word result ≡ address_digits address }
{
    *digits = hexadecimal_text::<16>(address);
    plain(without_zeros(digits))
}

fn edge_of_two<'a>(first: PathWord<'a>, second: PathWord<'a>) -> EdgeWords<'a>
    ensures { path_words result ≡ path_word first.entry ∷ path_word second.entry ∷ [] }
{
    EdgeWords {
        words: [first, second, second, second],
        count: 2,
    }
}

fn edge_of_three<'a>(
    first: PathWord<'a>,
    second: PathWord<'a>,
    third: PathWord<'a>,
) -> EdgeWords<'a>
    ensures { path_words result ≡ path_word first.entry ∷ path_word second.entry ∷ path_word third.entry ∷ [] }
{
    EdgeWords {
        words: [first, second, third, third],
        count: 3,
    }
}

fn words_to_place<'a>(
    keyword: &'a [u8],
    map: &'a Map,
    from: u64,
    to: u64,
    digits: &'a mut DigitRoom,
) -> EdgeWords<'a>
    ensures { path_words result ≡ keyword.now ∷ site_text (site map.now from) ∷ place_text (place_name map.now to) ∷ [] }
{
    edge_of_three(
        plain(keyword),
        site_word(map, from, &mut digits.first),
        target_word(map, to),
    )
}

fn branch_words<'a>(
    map: &'a Map,
    from: u64,
    bit: bool,
    to: u64,
    digits: &'a mut DigitRoom,
) -> EdgeWords<'a>
    ensures { path_words result ≡ edge_words map.now (Edge.Branch from bit to) }
{
    EdgeWords {
        words: [
            plain(b"branch"),
            site_word(map, from, &mut digits.first),
            bit_word(bit),
            target_word(map, to),
        ],
        count: 4,
    }
}

fn return_words<'a>(map: &'a Map, from: u64, to: u64, digits: &'a mut DigitRoom) -> EdgeWords<'a>
    ensures { path_words result ≡ edge_words map.now (Edge.Ret from to) }
{
    edge_of_three(
        plain(b"ret"),
        site_word(map, from, &mut digits.first),
        call_word(map, to, &mut digits.second),
    )
}

fn end_words(op: u16, digits: &mut DigitRoom) -> EdgeWords<'_>
    ensures { (flow : Map) → path_words result ≡ edge_words flow (Edge.End op) }
{
    edge_of_two(
        plain(b"end"),
        number_word(usize::from(op), &mut digits.first),
    )
}

fn stray_words(from: u64, to: u64, digits: &mut DigitRoom) -> EdgeWords<'_>
    ensures { (flow : Map) → path_words result ≡ edge_words flow (Edge.Stray from to) }
{
    edge_of_three(
        plain(b"stray"),
        address_word(from, &mut digits.from),
        address_word(to, &mut digits.to),
    )
}

/// The words of the edge's line.
pub fn words_of<'a>(map: &'a Map, edge: &Edge, digits: &'a mut DigitRoom) -> EdgeWords<'a>
    ensures { path_words result ≡ edge_words map.now edge.now }
{
    match *edge {
        Edge::Jump { from, to } => words_to_place(b"jump", map, from, to, digits),
        Edge::Branch { from, bit, to } => branch_words(map, from, bit, to, digits),
        Edge::Call { from, to } => words_to_place(b"call", map, from, to, digits),
        Edge::ICall { from, to } => words_to_place(b"icall", map, from, to, digits),
        Edge::Ret { from, to } => return_words(map, from, to, digits),
        Edge::End { op } => end_words(op, digits),
        Edge::Stray { from, to } => stray_words(from, to, digits),
    }
}
