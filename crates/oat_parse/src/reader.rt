//! The reader of one word after the other.

ghost use Rattle.std.specs.Prelude.{◌≡◌, ◌∷◌, ◌++◌, [], map, None, IfOk};
ghost use Rattle.oat_tree.specs.Seen.{seen_item};
ghost use Rattle.oat_grammar.specs.Spots.{spot};
ghost use Rattle.oat_grammar.specs.Mentions.{is_mention};
ghost use Rattle.oat_parse.specs.Nexts.{place_of, next_place};
ghost use Rattle.oat_parse.specs.Pieces.{piece_spots};
ghost use Rattle.oat_parse.specs.Readers.{IsWithinLimits, IsNew, IsNoted, fault_of, ReadsOn, TakesToken, Arrives, is_between, Finishes};

use crate::fault::{ParseFault, ParseKind};
use crate::limits::{Part, depth_behind, is_within, nodes_in, opens, part_next};
use crate::step::{Next, Place, leads_to};
use crate::words::Piece;
use oat_grammar::{Mark, Token};
use oat_tree::Item;
use std::alloc::{AllocError, Global};

/// What was read of a text.
#[derive(Drop)]
pub struct Reader {
    /// Those that ended.
    pub items: Vec<Item>,
    pub place: Place,
    /// How many brackets and braces are open.
    pub depth: u32,
    pub part: Part,
    /// The line of the last word.
    pub last: u32,
    /// The lines of the tokens at which a fault of the tree may stand.
    pub lines: Vec<u32>,
    /// The last word was `operation`.
    pub behind_operation: bool,
}

/// The items of a text, and the lines of the tokens at which a fault of these may stand: of each name, `return`,
/// `main`, `fn`, `operation`, and of the number behind `operation`, in the order of the text.
#[derive(Drop)]
pub struct Parsed {
    pub items: Vec<Item>,
    pub lines: Vec<u32>,
}

impl Reader {
    pub fn new(alloc: Global) -> Reader
        ensures { IsNew result }
    {
        Reader {
            items: Vec::new(alloc),
            place: Place::Between,
            depth: 0,
            part: Part::Fresh,
            last: 1,
            lines: Vec::new(alloc),
            behind_operation: false,
        }
    }
}

fn is_mention(behind_operation: bool, token: &Token) -> bool
    ensures { result ≡ is_mention behind_operation token.now }
{
    match token {
        Token::Named(_) => true,
        Token::Number(_) => behind_operation,
        Token::Fixed(Mark::Return | Mark::Main | Mark::Fn | Mark::Operation) => true,
        Token::Fixed(_) | Token::Sign(_) => false,
    }
}

/// Where the items and the place are behind a token.
#[derive(Drop)]
pub struct Arrival {
    pub items: Vec<Item>,
    pub place: Place,
}

fn arrive(items: Vec<Item>, next: Next) -> Result<Arrival, AllocError>
    ensures { IfOk result (λ a. Arrives items.items next a) }
{
    let mut items = items;
    match next {
        Next::Place(place) => Ok(Arrival { items, place }),
        Next::Item(item) => {
            items.push(item)?;
            Ok(Arrival {
                items,
                place: Place::Between,
            })
        }
    }
}

/// What is wrong with a token before its place is asked.
fn fault_of(reader: &Reader, token: &Token) -> Option<ParseKind>
    ensures { result ≡ fault_of reader.now token.now }
{
    if !is_within(&reader.place, token) {
        Some(ParseKind::Number)
    } else if opens(token) && 64 <= reader.depth {
        Some(ParseKind::Deep)
    } else {
        None
    }
}

/// The reader with the line of its last word among its lines.
fn noted(reader: Reader) -> Result<Reader, AllocError>
    ensures { IfOk result (λ r. IsNoted reader r) }
{
    let mut reader = reader;
    match reader.lines.push(reader.last) {
        Ok(()) => Ok(reader),
        Err(_) => {
            drop(reader);
            Err(AllocError)
        }
    }
}

/// The reader behind a token with which nothing is wrong before its place is asked.
fn go_on(alloc: Global, reader: Reader, line: u32, token: Token) -> Result<Reader, ParseFault>
    requires limits { IsWithinLimits reader }
    requires fits { fault_of reader token ≡ None }
    ensures { TakesToken reader line token result }
{
    let mention = is_mention(reader.behind_operation, &token);
    let part = part_next(reader.part, &token);
    let depth = depth_behind(reader.depth, &token);
    let behind_operation = token.is(Mark::Operation);
    match leads_to(alloc, reader.place, token)? {
        None => Err(ParseFault::At {
            line,
            kind: ParseKind::Expected,
        }),
        Some(next) => {
            if nodes_in(part) > 255 {
                drop(next);
                return Err(ParseFault::At {
                    line,
                    kind: ParseKind::Deep,
                });
            }
            let Arrival { items, place } = arrive(reader.items, next)?;
            let behind = Reader {
                items,
                place,
                depth,
                part,
                last: line,
                lines: reader.lines,
                behind_operation,
            };
            if mention {
                Ok(noted(behind)?)
            } else {
                Ok(behind)
            }
        }
    }
}

fn take_token(alloc: Global, reader: Reader, line: u32, token: Token) -> Result<Reader, ParseFault>
    requires { IsWithinLimits reader }
    ensures { TakesToken reader line token result }
{
    match fault_of(&reader, &token) {
        Some(kind) => {
            drop(reader);
            Err(ParseFault::At { line, kind })
        }
        None => go_on(alloc, reader, line, token),
    }
}

/// The reader behind a word of a line.
fn take(alloc: Global, reader: Reader, line: u32, word: Option<Token>) -> Result<Reader, ParseFault>
    requires { IsWithinLimits reader }
    ensures { ReadsOn reader (spot line word ∷ []) result }
{
    match word {
        Some(token) => take_token(alloc, reader, line, token),
        None => {
            drop(reader);
            Err(ParseFault::At {
                line,
                kind: ParseKind::Token,
            })
        }
    }
}

/// The reader behind a piece of a line.
pub fn read_piece(
    alloc: Global,
    reader: Reader,
    line: u32,
    piece: Piece,
) -> Result<Reader, ParseFault>
    requires { IsWithinLimits reader }
    ensures { ReadsOn reader (piece_spots line piece) result }
{
    match piece {
        Piece::Word(word) => take(alloc, reader, line, word),
        Piece::Blank | Piece::LineFeed => Ok(reader),
    }
}

fn is_between(place: &Place) -> bool
    ensures { result ≡ is_between place.now }
{
    match place {
        Place::Between => true,
        Place::Heading(_) | Place::Inside(_, _) => false,
    }
}

/// What was read of a whole text.
pub fn finish(reader: Reader) -> Result<Parsed, ParseFault>
    ensures { Finishes reader result }
{
    if is_between(&reader.place) {
        drop(reader.place);
        Ok(Parsed {
            items: reader.items,
            lines: reader.lines,
        })
    } else {
        let line = reader.last;
        drop(reader);
        Err(ParseFault::At {
            line,
            kind: ParseKind::Expected,
        })
    }
}
