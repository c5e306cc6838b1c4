ghost use Rattle.std.specs.Prelude.{◌≡◌, ◌≢◌, ◌<◌, ◌⊎◌, ℕ, List, Option, Err};
ghost use Rattle.oat_world.specs.Outside.{Rose};
ghost use Rattle.oat_world.specs.declared.sink.SinkFault.{SinkFault};
ghost use Rattle.oat_page.specs.Outcome.{Outcome, says};
ghost use Rattle.oat_page.specs.Texts.{starved};
ghost use Rattle.oat_page.specs.Answer.{IsWorkOutcome};
ghost use Rattle.oat_page.specs.Puts.{PutsAll, SaysLast};
ghost use Rattle.oat_page.specs.Shows.{Put, HasFailed, Shows, put_of};
ghost use Rattle.oat_page.specs.Works.{IsHaltOutcome, IsOutcomeOf, IsReadFault, IsStopOutcome};

use crate::page::{Ended, Halt, Page, Stop};
use crate::pieces::Pieces;
use oat_world::{Sink, SinkFault};
use std::alloc::Global;

const INPUT: u8 = 2;

const NOT_READ: u8 = 4;

const WRITE_FAULT: u8 = 5;

const NO_MEMORY: u8 = 6;

const STARVED: &[u8] = b"want of memory\n";

/// Puts a whole text, one front after another, until a put fails.
pub fn put_all<S: Sink>(sink: &mut S, text: &[u8]) -> Result<(), SinkFault>
    ensures { PutsAll text.now (put_of S.told S.faults sink.old sink.new) result }
{
    let mut done = 0;
    while done < text.len() {
        done += sink.put(&text[done..])?;
    }
    Ok(())
}

/// Puts a text piece by piece, until a put fails or memory is wanting for a piece.
pub fn put_pieces<S: Sink, P: Pieces + Drop>(
    alloc: Global,
    sink: &mut S,
    pieces: P,
) -> Result<(), SinkFault>
    ensures { PutsAll (P.text pieces) (put_of S.told S.faults sink.old sink.new) result }
{
    let mut rest = pieces;
    loop {
        match rest.next(alloc) {
            Ok(Some(piece)) => put_all(sink, piece.as_slice())?,
            Ok(None) => return Ok(()),
            Err(_) => return Err(SinkFault::Memory),
        }
    }
}

/// Puts the last text of a call, and answers the call's status.
pub fn say<E: Sink>(err: &mut E, text: &[u8], status: u8) -> u8
    ensures says { SaysLast text.now (put_of E.told E.faults err.old err.new) status result }
    ensures write_fault { result ≡ 5 → (status ≡ 5) ⊎ Rose (E.faults err.old) (E.faults err.new) }
    ensures raised { E.faults err.old < E.faults err.new → result ≡ 5 }
    ensures read_fault { result ≡ 4 → status ≡ 4 }
{
    match put_all(err, text) {
        Ok(()) => status,
        Err(SinkFault::Failed) => WRITE_FAULT,
        Err(SinkFault::Memory) => NO_MEMORY,
    }
}

/// SaysLast that memory is wanting.
pub fn say_starved<E: Sink>(err: &mut E) -> u8
    ensures says { SaysLast starved.err (put_of E.told E.faults err.old err.new) starved.status result }
    ensures write_fault { result ≡ 5 → Rose (E.faults err.old) (E.faults err.new) }
    ensures raised { E.faults err.old < E.faults err.new → result ≡ 5 }
    ensures no_fault { result ≢ 4 }
{
    say(err, STARVED, NO_MEMORY)
}

/// Says the last text behind a text that was put as far as it went, and answers the call's status.
pub fn close<E: Sink>(put: Result<(), SinkFault>, ended: Ended, said: &[u8], err: &mut E) -> u8
    ensures shows { (text : List ℕ) (out : Put) → PutsAll text out put
        → Shows (IsWorkOutcome ended text said.now) out (put_of E.told E.faults err.old err.new) result }
    ensures write_fault { (text : List ℕ) (out : Put) → PutsAll text out put → result ≡ 5 → HasFailed out ⊎ Rose (E.faults err.old) (E.faults err.new) }
    ensures raised { (text : List ℕ) (out : Put) → PutsAll text out put → (out.before < out.after) ⊎ (E.faults err.old < E.faults err.new) → result ≡ 5 }
    ensures no_fault { result ≢ 4 }
    // Where the text wasn't put whole, the outcome is any with this text.
    ensures stopped { (fault : SinkFault) (o : Outcome) (out : Put) → put ≡ Err fault → PutsAll o.out out put
        → Shows (λ p. p ≡ o) out (put_of E.told E.faults err.old err.new) result }
{
    let Err(fault) = put else {
        return say(err, said, ended.status());
    };
    match fault {
        SinkFault::Failed => WRITE_FAULT,
        SinkFault::Memory => say_starved(err),
    }
}

/// Says why work stopped early, and answers the call's status.
pub fn say_stop<E: Sink>(stop: &Stop, err: &mut E) -> u8
    ensures shows { (out : Option (List ℕ)) (faults : ℕ) → Shows (IsStopOutcome stop.now) (record { held = out; holds = out; before = faults; after = faults }) (put_of E.told E.faults err.old err.new) result }
    ensures write_fault { result ≡ 5 → Rose (E.faults err.old) (E.faults err.new) }
    ensures raised { E.faults err.old < E.faults err.new → result ≡ 5 }
    ensures no_fault { result ≢ 4 }
{
    match stop {
        Stop::Refused(line) => say(err, line.as_slice(), INPUT),
        Stop::Starved => say_starved(err),
    }
}

/// Says why loads stopped, and answers the call's status.
pub fn say_halt<E: Sink>(halt: &Halt, err: &mut E) -> u8
    ensures shows { (out : Option (List ℕ)) (faults : ℕ) → Shows (IsHaltOutcome halt.now) (record { held = out; holds = out; before = faults; after = faults }) (put_of E.told E.faults err.old err.new) result }
    ensures write_fault { result ≡ 5 → Rose (E.faults err.old) (E.faults err.new) }
    ensures raised { E.faults err.old < E.faults err.new → result ≡ 5 }
    ensures read_fault { result ≡ 4 → IsReadFault halt.now }
{
    match halt {
        Halt::ReadFault(line) => say(err, line.as_slice(), NOT_READ),
        Halt::Refused(line) => say(err, line.as_slice(), INPUT),
        Halt::Starved => say_starved(err),
    }
}

/// Puts both texts of a page, and answers the call's status.
fn put_page<P: Pieces + Drop, O: Sink, E: Sink>(
    alloc: Global,
    page: Page<P>,
    out: &mut O,
    err: &mut E,
) -> u8
    ensures shows { Shows (IsWorkOutcome page.ended (P.text page.pieces) page.err.items)
        (put_of O.told O.faults out.old out.new) (put_of E.told E.faults err.old err.new) result }
    ensures write_fault { result ≡ 5 → Rose (O.faults out.old) (O.faults out.new) ⊎ Rose (E.faults err.old) (E.faults err.new) }
    ensures raised { (O.faults out.old < O.faults out.new) ⊎ (E.faults err.old < E.faults err.new) → result ≡ 5 }
    ensures no_fault { result ≢ 4 }
{
    let put = put_pieces(alloc, out, page.pieces);
    close(put, page.ended, page.err.as_slice(), err)
}

/// Puts what the work of a command ended with, and answers the call's status.
pub fn finish<P: Pieces + Drop, O: Sink, E: Sink>(
    alloc: Global,
    work: Result<Page<P>, Stop>,
    out: &mut O,
    err: &mut E,
) -> u8
    ensures shows { Shows (IsOutcomeOf P.text work)
        (put_of O.told O.faults out.old out.new) (put_of E.told E.faults err.old err.new) result }
    ensures write_fault { result ≡ 5 → Rose (O.faults out.old) (O.faults out.new) ⊎ Rose (E.faults err.old) (E.faults err.new) }
    ensures raised { (O.faults out.old < O.faults out.new) ⊎ (E.faults err.old < E.faults err.new) → result ≡ 5 }
    ensures no_fault { result ≢ 4 }
{
    match work {
        Ok(page) => put_page(alloc, page, out, err),
        Err(stop) => say_stop(&stop, err),
    }
}
