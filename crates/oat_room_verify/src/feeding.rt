ghost use Rattle.std.specs.Prelude.{◌≡◌, ℕ, List, [], Ok, OnOk, IfOk};
ghost use Rattle.oat_shown.specs.{IsOperation, Subject, subject_of};
ghost use Rattle.hex.specs.Hex.{decode_of};
ghost use Rattle.oat_feed.specs.Standing.{HasBeenFed};
ghost use Rattle.oat_inputs.specs.BlobText.{AreDigits};
ghost use Rattle.oat_room_verify.specs.Settles.{OnDigits, SettlesBlob};

use oat_feed::{Feed, Settled};
use oat_shape::Shaped;
use oat_verify::Session;
use std::alloc::{AllocError, Global};

/// The most bytes that are decoded together.
const PIECE: usize = 4096;

/// Gives a feed the bytes of these digits, a piece at a time.
fn feed_digits(feed: &mut Feed<'_>, digits: &[u8]) -> Result<(), AllocError>
    requires { AreDigits digits.now }
    ensures { (s : Subject) (bytes : List ℕ) → HasBeenFed feed.old s [] → decode_of digits.now ≡ Ok bytes → OnOk result (HasBeenFed feed.new s bytes) }
{
    let mut piece = [0; PIECE];
    let mut done = 0;
    while done < digits.len() {
        let end = done + (digits.len() - done).min(2 * PIECE);
        let size = (end - done) / 2;
        let decoded = hex::decode_to_slice(&digits[done..end], &mut piece[..size]);
        decoded.unwrap();
        feed.piece(&piece[..size])?;
        done = end;
    }
    Ok(())
}

/// The verdict on the bytes of a blob's digits, which are kept no longer than it takes, and their records.
pub fn settle(
    alloc: Global,
    shaped: &Shaped,
    session: &Session,
    digits: &[u8],
) -> Result<Settled, AllocError>
    requires operation { IsOperation shaped.now.map session.now.op }
    requires digits { AreDigits digits.now }
    ensures { OnDigits digits.now (λ bytes. IfOk result (SettlesBlob (subject_of shaped.now session.now) bytes)) }
{
    let mut feed = Feed::new(alloc, shaped, session)?;
    feed_digits(&mut feed, digits)?;
    feed.settle(alloc)
}
