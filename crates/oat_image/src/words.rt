ghost use Rattle.std.specs.Prelude.{◌≡◌, [], ◌∷◌};
ghost use Rattle.oat_lines.specs.Fields.{spaced, ended};
ghost use Rattle.oat_lines.specs.Hexadecimal.{hexadecimal};
ghost use Rattle.oat_image.specs.Printing.{Takes};

use crate::receiver::Receiver;
use oat_lines::hexadecimal_text;

/// The digits of an address, or of a word of code.
pub(crate) fn address_digits(address: u64) -> [u8; 8]
    ensures { result ≡ hexadecimal 8 address }
{
    hexadecimal_text::<8>(address)
}

/// A line of one word, with its end.
pub(crate) fn put_line<R: Receiver>(out: &mut R, line: &[u8])
    ensures { Takes R.holds (ended line.now) out.old out.new }
{
    out.put(line);
    out.put(b"\n");
}

/// A line of two words.
pub(crate) fn put_two<R: Receiver>(out: &mut R, first: &[u8], second: &[u8])
    ensures { Takes R.holds (ended (spaced (first.now ∷ second.now ∷ []))) out.old out.new }
{
    out.put(first);
    out.put(b" ");
    put_line(out, second);
}

/// A line of three words.
pub(crate) fn put_three<R: Receiver>(out: &mut R, first: &[u8], second: &[u8], third: &[u8])
    ensures { Takes R.holds (ended (spaced (first.now ∷ second.now ∷ third.now ∷ []))) out.old out.new }
{
    out.put(first);
    out.put(b" ");
    put_two(out, second, third);
}

/// A line of four words.
pub(crate) fn put_four<R: Receiver>(
    out: &mut R,
    first: &[u8],
    second: &[u8],
    third: &[u8],
    fourth: &[u8],
)
    ensures { Takes R.holds (ended (spaced (first.now ∷ second.now ∷ third.now ∷ fourth.now ∷ []))) out.old out.new }
{
    out.put(first);
    out.put(b" ");
    put_three(out, second, third, fourth);
}
