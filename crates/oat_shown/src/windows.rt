ghost use Rattle.std.specs.Prelude.{◌≡◌, List, length};
ghost use Rattle.oat_verify.specs.declared.verdict.Verdict.{Verdict};
ghost use Rattle.oat_shown.specs.Windows.{ended_with, is_refusal, refuses_one, want_text, window_number};

use oat_page::Ended;
use oat_verify::Verdict;

/// The number of a window, where its case numbers the windows.
pub fn window_number(calls: Option<u32>, serial: u32) -> Option<u32>
    ensures { result ≡ window_number calls serial }
{
    calls.map(|_| serial)
}

pub fn is_refusal(verdict: &Verdict) -> bool
    ensures { result ≡ is_refusal verdict.now }
{
    matches!(verdict, Verdict::Refuse(_))
}

pub fn refuses_one(verdicts: &[Verdict]) -> bool
    ensures { result ≡ refuses_one verdicts.now }
{
    verdicts.iter().any(|verdict| is_refusal(verdict))
}

/// How the work ends, of so many windows that the case calls for: by how many sealed, and whether a verdict on these refuses.
pub fn ended_with(calls: Option<u32>, sealed: usize, is_refused: bool) -> Ended
    ensures { (verdicts : List Verdict) → sealed ≡ length verdicts → is_refused ≡ refuses_one verdicts → result ≡ ended_with calls verdicts }
{
    if sealed < calls.unwrap_or(1) as usize {
        return Ended::Unsealed;
    }
    if is_refused {
        Ended::Rejected
    } else {
        Ended::Done
    }
}

/// What is said where a blob is wanting.
pub fn want_text(ended: Ended) -> &'static [u8]
    ensures { result.now ≡ want_text ended }
{
    match ended {
        Ended::Unsealed => b"no blob\n",
        Ended::Rejected | Ended::Done => b"",
    }
}
