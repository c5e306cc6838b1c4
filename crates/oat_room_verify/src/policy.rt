ghost use Rattle.std.specs.Prelude.{◌≡◌, ◌≢◌, ◌<◌, ◌⊎◌, List, map, IfOk, IsSome, MatchResult, ◌∷◌, []};
ghost use Rattle.oat_shown.specs.{
  Rose,
  Memory,
  fault_text,
  Edge,
  IsOperation,
  start,
  Verdict,
  subject_of,
  IsAnswered,
  put_of,
  Shows,
  line,
  blob_limit,
  case_limit,
  image_limit,
  policy_limit,
  turns_of_some,
  IsRefusal,
  StopsWith,
};
ghost use Rattle.oat_policy.specs.FaultText.{policy_fault_word};
ghost use Rattle.oat_policy.specs.Verdict.{verdict_of};
ghost use Rattle.oat_inputs.specs.BlobText.{AreDigits};
ghost use Rattle.oat_room_verify.specs.Settles.{HasPath, IsPathOf, OnDigits, PutsReport, ShowsOnDigits, TellsVerdict};
ghost use Rattle.oat_room_verify.specs.Policy.{IsPolicyText, RefusesPolicy, said_of, policy_text, said_text, ended_by, ConcludesWith, IsOpenedWith, Polices, SettlesWith};

use crate::feeding::settle;
use crate::report::{PATH_LIMIT, put_report};
use oat_feed::{FeedVerdict, Kept, Settled};
use oat_inputs::admit::{Admitted, admit};
use oat_inputs::digits_of;
use oat_page::{Ended, File, Pieces, Stop, close, put_pieces, refused, say_starved, say_stop};
use oat_policy::{Policy, PolicyFault, PolicyVerdict, Watch, read_policy};
use oat_replay::{Replay, Turn};
use oat_shape::Shaped;
use oat_shown::{Sink, SinkFault};
use oat_verify::Session;
use std::alloc::{AllocError, Global};

/// The line of what a policy says, if it says something.
#[derive(Drop)]
pub struct PolicyLine {
    said: Option<PolicyVerdict>,
}

fn policy_line(alloc: Global, said: PolicyVerdict) -> Result<Vec<u8>, AllocError>
    ensures { IfOk result (λ text. text.items ≡ line (policy_text said)) }
{
    match said {
        PolicyVerdict::Holds => Vec::from_slice(alloc, b"policy holds\n"),
        PolicyVerdict::Breaks { line, place } => {
            Ok(format!(in alloc; "policy breaks {line} {place}\n")?.into_bytes())
        }
    }
}

impl Pieces for PolicyLine {
    ghost text = { λ lines. said_text lines.said };

    ghost turns = { λ lines. turns_of_some (λ said. 1) lines.said };

    fn next(&mut self, alloc: Global) -> Result<Option<Vec<u8>>, AllocError> {
        match self.said {
            Some(said) => {
                let line = policy_line(alloc, said)?;
                self.said = None;
                Ok(Some(line))
            }
            None => Ok(None),
        }
    }
}

/// What is said of a policy text's fault; the error is want of memory.
fn policy_fault(alloc: Global, name: &str, fault: PolicyFault) -> Result<Stop, AllocError>
    ensures of_text { IfOk result (λ stop. fault ≢ Memory) }
    ensures told { IsRefusal name.now (fault_text policy_fault_word fault) result }
{
    match fault {
        PolicyFault::Memory => Err(AllocError),
        _ => refused(alloc, name, fault),
    }
}

/// The policy of the file.
fn policy_in(alloc: Global, file: &File) -> Result<Policy, Stop>
    requires { file.now.limit ≡ policy_limit }
    ensures { MatchResult result (IsPolicyText file.now.text) (StopsWith (RefusesPolicy file.now)) }
{
    match read_policy(alloc, file.text()) {
        Ok(policy) => Ok(policy),
        Err(fault) => Err(policy_fault(alloc, file.name(), fault)?),
    }
}

/// What a policy says of the path of the walk with these records, each edge as the replay finds it.
fn said_of_walk(
    alloc: Global,
    policy: &Policy,
    shaped: &Shaped,
    op: u16,
    kept: &Kept,
) -> Result<PolicyVerdict, AllocError>
    requires begun { IsSome (start shaped.now.map.rows op) }
    requires walked { (path : List Edge) × IsPathOf shaped.now.map op kept.now path }
    ensures { (path : List Edge) → IsPathOf shaped.now.map op kept.now path → IfOk result (λ said. said ≡ verdict_of shaped.now.map policy.now path) }
{
    let map = &shaped.image().map;
    let mut replay = Replay::new(alloc, map, op)?;
    let mut watch = Watch::new(alloc, policy, map)?;
    for turn in 0..PATH_LIMIT + 1 {
        match replay.turn(kept) {
            Turn::Moved(edge) => watch.edge(&edge),
            Turn::Passed => {}
            Turn::Done(edge) => {
                watch.edge(&edge);
                return Ok(watch.finish());
            }
            Turn::Stuck(_) => unreachable!(),
        }
    }
    unreachable!()
}

/// What a policy says of the path of an acceptance.
fn said_of(
    alloc: Global,
    policy: &Policy,
    shaped: &Shaped,
    op: u16,
    settled: &Settled,
) -> Result<Option<PolicyVerdict>, AllocError>
    requires begun { IsSome (start shaped.now.map.rows op) }
    requires path { HasPath shaped.now.map op settled.now }
    ensures { (verdict : Verdict) → TellsVerdict shaped.now.map op settled.now verdict → IfOk result (λ said. said ≡ said_of shaped.now.map policy.now verdict) }
{
    match settled.verdict {
        FeedVerdict::Accept => {
            let said = said_of_walk(alloc, policy, shaped, op, &settled.kept)?;
            Ok(Some(said))
        }
        FeedVerdict::Refuse(_) => Ok(None),
    }
}

/// How the work ends by what a policy says.
fn ended_by(said: Option<PolicyVerdict>) -> Ended
    ensures { result ≡ ended_by said }
{
    match said {
        Some(PolicyVerdict::Holds) => Ended::Done,
        _ => Ended::Rejected,
    }
}

/// What was settled of a blob, and what a policy says of an accepted path.
#[derive(Drop)]
struct Ruled {
    settled: Settled,
    said: Option<PolicyVerdict>,
}

/// The verdict on the bytes of a blob's digits, and what the policy says of its path.
fn rule(
    alloc: Global,
    shaped: &Shaped,
    session: &Session,
    digits: &[u8],
    policy: &Policy,
) -> Result<Ruled, AllocError>
    requires operation { IsOperation shaped.now.map session.now.op }
    requires digits { AreDigits digits.now }
    ensures { OnDigits digits.now (λ bytes. IfOk result (λ ruled. SettlesWith (subject_of shaped.now session.now) policy.now bytes ruled.settled ruled.said)) }
{
    let settled = settle(alloc, shaped, session, digits)?;
    let said = said_of(alloc, policy, shaped, session.op, &settled)?;
    Ok(Ruled { settled, said })
}

/// Puts the report, and behind it what the policy says.
fn put_ruled<S: Sink>(
    alloc: Global,
    sink: &mut S,
    shaped: &Shaped,
    op: u16,
    ruled: &Ruled,
) -> Result<(), SinkFault>
    requires begun { IsSome (start shaped.now.map.rows op) }
    requires path { HasPath shaped.now.map op ruled.now.settled }
    ensures { PutsReport shaped.now.map op ruled.now.settled (said_text ruled.now.said) (put_of S.told S.faults sink.old sink.new) result }
{
    put_report(alloc, sink, shaped, op, &ruled.settled)?;
    put_pieces(alloc, sink, PolicyLine { said: ruled.said })
}

/// Puts the report of the verdict on the bytes of a blob's digits with what the policy says, and answers the status.
fn conclude_with<O: Sink, E: Sink>(
    alloc: Global,
    opened: &OpenedWith<'_>,
    out: &mut O,
    err: &mut E,
) -> u8
    requires operation { IsOperation opened.now.admitted.shaped.map opened.now.admitted.case.session.op }
    requires digits { AreDigits opened.now.digits.now }
    ensures shows { ShowsOnDigits opened.now.digits.now (ConcludesWith (subject_of opened.now.admitted.shaped opened.now.admitted.case.session) opened.now.rules)
        (put_of O.told O.faults out.old out.new) (put_of E.told E.faults err.old err.new) result }
    ensures write_fault { result ≡ 5 → Rose (O.faults out.old) (O.faults out.new) ⊎ Rose (E.faults err.old) (E.faults err.new) }
    ensures raised { (O.faults out.old < O.faults out.new) ⊎ (E.faults err.old < E.faults err.new) → result ≡ 5 }
    ensures no_fault { result ≢ 4 }
{
    let shaped = &opened.admitted.shaped;
    let session = &opened.admitted.case.session;
    match rule(alloc, shaped, session, opened.digits, &opened.rules) {
        Ok(ruled) => {
            let put = put_ruled(alloc, out, shaped, session.op, &ruled);
            close(put, ended_by(ruled.said), b"", err)
        }
        Err(_) => say_starved(err),
    }
}

/// What is judged: an image and a case that are admitted, the digits of a blob, and a policy.
#[derive(Drop)]
struct OpenedWith<'a> {
    admitted: Admitted,
    digits: &'a [u8],
    rules: Policy,
}

/// Looks at the four files before the verdict.
fn open_all_files(alloc: Global, files: &[File]) -> Result<OpenedWith<'_>, Stop>
    requires { map (λ file. file.limit) files.now ≡ image_limit ∷ case_limit ∷ blob_limit ∷ policy_limit ∷ [] }
    ensures { MatchResult result (λ opened. IsOpenedWith files.now opened.admitted.shaped opened.admitted.case opened.digits.now opened.rules) (StopsWith (Polices files.now)) }
{
    let image = &files[0];
    let case = &files[1];
    let blob = &files[2];
    let policy = &files[3];
    let admitted = admit(alloc, image, case)?;
    let digits = digits_of(alloc, blob)?;
    let rules = policy_in(alloc, policy)?;
    Ok(OpenedWith {
        admitted,
        digits,
        rules,
    })
}

/// Judges the blob of the third file against the image and the case of the first two, and an accepted path by the policy of the fourth,
/// and answers the status.
pub fn police<O: Sink, E: Sink>(alloc: Global, files: &[File], out: &mut O, err: &mut E) -> u8
    requires { map (λ file. file.limit) files.now ≡ image_limit ∷ case_limit ∷ blob_limit ∷ policy_limit ∷ [] }
    ensures shows { Shows (IsAnswered (Polices files.now)) (put_of O.told O.faults out.old out.new) (put_of E.told E.faults err.old err.new) result }
    ensures write_fault { result ≡ 5 → Rose (O.faults out.old) (O.faults out.new) ⊎ Rose (E.faults err.old) (E.faults err.new) }
    ensures raised { (O.faults out.old < O.faults out.new) ⊎ (E.faults err.old < E.faults err.new) → result ≡ 5 }
    ensures no_fault { result ≢ 4 }
{
    match open_all_files(alloc, files) {
        Ok(opened) => conclude_with(alloc, &opened, out, err),
        Err(stop) => say_stop(&stop, err),
    }
}
