//! The line of an attested window as JSON.

ghost use Rattle.std.specs.Prelude.{◌≡◌, map, IfOk};
ghost use Rattle.std.specs.List.{AllByRecursion};
ghost use Rattle.serde_json.specs.Data.{string, array};
ghost use Rattle.serde_json.specs.View.{view, items_of, members_view};
ghost use Rattle.oat_report.specs.VerdictLine.{cause_text};
ghost use Rattle.oat_report.specs.JsonLine.{IsPlainText, IsPlainReport, is_accepted, json_text};
ghost use Rattle.oat_report.specs.JsonData.{number_data, report_members};

use crate::verdict::put_cause;
use oat_ir::Listed;
use oat_verify::{Cause, Verdict};
use serde_json::{Map, Value, put};
use std::alloc::{AllocError, Global};

/// What is told of one window of an attested run.
#[derive(Drop)]
pub struct Report {
    /// How the run ended: the text behind `ended `.
    pub end: Listed<u8>,
    pub outputs: Listed<i64>,
    /// None where the window didn't seal.
    pub verdict: Option<Verdict>,
    /// The lines of the accepted path, each without its line end; none where the verdict isn't an acceptance.
    pub path: Listed<Listed<u8>>,
    /// The window's serial number, where windows are numbered.
    pub serial: Option<u32>,
}

fn plain_value(alloc: Global, text: &[u8]) -> Result<Value, AllocError>
    requires { IsPlainText text.now }
    ensures { IfOk result (λ value. view value ≡ string text.now) }
{
    Value::try_from_str(alloc, str::from_utf8(text).unwrap())
}

fn cause_value(alloc: Global, cause: &Cause) -> Result<Value, AllocError>
    ensures { IfOk result (λ value. view value ≡ string (cause_text cause.now)) }
{
    let mut text = Vec::new(alloc);
    put_cause(&mut text, cause)?;
    plain_value(alloc, text.as_slice())
}

fn output_value(output: i64) -> Value
    ensures { view result ≡ number_data output }
{
    Value::from(output)
}

fn outputs_value(alloc: Global, outputs: &[i64]) -> Result<Value, AllocError>
    ensures { IfOk result (λ value. view value ≡ array (items_of (map number_data outputs.now))) }
{
    let mut values = Vec::new(alloc);
    for output in outputs {
        values.push(output_value(*output))?;
    }
    Ok(Value::from(values))
}

fn path_value(alloc: Global, path: &[Listed<u8>]) -> Result<Value, AllocError>
    requires { AllByRecursion IsPlainText path.now }
    ensures { IfOk result (λ value. view value ≡ array (items_of (map string path.now))) }
{
    let mut values = Vec::new(alloc);
    for line in path {
        values.push(plain_value(alloc, line.as_slice())?)?;
    }
    Ok(Value::from(values))
}

fn is_accepted(verdict: &Option<Verdict>) -> bool
    ensures { result ≡ is_accepted verdict.now }
{
    matches!(verdict, Some(Verdict::Accept(_)))
}

fn members(alloc: Global, report: &Report) -> Result<Map<String, Value>, AllocError>
    requires { IsPlainReport report.now }
    ensures { IfOk result (λ members. members_view members.entries ≡ report_members report.now) }
{
    let mut members = Map::new(alloc);
    put(
        &mut members,
        alloc,
        "accepted",
        Value::from(is_accepted(&report.verdict)),
    )?;
    if let Some(Verdict::Refuse(cause)) = &report.verdict {
        put(&mut members, alloc, "cause", cause_value(alloc, cause)?)?;
    }
    put(
        &mut members,
        alloc,
        "end",
        plain_value(alloc, report.end.as_slice())?,
    )?;
    put(
        &mut members,
        alloc,
        "outputs",
        outputs_value(alloc, report.outputs.as_slice())?,
    )?;
    put(
        &mut members,
        alloc,
        "path",
        path_value(alloc, report.path.as_slice())?,
    )?;
    put(
        &mut members,
        alloc,
        "sealed",
        Value::from(report.verdict.is_some()),
    )?;
    if let Some(serial) = report.serial {
        put(&mut members, alloc, "serial", Value::from(serial))?;
    }
    Ok(members)
}

/// The line of a window as a JSON object without blanks, and without its line end (docs/FORMATS.md, "Commands, texts and
/// statuses").
pub fn json_line(alloc: Global, report: &Report) -> Result<Vec<u8>, AllocError>
    requires { IsPlainReport report.now }
    ensures { IfOk result (λ line. line.items ≡ json_text report.now) }
{
    let window = Value::Object(members(alloc, report)?);
    Ok(window.to_string(alloc)?.into_bytes())
}
