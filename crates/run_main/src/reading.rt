ghost use Rattle.std.specs.Prelude.{◌≡◌, ◌≤◌, length, IfOk, IfErr, IfSome, OnOk};
ghost use Rattle.far_outside.specs.Faults.{Rose};
ghost use Rattle.far_outside.specs.Reading.{HasReadAll};
ghost use Rattle.workload.specs.Plain.{IsPlain};
ghost use Rattle.run_main.specs.FaultCounts.{StoppedReading};
ghost use Rattle.run_main.specs.Inputs.{IsApproved, IsKeptList, IsWorkload, IsLinkScript};
ghost use Rattle.run_main.specs.Saying.{IsImageParsingFault, IsImageReadingFault, IsParsingFault, IsRead, IsReadImage, IsReadingFault, IsTextFault, SettlesImage, SettlesReading, SettlesText, IsApprovedOnly, IsJudgingFault, IsReportFault, SettlesReport, IsReadScript, IsScriptParsingFault, IsScriptReadingFault, SettlesScript};
ghost use Rattle.run_main.specs.Tasks.{HasWholeOps};
ghost use Rattle.retry_link.specs.Link.{AreLinkEvents};
ghost use Rattle.run_main.specs.Top.{ReadFirst, ReadToEnd};

use crate::status::Status;
use crate::top::INPUT_LIMIT;
use far_outside::{ReadStop, Source, read_all};
use kept_image::Image;
use link_text::Script;
use log_audit::{audit, read_report};
use std::alloc::Global;
use workload::{Limit, Workload, parse};

/// The text that the source has left, to its end. Where this is answered the source has counted no fault.
pub(crate) fn read_text<S: Source>(alloc: Global, source: &mut S) -> Result<Vec<u8>, Status>
    ensures whole { IfOk result (λ bytes. HasReadAll (S.left source.old) (S.left source.new) bytes.items) }
    ensures short { IfOk result (λ bytes. length bytes.items ≤ INPUT_LIMIT) }
    ensures unfailed { OnOk result (S.fault_count source.new ≡ S.fault_count source.old) }
    ensures stopped { IfErr result (StoppedReading (S.left source.old)) }
    ensures cause { IfErr result (IsTextFault (S.left source.old) (Rose (S.fault_count source.old)
        (S.fault_count source.new))) }
    ensures first { IfErr result (ReadFirst (S.left source.old) (S.left source.new)) }
    ensures later { S.fault_count source.old ≤ S.fault_count source.new }
    ensures calm { ¬ Rose (S.fault_count source.old) (S.fault_count source.new) → IfSome (S.left source.old)
        (λ input. SettlesText input result) }
{
    match read_all(alloc, source, INPUT_LIMIT) {
        Ok(bytes) => Ok(bytes),
        Err(ReadStop::Memory) => Err(Status::Memory),
        Err(ReadStop::TooLarge) => Err(Status::TooLarge(Limit::Input, 0)),
        Err(ReadStop::Failed) => Err(Status::ReadFault),
    }
}

/// The workload that the text is.
fn parsed(alloc: Global, text: &[u8]) -> Result<Workload, Status>
    requires { length text.now ≤ INPUT_LIMIT }
    ensures workload { IfOk result (λ work. IsWorkload text.now work) }
    ensures plain { IfOk result (λ work. IsPlain work) }
    ensures whole { IfOk result (λ work. HasWholeOps work.plan) }
    ensures cause { IfErr result (IsParsingFault text.now) }
    ensures settled { SettlesReading text.now result }
{
    match parse(alloc, text) {
        Ok(work) => Ok(work),
        Err(fault) => Err(Status::from(fault)),
    }
}

/// The workload that the source has left, which is read to its end.
pub(crate) fn read_workload<S: Source>(alloc: Global, source: &mut S) -> Result<Workload, Status>
    ensures read { IfOk result (λ work. IfSome (S.left source.old) (λ input. IsRead input work)) }
    ensures plain { IfOk result (λ work. IsPlain work) }
    ensures whole { IfOk result (λ work. HasWholeOps work.plan) }
    ensures end { OnOk result (ReadToEnd (S.left source.old) (S.left source.new)) }
    ensures unfailed { OnOk result (S.fault_count source.new ≡ S.fault_count source.old) }
    ensures unstopped { IfErr result (λ status. ¬ (StoppedReading (S.left source.old) status)
        → S.fault_count source.new ≡ S.fault_count source.old) }
    ensures cause { IfErr result (IsReadingFault (S.left source.old) (Rose (S.fault_count source.old)
        (S.fault_count source.new))) }
    ensures first { IfErr result (ReadFirst (S.left source.old) (S.left source.new)) }
    ensures calm { ¬ Rose (S.fault_count source.old) (S.fault_count source.new) → IfSome (S.left source.old)
        (λ input. SettlesReading input result) }
{
    let text = read_text(alloc, source)?;
    parsed(alloc, &text)
}

/// The kept list whose image the text is.
fn parsed_image(alloc: Global, text: &[u8]) -> Result<Image, Status>
    requires { length text.now ≤ INPUT_LIMIT }
    ensures image { IfOk result (λ image. IsKeptList text.now image) }
    ensures cause { IfErr result (IsImageParsingFault text.now) }
    ensures settled { SettlesImage text.now result }
{
    match kept_image::parse(alloc, text) {
        Ok(image) => Ok(image),
        Err(fault) => Err(Status::from(fault)),
    }
}

/// The image that the source has left, which is read to its end.
pub(crate) fn read_image<S: Source>(alloc: Global, source: &mut S) -> Result<Image, Status>
    ensures read { IfOk result (λ image. IfSome (S.left source.old) (λ input. IsReadImage input image)) }
    ensures end { OnOk result (ReadToEnd (S.left source.old) (S.left source.new)) }
    ensures unfailed { OnOk result (S.fault_count source.new ≡ S.fault_count source.old) }
    ensures unstopped { IfErr result (λ status. ¬ (StoppedReading (S.left source.old) status)
        → S.fault_count source.new ≡ S.fault_count source.old) }
    ensures cause { IfErr result (IsImageReadingFault (S.left source.old) (Rose (S.fault_count source.old)
        (S.fault_count source.new))) }
    ensures first { IfErr result (ReadFirst (S.left source.old) (S.left source.new)) }
    ensures calm { ¬ Rose (S.fault_count source.old) (S.fault_count source.new) → IfSome (S.left source.old)
        (λ input. SettlesImage input result) }
{
    let text = read_text(alloc, source)?;
    parsed_image(alloc, &text)
}

/// Judges the report that the text is. `Wrong` names the first line of the text up to which the lines of the history
/// are not good.
fn judged(alloc: Global, text: &[u8]) -> Result<(), Status>
    requires { length text.now ≤ INPUT_LIMIT }
    ensures approved { OnOk result (IsApproved text.now) }
    ensures cause { IfErr result (IsJudgingFault text.now) }
    ensures settled { SettlesReport text.now result }
{
    let lines = match read_report(alloc, text) {
        Ok(lines) => lines,
        Err(fault) => return Err(Status::from(fault)),
    };
    match audit(alloc, &lines) {
        Ok(None) => Ok(()),
        Ok(Some(count)) => Err(Status::Wrong(count + 3)),
        Err(_) => Err(Status::Memory),
    }
}

/// Judges the report that the source has left, which is read to its end.
pub(crate) fn judge_report<S: Source>(alloc: Global, source: &mut S) -> Result<(), Status>
    ensures approved { OnOk result (IfSome (S.left source.old) IsApprovedOnly) }
    ensures end { OnOk result (ReadToEnd (S.left source.old) (S.left source.new)) }
    ensures unfailed { OnOk result (S.fault_count source.new ≡ S.fault_count source.old) }
    ensures unstopped { IfErr result (λ status. ¬ (StoppedReading (S.left source.old) status)
        → S.fault_count source.new ≡ S.fault_count source.old) }
    ensures cause { IfErr result (IsReportFault (S.left source.old) (Rose (S.fault_count source.old)
        (S.fault_count source.new))) }
    ensures first { IfErr result (ReadFirst (S.left source.old) (S.left source.new)) }
    ensures calm { ¬ Rose (S.fault_count source.old) (S.fault_count source.new) → IfSome (S.left source.old)
        (λ input. SettlesReport input result) }
{
    let text = read_text(alloc, source)?;
    judged(alloc, &text)
}

/// The events of a link that the text tells.
fn parsed_script(alloc: Global, text: &[u8]) -> Result<Script, Status>
    requires { length text.now ≤ INPUT_LIMIT }
    ensures script { IfOk result (λ events. IsLinkScript text.now events) }
    ensures events { IfOk result AreLinkEvents }
    ensures cause { IfErr result (IsScriptParsingFault text.now) }
    ensures settled { SettlesScript text.now result }
{
    match link_text::parse(alloc, text) {
        Ok(script) => Ok(script),
        Err(fault) => Err(Status::from(fault)),
    }
}

/// The events of a link that the source has left, which is read to its end.
pub(crate) fn read_script<S: Source>(alloc: Global, source: &mut S) -> Result<Script, Status>
    ensures read { IfOk result (λ events. IfSome (S.left source.old) (λ input. IsReadScript input events)) }
    ensures events { IfOk result AreLinkEvents }
    ensures end { OnOk result (ReadToEnd (S.left source.old) (S.left source.new)) }
    ensures unfailed { OnOk result (S.fault_count source.new ≡ S.fault_count source.old) }
    ensures unstopped { IfErr result (λ status. ¬ (StoppedReading (S.left source.old) status)
        → S.fault_count source.new ≡ S.fault_count source.old) }
    ensures cause { IfErr result (IsScriptReadingFault (S.left source.old) (Rose (S.fault_count source.old)
        (S.fault_count source.new))) }
    ensures first { IfErr result (ReadFirst (S.left source.old) (S.left source.new)) }
    ensures calm { ¬ Rose (S.fault_count source.old) (S.fault_count source.new) → IfSome (S.left source.old)
        (λ input. SettlesScript input result) }
{
    let text = read_text(alloc, source)?;
    parsed_script(alloc, &text)
}
