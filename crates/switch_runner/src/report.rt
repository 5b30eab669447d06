//! The report of an answer, written through a block.
ghost use Rattle.std.specs.Prelude.{◌≡◌, ◌≤◌, [], true, OnOk, OnErr};
ghost use Rattle.report_text.specs.AnswerLines.{answer_lines};
ghost use Rattle.report_text.specs.Report.{text_of};
ghost use Rattle.report_text.specs.Told.{HasTrace, IsOfProgram};
ghost use Rattle.switch_runner.specs.Outside.{Grew, Stopped};
ghost use Rattle.switch_runner.specs.Top.{Ends};
ghost use Rattle.switch_runner.specs.Writing.{Puts, at};

use crate::block::Block;
use crate::outside::{Failed, Sink};
use crate::status::Status;
use code_forms::StagedCode;
use domino_check::Checked;
use report_text::{Line, Report, Style};
use std::alloc::Global;
use switch_net::Answer;

// Puts the lines of a report one after another.
fn put_lines<K: Sink>(
    block: &mut Block,
    out: &mut K,
    report: &mut Report<'_>,
    line: &mut Line,
) -> Result<(), Failed>
    requires { report.old.room ≤ line.old.room }
    ensures { Puts (text_of report.old.lines)
        (at block.old (K.seen out.old)) (at block.new (K.seen out.new)) result }
{
    for k in 0..report.most_lines() {
        if !report.line(k, line) {
            return Ok(());
        }
        block.put(out, line.bytes())?;
    }
    Ok(())
}

// Writes a report line by line. It goes out in blocks, and takes no memory.
fn write_report<K: Sink>(
    block: Block,
    out: &mut K,
    report: &mut Report<'_>,
    line: &mut Line,
) -> Result<(), Failed>
    requires empty { block ≡ [] }
    requires room { report.old.room ≤ line.old.room }
    ensures ok { OnOk result
        (Grew (text_of report.old.lines) (K.seen out.old) (K.seen out.new)) }
    ensures err { OnErr result
        (Stopped (text_of report.old.lines) (K.seen out.old) (K.seen out.new)) }
{
    let mut block = block;
    put_lines(&mut block, out, report, line)?;
    block.flush(out)
}

/// Prints the report of an answer of the program's code.
pub(crate) fn print_report<K: Sink>(
    alloc: Global,
    checked: &Checked,
    code: &StagedCode,
    answer: &Answer,
    style: Style,
    out: &mut K,
) -> Status
    requires program { IsOfProgram checked.now code.now answer.now }
    requires trace { style.trace ≡ true → HasTrace code.now answer.now }
    ensures { Ends (text_of (answer_lines checked.now code.now answer.now style))
        (K.seen out.old) (K.seen out.new) result }
{
    let mut report = Report::new(checked, code, answer, style);
    let Ok(mut line) = Line::for_program(alloc, checked) else {
        return Status::NoMemory;
    };
    let Ok(block) = Block::new(alloc) else {
        return Status::NoMemory;
    };
    match write_report(block, out, &mut report, &mut line) {
        Ok(()) => Status::Done,
        Err(Failed) => Status::WriteFault,
    }
}
