//! The text of a program's code, written through a block.
ghost use Rattle.std.specs.Prelude.{◌≡◌, ◌≤◌, [], OnOk, OnErr};
ghost use Rattle.std.specs.List.{flat_map};
ghost use Rattle.report_text.specs.PlanLines.{plan_text};
ghost use Rattle.report_text.specs.Room.{room_of};
ghost use Rattle.switch_runner.specs.Outside.{Grew, Stopped};
ghost use Rattle.switch_runner.specs.Writing.{Puts, at};

use crate::block::Block;
use crate::outside::{Failed, Sink};
use report_text::{Line, PlanText};

// Puts the lines of a text one after another.
fn put_lines<K: Sink>(
    block: &mut Block,
    out: &mut K,
    text: &mut PlanText<'_>,
    line: &mut Line,
) -> Result<(), Failed>
    requires { room_of text.old.program ≤ line.old.room }
    ensures { Puts (plan_text text.old.program text.old.code text.old.headers)
        (at block.old (K.seen out.old)) (at block.new (K.seen out.new)) result }
{
    for k in 0..text.most_lines() {
        if !text.line(k, line) {
            return Ok(());
        }
        block.put(out, line.bytes())?;
    }
    Ok(())
}

/// Writes a text line by line. It goes out in blocks, and takes no memory.
pub(crate) fn write_plan<K: Sink>(
    block: Block,
    out: &mut K,
    text: &mut PlanText<'_>,
    line: &mut Line,
) -> Result<(), Failed>
    requires empty { block ≡ [] }
    requires room { room_of text.old.program ≤ line.old.room }
    ensures ok { OnOk result
        (Grew (plan_text text.old.program text.old.code text.old.headers)
        (K.seen out.old) (K.seen out.new)) }
    ensures err { OnErr result
        (Stopped (plan_text text.old.program text.old.code text.old.headers)
        (K.seen out.old) (K.seen out.new)) }
{
    let mut block = block;
    put_lines(&mut block, out, text, line)?;
    block.flush(out)
}
