ghost use Rattle.std.specs.Prelude.{string_bytes};
ghost use Rattle.script.specs.Lines.{LinesAreTheScript};
ghost use Rattle.script.specs.Runs.{AnswersLine, RowOfLine, Runs, RowsArePinned};

use crate::faults::{ScriptFault, on_line};
use crate::lines::Lines;
use crate::reader::read_line;
use crate::rows::push_row;
use broker::{Answer, Broker};
use resource::Resource;
use std::alloc::AllocError;

/// The longest script that is looked at.
pub const MOST_BYTES: usize = 65535;

/// Reads line n, and has the broker deal with its call.
pub fn answer_line<R: Resource>(
    broker: &mut Broker<R>,
    n: u32,
    line: &[u8],
) -> Result<Answer, ScriptFault>
    ensures { AnswersLine R.Resource broker.old n line.now result broker.new }
{
    let call = on_line(n, read_line(line))?;
    let answer = on_line(n, broker.deal(call))?;
    Ok(answer)
}

/// Adds the row of line n. Where memory is short the line is dealt with, and the rows stand as they were.
pub fn row_of_line<R: Resource>(
    broker: &mut Broker<R>,
    n: u32,
    line: &[u8],
    out: &mut String,
) -> Result<(), AllocError>
    ensures { RowOfLine R.Resource broker.old n line.now (string_bytes out.old) result (string_bytes out.new) broker.new }
{
    let answer = answer_line(broker, n, line);
    push_row(out, n, &answer)
}

/// Adds the rows of a script. Where memory is short it stops, after the last line that was dealt with.
pub fn answer_script<R: Resource>(
    broker: &mut Broker<R>,
    script: &[u8],
    out: &mut String,
) -> Result<(), AllocError>
    ensures { Runs R.Resource broker.old script.now (string_bytes out.old) result (string_bytes out.new) broker.new }
{
    if script.len() > MOST_BYTES {
        return push_row(out, 0, &Err(ScriptFault::TooLong));
    }
    for (n, line) in (1u32..).zip(Lines(script)) {
        row_of_line(broker, n, line, out)?;
    }
    Ok(())
}

/// The lines that are answered are the script, cut at its line feeds and nowhere else.
pub fn lines_are_the_script()
    ensures { LinesAreTheScript }
{}

/// The machine has one list of rows for a script, and comes to one state.
pub fn rows_are_pinned()
    ensures { RowsArePinned }
{}
