// One look at an input: each line is read, its step is made, and what it tells is kept until all lines are judged.
ghost use Rattle.std.specs.Prelude.{◌≡◌, ◌+◌, ◌<◌, ◌≤◌, ◌-◌, ◌^◌, length, None, IfOk, IfErr};
ghost use Rattle.server_model.specs.Single.{Steps, line_of, lines_of, judge, judgement};
ghost use Rattle.one_server.specs.Steps.{IsNamed};
ghost use Rattle.aegean_main.specs.Answer.{answer_judged};
ghost use Rattle.server_model.specs.Rests.{lines_left};
ghost use Rattle.aegean_main.specs.Running.{TakesLine, told_with, IsBadLine, Stops};

use crate::count::{BadLine, count_steps};
use crate::reading::{Reading, reading_of};
use crate::told::{add_steps, add_told};
use aeg_base::{Bytes, Memory};
use one_server::{OneServer, StepErr};
use server_model::{Hist, next_line};
use std::alloc::Global;
use std::mem;

/// What the steps told, up to the first that is refused, and the number of its line and the row. After the last one
/// comes the line that counts them.
#[derive(Drop)]
pub struct Telling {
    pub text: Vec<u8>,
    pub refused: Option<(u32, u8)>,
}

/// Why an input has no text: a line is bad, or there was no memory.
#[derive(Clone, Copy, Debug, PartialEq, Eq)]
pub enum RunErr {
    Bad(BadLine),
    Memory,
}

impl From<Memory> for RunErr {
    ghost use Rattle.std.specs.Prelude.{◌≡◌};
    ghost use Rattle.aegean_main.specs.declared.run.RunErr.TheVariants as errs;

    ghost from_gives = { λ _ e. e ≡ errs.Memory };

    fn from(_: Memory) -> Self {
        RunErr::Memory
    }
}

/// Why a line isn't run: a row refuses the line or its step, or there was no memory.
#[derive(Clone, Copy, Debug, PartialEq, Eq)]
pub enum LineErr {
    Bad { row: u8 },
    Illegal { row: u8 },
    Memory,
}

/// Makes a step and adds what it tells. `words` is room for the text of a request, kept from line to line.
fn run_step(
    server: &mut OneServer,
    hist: &Hist,
    body: &[u8],
    words: &mut Vec<u8>,
    text: &mut Vec<u8>,
) -> Result<u32, LineErr>
    requires { IsNamed hist.now }
    ensures takes { TakesLine (Steps hist.now body.now) server.old server.new text.old.items text.new.items result }
    ensures one { IfOk result (λ count. count ≤ 1) }
{
    words.clear();
    let Ok(()) = words.extend_from_slice(body) else {
        return Err(LineErr::Memory);
    };
    let empty = Vec::new(*words.allocator());
    let request = Bytes::of(mem::replace(words, empty));
    let made = server.step(hist, &request);
    *words = request.into_vec();
    match made {
        Ok(told) => match add_told(text, &told) {
            Ok(()) => Ok(1),
            Err(_) => Err(LineErr::Memory),
        },
        Err(StepErr::Illegal { row }) => Err(LineErr::Illegal { row }),
        Err(StepErr::Memory) => Err(LineErr::Memory),
    }
}

/// Makes the step of a line, and answers how many steps it is: one or none.
fn run_line(
    server: &mut OneServer,
    line: &[u8],
    words: &mut Vec<u8>,
    text: &mut Vec<u8>,
) -> Result<u32, LineErr>
    ensures takes { TakesLine (line_of line.now) server.old server.new text.old.items text.new.items result }
    ensures one { IfOk result (λ count. count ≤ 1) }
{
    match reading_of(line) {
        Reading::Skips => Ok(0),
        Reading::Bad(row) => Err(LineErr::Bad { row }),
        Reading::Steps(hist, body) => run_step(server, &hist, body, words, text),
    }
}

/// A step is refused: what was told before it is told, where all lines behind it can be read.
fn refused(text: Vec<u8>, more: Option<&[u8]>, line: u32, row: u8) -> Result<Telling, RunErr>
    requires { line + 1 + length (lines_left more) < 2 ^ 32 }
    ensures { Stops (judge (line + 1) (lines_left more.entry)) text.items line row result }
{
    match count_steps(more, line + 1) {
        Ok(_) => Ok(Telling {
            text,
            refused: Some((line, row)),
        }),
        Err(bad) => Err(RunErr::Bad(bad)),
    }
}

/// Makes the steps of an input's lines on an opening server, up to the first that is refused. Where a line can't be
/// read nothing of it is told.
pub fn run_lines(alloc: Global, input: &[u8]) -> Result<Telling, RunErr>
    requires { length (lines_of input.now) < 2 ^ 32 - 1 }
    ensures tells { IfOk result (λ telling. answer_judged (judgement input.now) ≡ told_with telling.text.items telling.refused) }
    ensures bad { IfErr result (IsBadLine (judgement input.now)) }
{
    let mut server = OneServer::new(alloc);
    let mut words = Vec::new(alloc);
    let mut text = Vec::new(alloc);
    let mut rest = Some(input);
    let mut number = 1;
    let mut count = 0;
    'lines: while let Some((line, more)) = next_line(rest) {
        match run_line(&mut server, line, &mut words, &mut text) {
            Ok(steps) => count += steps,
            Err(LineErr::Bad { row }) => return Err(RunErr::Bad(BadLine { line: number, row })),
            Err(LineErr::Illegal { row }) => return refused(text, more, number, row),
            Err(LineErr::Memory) => return Err(RunErr::Memory),
        }
        number += 1;
        rest = more;
    }
    add_steps(&mut text, count)?;
    Ok(Telling {
        text,
        refused: None,
    })
}
