ghost use Rattle.std.specs.Prelude.{◌≡◌, ◌++◌, IfOk, OnOk};
ghost use Rattle.ob_cli.specs.Drive.{commands_of_action, plan_of, plans_in, writer_block, writers_in};

use crate::drive::line::{WriterAction, WriterLine};
use bytes::Bytes;
use ob_pool::Plan;
use ob_types::{Command, Message};
use std::alloc::{AllocError, Global};

/// The plans of the writers, each at its number.
pub fn make_plans(alloc: Global, lines: &[WriterLine]) -> Result<Vec<Plan>, AllocError>
    ensures { IfOk result (λ plans. plans.items ≡ plans_in lines.now) }
{
    let count = count_writers(lines);
    let mut plans = Vec::with_capacity(alloc, count as usize)?;
    for writer in 0..count {
        plans.push(plan(alloc, lines, writer)?)?;
    }
    Ok(plans)
}

/// How many writers there are, by the greatest number of one.
fn count_writers(lines: &[WriterLine]) -> u32
    ensures { result ≡ writers_in lines.now }
{
    let mut count = 0;
    for line in lines {
        count = count.max(u32::from(line.writer) + 1);
    }
    count
}

/// The plan of a writer.
fn plan(alloc: Global, lines: &[WriterLine], writer: u32) -> Result<Plan, AllocError>
    ensures { IfOk result (λ plan. plan ≡ plan_of lines.now writer) }
{
    let mut plan = Plan::new(alloc);
    for line in lines {
        if u32::from(line.writer) == writer {
            push_action(alloc, &mut plan, line)?;
        }
    }
    Ok(plan)
}

/// Adds the commands that a line asks of its writer. The blocks of one line share their memory.
fn push_action(alloc: Global, plan: &mut Plan, line: &WriterLine) -> Result<(), AllocError>
    ensures { OnOk result (plan.new ≡ plan.old ++ commands_of_action line.now.writer line.now.action) }
{
    match &line.action {
        WriterAction::Blocks(size, count) => {
            let write = block_write(alloc, line.writer, *size)?;
            plan.push(write, *count)
        }
        WriterAction::Command(command) => plan.push(command.copy()?, 1),
    }
}

/// The write of a writer's block of *n* bytes.
fn block_write(alloc: Global, writer: u8, size: u64) -> Result<Command, AllocError>
    ensures { IfOk result (λ command. command ≡ writer_block writer size) }
{
    let bytes = vec![in alloc; writer; size as usize]?;
    Ok(Command::Write(Message::Block(Bytes::from_vec(bytes)?)))
}
