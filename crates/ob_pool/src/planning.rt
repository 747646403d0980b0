//! What is wrong with plans, and the room that they need.

ghost use Rattle.std.specs.Prelude.{◌≡◌, ◌<◌, ◌≤◌, length, IfErr, IfOk, IfSome, IsNone, Some};
ghost use Rattle.ob_core.specs.World.{greatest_room, most_lanes};
ghost use Rattle.ob_pool.specs.Drive.{NamesOneOf, number_of, charge_for, charge_of, room_of, rooms_of, bad_step};
ghost use Rattle.ob_pool.specs.Drive.{is_planned, bad_plan_from, plans_fault};
ghost use Rattle.ob_pool.specs.Inside.{AreChecked, HaveRooms};

use crate::fault::DriveFault;
use crate::plan::Plan;
use ob_types::{Command, Estimate, Message};
use std::marker::Model;

/// The most writers of one drive, each with a lane. Our own limit.
const MOST_WRITERS: usize = 64;

/// What a message is charged while it is handed off.
fn charge_of(estimate: Estimate, task: u32, message: &Message) -> u64
    ensures { result ≡ charge_of estimate task message.now }
{
    let readable = match message {
        Message::Block(bytes) => bytes.len() as u64,
        Message::Region(_) => 0,
        Message::Other(_) => u64::from(estimate.unknown),
    };
    readable + u64::from(task)
}

/// What a command is charged while it is handed off.
pub fn charge_for(estimate: Estimate, task: u32, command: &Command) -> u64
    ensures { result ≡ charge_for estimate task command.now }
{
    match command {
        Command::Write(message) => charge_of(estimate, task, message),
        _ => 0,
    }
}

/// The room that a plan needs.
fn room_of(estimate: Estimate, task: u32, plan: &Plan) -> u64
    ensures { result ≡ room_of estimate task plan.now }
{
    let runs = plan.runs.as_slice();
    let mut room = 0;
    for run in runs {
        room = room.max(charge_for(estimate, task, &run.command));
    }
    room
}

/// Whether a command may stand in a plan.
fn is_planned(command: &Command) -> bool
    ensures { result ≡ is_planned command.now }
{
    matches!(
        command,
        Command::Write(_)
            | Command::Flush
            | Command::Cancel(_)
            | Command::UserBit(..)
            | Command::SetMarks(_)
    )
}

/// The first step of a plan whose command may not stand there.
fn bad_step(plan: &Plan) -> Option<usize>
    ensures { result ≡ bad_step plan.now }
{
    // for the proof alone: the steps of a plan can be counted
    let _all = plan.len();
    let runs = plan.runs.as_slice();
    let mut step = 0;
    for run in runs {
        if !is_planned(&run.command) {
            return Some(step);
        }
        step += run.count as usize;
    }
    None
}

/// The first bad step of plans.
fn bad_plan(plans: &[Plan]) -> Option<DriveFault>
    requires { length plans.now ≤ most_lanes }
    ensures value { result ≡ bad_plan_from 0 plans.now }
    ensures early { IfSome result (λ fault. number_of fault ≤ 3) }
    ensures named { IfSome result (NamesOneOf (length plans.now)) }
{
    let mut writer = 0;
    for plan in plans {
        if let Some(step) = bad_step(plan) {
            return Some(DriveFault::BadPlan { writer, step });
        }
        writer += 1;
    }
    None
}

/// Plans that have no fault, with the room that they need.
#[derive(Drop)]
pub struct CheckedPlans {
    /// How messages are counted.
    pub estimate: Estimate,
    /// The bytes that a hand-off adds to the estimate of a message.
    pub task: u32,
    /// The plans, one of each writer.
    pub plans: Vec<Plan>,
    /// The room of each plan, by its writer.
    pub rooms: [u32; MOST_WRITERS],
    /// The room of all plans together.
    pub room: u32,
}

impl Model for CheckedPlans {
    ghost use Rattle.ob_pool.specs.Inside.{Checked};

    ghost Value = { Checked };

    ghost view = { λ checked. record {
      estimate = checked.estimate;
      task = checked.task;
      plans = checked.plans.items;
      rooms = checked.rooms;
      room = checked.room;
    } };
}

/// Plans with the room that they need, or their first fault. It does not allocate.
pub fn check(estimate: Estimate, task: u32, plans: Vec<Plan>) -> Result<CheckedPlans, DriveFault>
    ensures fault { IfErr result (λ fault. plans_fault estimate task plans.items ≡ Some fault) }
    ensures early { IfErr result (λ fault. number_of fault ≤ 3) }
    ensures named { IfErr result (NamesOneOf (length plans.items)) }
    ensures estimate { IfOk result (λ checked. checked.estimate ≡ estimate) }
    ensures task { IfOk result (λ checked. checked.task ≡ task) }
    ensures plans { IfOk result (λ checked. checked.plans ≡ plans.items) }
    ensures checked { IfOk result AreChecked }
{
    if plans.is_empty() || plans.len() > MOST_WRITERS {
        return Err(DriveFault::BadCount);
    }
    if let Some(fault) = bad_plan(&plans) {
        return Err(fault);
    }
    match with_rooms(estimate, task, plans) {
        Some(checked) => Ok(checked),
        None => Err(DriveFault::TooMuchRoom),
    }
}

/// Plans with the room that they need, or nothing if that is more than a word of 32 bits counts.
fn with_rooms(estimate: Estimate, task: u32, plans: Vec<Plan>) -> Option<CheckedPlans>
    requires { length plans.items ≤ most_lanes }
    ensures estimate { IfSome result (λ checked. checked.estimate ≡ estimate) }
    ensures task { IfSome result (λ checked. checked.task ≡ task) }
    ensures plans { IfSome result (λ checked. checked.plans ≡ plans.items) }
    ensures rooms { IfSome result HaveRooms }
    ensures none { IsNone result → greatest_room < rooms_of estimate task plans.items }
{
    let mut rooms = [0; MOST_WRITERS];
    let mut all = 0u32;
    let mut writer = 0;
    for plan in &plans {
        let room = u32::try_from(room_of(estimate, task, plan)).ok()?;
        rooms[writer] = room;
        all = all.checked_add(room)?;
        writer += 1;
    }
    Some(CheckedPlans {
        estimate,
        task,
        plans,
        rooms,
        room: all,
    })
}
