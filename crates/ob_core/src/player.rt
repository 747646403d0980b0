ghost use Rattle.std.specs.Prelude.{◌≡◌, [], IfOk, OnOk, OnErr, IsOk, IsOkUnless};
ghost use Rattle.ob_core.specs.Turn.{answers_of, core_after_all, last_change_after};

use crate::ask::Turn;
use crate::event::Event;
use crate::world::World;
use ob_types::{Change, Refusal};
use std::alloc::Global;

/// Plays a schedule, one turn after the other, and returns each turn's event and change.
///
/// The room for all results is made before the first turn: `NoMemory` is the only refusal, and comes only then, with
/// the world as it was. A schedule without a turn allocates nothing.
pub fn play(
    alloc: Global,
    world: &mut World,
    turns: &[Turn],
) -> Result<Vec<(Event, Option<Change>)>, Refusal>
    ensures answers { IfOk result (λ answers. answers.items ≡ answers_of world.old.core turns.now) }
    ensures core { OnOk result (world.new.core ≡ core_after_all world.old.core turns.now) }
    ensures change { OnOk result (world.new.last_change ≡ last_change_after world.old turns.now) }
    ensures no_memory { IsOkUnless result Refusal.NoMemory }
    ensures frugal { turns.now ≡ [] → IsOk result }
    ensures err { OnErr result (world.new ≡ world.old) }
{
    let mut answers = Vec::with_capacity(alloc, turns.len())?;
    for turn in turns {
        let event = world.turn(*turn);
        answers.push_reserved((event, world.last_change()));
    }
    Ok(answers)
}
