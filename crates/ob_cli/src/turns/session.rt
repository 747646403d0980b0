ghost use Rattle.std.specs.Prelude.{◌≡◌, ◌++◌, ◌||◌, [], ◌∷◌, None, Some, true, false, not, is_some, length};
ghost use Rattle.std.specs.Prelude.{option_map, IfOk, OnOk, string_bytes};
ghost use Rattle.std.specs.Option.{option_map_or};
ghost use Rattle.ob_core.specs.Turn.{core_after};
ghost use Rattle.ob_core.specs.World.{new_core, start_fault};
ghost use Rattle.ob_cli.specs.Inside.{HasPlayed};
ghost use Rattle.ob_cli.specs.Turns.{core_grammar, core_texts, turn_trace, lane_text};

use crate::turns::line::CoreLine;
use crate::turns::text::{push_end, push_lane, push_turn};
use crate::turns::words::CoreWord;
use ob_core::{LaneStart, Turn, World, WorldFault};
use ob_script::{Grammar, Interpreter, LineFault, read_line};
use ob_types::WaterMark;
use std::alloc::{AllocError, Global};

/// A core that carries out the lines of a script.
#[derive(Drop)]
pub struct CoreSession {
    pub marks: WaterMark,
    /// The lanes that were given.
    pub starts: Vec<LaneStart>,
    /// The world of these lanes, once there is one.
    pub world: Option<World>,
    /// Whether a turn was given.
    pub turned: bool,
}

impl CoreSession {
    /// A session before its first line.
    pub fn new(alloc: Global, marks: WaterMark) -> CoreSession
        ensures marks { result.marks ≡ marks }
        ensures fresh { HasPlayed result [] }
    {
        CoreSession {
            marks,
            starts: Vec::new(alloc),
            world: None,
            turned: false,
        }
    }

    /// Adds a lane, and makes the world anew.
    fn add_lane(
        &mut self,
        alloc: Global,
        start: LaneStart,
        text: &mut String,
    ) -> Result<bool, AllocError>
        ensures marks { self.new.marks ≡ self.old.marks }
        ensures fits { IfOk result (λ fits.
            fits ≡ not (self.old.turned || is_some (start_fault (self.old.starts.items ++ start ∷ [])))) }
        ensures starts { IfOk result (λ fits. fits ≡ true
            → self.new.starts.items ≡ self.old.starts.items ++ start ∷ []) }
        ensures core { IfOk result (λ fits. fits ≡ true
            → option_map (λ world. world.core) self.new.world
            ≡ Some (new_core self.old.marks (self.old.starts.items ++ start ∷ []))) }
        ensures turned { IfOk result (λ fits. fits ≡ true → (self.old.turned ≡ false) × (self.new.turned ≡ false)) }
        ensures text { IfOk result (λ fits. fits ≡ true
            → string_bytes text.new ≡ string_bytes text.old ++ lane_text (length self.old.starts.items)) }
    {
        if self.turned {
            return Ok(false);
        }
        push_lane(text, self.starts.len())?;
        self.starts.push(start)?;
        match World::new(alloc, self.marks, &self.starts) {
            Ok(world) => {
                self.world = Some(world);
                Ok(true)
            }
            Err(WorldFault::NoMemory) => Err(AllocError),
            Err(_) => Ok(false),
        }
    }

    /// Gives a lane its turn.
    fn play_turn(&mut self, turn: Turn, text: &mut String) -> Result<bool, AllocError>
        ensures marks { self.new.marks ≡ self.old.marks }
        ensures fits { IfOk result (λ fits. fits ≡ is_some self.old.world) }
        ensures starts { IfOk result (λ fits. fits ≡ true → self.new.starts.items ≡ self.old.starts.items) }
        ensures core { IfOk result (λ fits. fits ≡ true
            → option_map (λ world. world.core) self.new.world
            ≡ option_map (λ world. core_after world.core turn) self.old.world) }
        ensures turned { IfOk result (λ fits. fits ≡ true → self.new.turned ≡ true) }
        ensures text { IfOk result (λ fits. fits ≡ true → string_bytes text.new ≡ string_bytes text.old
            ++ option_map_or (λ world. turn_trace world.core turn) self.old.world []) }
    {
        let Some(world) = &mut self.world else {
            return Ok(false);
        };
        let event = world.turn(turn);
        push_turn(
            text,
            event,
            world.total(),
            world.word(),
            world.last_change(),
        )?;
        self.turned = true;
        Ok(true)
    }
}

impl Grammar for CoreSession {
    type Line = CoreLine;

    ghost grammar = { core_grammar };

    fn read(line: &[u8]) -> Result<CoreLine, LineFault> {
        read_line::<CoreWord>(line)
    }
}

impl Interpreter for CoreSession {
    ghost texts = { λ session. core_texts session.marks };

    ghost HasDone = { λ session lines. HasPlayed session lines };

    fn carry_out(
        &mut self,
        alloc: Global,
        line: CoreLine,
        text: &mut String,
    ) -> Result<bool, AllocError> {
        match line {
            CoreLine::Lane(start) => self.add_lane(alloc, start, text),
            CoreLine::Turn(turn) => self.play_turn(turn, text),
        }
    }

    fn push_last(&self, text: &mut String) -> Result<(), AllocError> {
        match &self.world {
            Some(world) => push_end(text, world.owed()),
            None => Ok(()),
        }
    }
}
