//! The core: one word over given schedules.

use ob_core::{Ask, Event, LaneStart, Turn, World, WorldFault, play};
use ob_players::buffers::Options;
use ob_players::story::{Begins, Player, Story, play_each};
use ob_players::trace::{push_change, push_words};
use ob_players::words::{NoAnswer, Words};
use ob_stories::CORE;
use ob_types::{Change, WaterMark};
use std::alloc::{AllocError, Global};
use std::test::Fail;

/// A world that plays the lines of `core`. It is made at the first line that is no lane.
#[derive(Drop)]
struct Schedule {
    alloc: Global,
    marks: WaterMark,
    lanes: Vec<LaneStart>,
    world: Option<World>,
    turns: Vec<Turn>,
    events: Vec<(Event, Option<Change>)>,
}

impl Player for Schedule {
    fn answer(&mut self, asked: &str, text: &mut String) -> Result<(), NoAnswer> {
        let mut words = Words::of(asked);
        let word = words.word();
        if word == "lane" {
            write!(text, "lane {}", self.lanes.len())?;
            let (room, bits) = (words.small()?, words.small()?);
            self.lanes.push(LaneStart { room, bits })?;
            return Ok(());
        }
        let mut world = match self.world.take() {
            Some(world) => world,
            None => world(self.alloc, self.marks, &self.lanes)?,
        };
        let told = match word {
            "" => self.end(&world, text),
            _ => self.turn(&mut world, word, &mut words, text),
        };
        // one call; an assignment follows the fields of what it drops
        drop(self.world.replace(world));
        told
    }
}

fn world(alloc: Global, marks: WaterMark, lanes: &[LaneStart]) -> Result<World, NoAnswer> {
    match World::new(alloc, marks, lanes) {
        Ok(world) => Ok(world),
        Err(WorldFault::NoMemory) => Err(NoAnswer::NoMemory),
        Err(_) => Err(NoAnswer::Unread),
    }
}

impl Schedule {
    fn turn(
        &mut self,
        world: &mut World,
        word: &str,
        words: &mut Words,
        text: &mut String,
    ) -> Result<(), NoAnswer> {
        let lane = words.small()?;
        let ask = match word {
            "c" => Ask::Charge(words.small()?),
            "d" => Ask::Discharge,
            "u" => Ask::Bit(words.small()?, words.flag()),
            "w" => Ask::Word,
            "t" => Ask::Total,
            "k" => Ask::Go,
            _ => return Err(NoAnswer::Unread),
        };
        let turn = Turn { lane, ask };
        let event = world.turn(turn);
        self.turns.push(turn)?;
        self.events.push((event, world.last_change()))?;
        push_event(text, event)?;
        push_words(text, world.total(), world.word())?;
        push_change(text, world.last_change())?;
        Ok(())
    }

    /// The end of a schedule. Played at once it comes to the same.
    fn end(&self, world: &World, text: &mut String) -> Result<(), NoAnswer> {
        let rest = if world.quiet() { "quiet" } else { "busy" };
        write!(text, "end {rest} owed={}", world.owed())?;
        let mut again = self::world(self.alloc, self.marks, &self.lanes)?;
        let events = play(self.alloc, &mut again, &self.turns);
        let words = (again.total(), again.word());
        drop(again);
        let events = events?;
        let is_same = events == self.events && words == (world.total(), world.word());
        drop(events);
        if !is_same {
            text.push_str(", but not where it is played at once")?;
        }
        Ok(())
    }
}

fn push_event(text: &mut String, event: Event) -> Result<(), AllocError> {
    text.push_str(match event {
        Event::Added => "add",
        Event::Subtracted => "sub",
        Event::BitSet | Event::BitCleared => "bit",
        Event::ReadWord => "word",
        Event::ReadTotal => "total",
        Event::Nothing => "none",
        Event::Refused(fault) => return write!(text, "!{}", fault.number()),
    })
}

impl Begins for Schedule {
    fn begin(alloc: Global, story: Story) -> Result<Schedule, NoAnswer> {
        Ok(Schedule {
            alloc,
            marks: Options::of(story.command)?.marks()?,
            lanes: Vec::new(alloc),
            world: None,
            turns: Vec::new(alloc),
            events: Vec::new(alloc),
        })
    }
}

#[test]
fn schedules_of_a_core(rt: HostRuntime) -> Result<(), Fail> {
    play_each::<Schedule>(rt.alloc(), CORE)
}

/// Lanes by their rooms and masks, and why they make no world.
static NO_WORLDS: [(&[(u32, u32)], Option<WorldFault>); 8] = [
    (&[], Some(WorldFault::BadCount)),
    (&[(1, 0); 64], None),
    (&[(1, 0); 65], Some(WorldFault::BadCount)),
    (&[(4294967295, 0), (0, 0)], None),
    (&[(4294967295, 0), (1, 0)], Some(WorldFault::TooMuchRoom)),
    (&[(0, 2), (0, 6)], Some(WorldFault::BitsTwice)),
    (&[(0, 0), (0, 1)], Some(WorldFault::BitsTwice)),
    (&[(4294967295, 2), (1, 2)], Some(WorldFault::TooMuchRoom)),
];

#[test]
fn lanes_that_make_no_world(rt: HostRuntime) -> Result<(), Fail> {
    for (lanes, fault) in &NO_WORLDS {
        let mut starts = Vec::new(rt.alloc());
        for &(room, bits) in lanes.iter() {
            starts.push(LaneStart { room, bits })?;
        }
        let made = World::new(rt.alloc(), WaterMark::new(50, 100)?, &starts);
        assert_eq!(rt; made.err(), *fault, "{lanes:?}");
    }
    Ok(())
}
