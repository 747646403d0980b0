//! A shared buffer, whose callers make their calls in turn, and in threads of their own.

ghost use Rattle.ob_shared.specs.Calls.{IsNameOf};

use crate::tests::changes::Aside;
use crate::tests::crew::Crew;
use crate::tests::host::Host;
use crate::tests::members::callers_of;
use crate::tests::threads::{Scene, in_threads};
use ob_players::buffers::Options;
use ob_players::story::{Again, Story};
use ob_players::words::NoAnswer;
use ob_shared::{Named, Opening};
use ob_stories::{CROSSING, SHARED, TOLD};
use ob_types::{Command, Refusal};
use std::alloc::Global;
use std::marker::Brand;
use std::test::Fail;

/// A shared buffer of *n* callers is to be opened with these options.
pub fn opening(alloc: Global, options: Options, callers: u32) -> Result<Opening, Refusal> {
    let limit = options.limit.clamp(1, 1048576);
    let callers = callers.clamp(1, 65);
    Opening::new(alloc, options.marks()?, options.estimate(), limit, callers)
}

/// The crew of an opening, before its first call.
fn crew<'r, L: Named, R: AllocGlobal>(
    rt: &'r R,
    options: Options,
    opening: Opening,
) -> Result<Crew<'r, L, R>, NoAnswer>
    requires { IsNameOf opening L.opened L.name L.parts }
{
    let (buffer, shares) = opening.begin::<L>()?;
    Ok(Crew {
        rt,
        options,
        buffer: Some(buffer),
        members: callers_of(rt.alloc(), shares)?,
        aside: Aside {
            done: None,
            receipt: None,
            command: Command::Flush,
        },
        fault: None,
        recorded: None,
    })
}

/// Plays a scene on the shared buffer of an opening.
fn plays<L: Named + Send + Sync>(
    rt: &impl Host,
    options: Options,
    opening: Opening,
    scene: Scene,
) -> Result<(), Fail>
    requires { IsNameOf opening L.opened L.name L.parts }
{
    let mut crew = Again(crew::<L, _>(rt, options, opening)?);
    let played = plays_all(rt, &mut crew, scene);
    // one call; the end of the scope is followed field by field
    drop(crew);
    played
}

/// Plays what is asked in turn, then all parts in threads of their own, and then what is asked in turn again.
fn plays_all<L: Named + Send + Sync, R: Host>(
    rt: &R,
    crew: &mut Again<Crew<'_, L, R>>,
    scene: Scene,
) -> Result<(), Fail> {
    scene.before.play(rt.alloc(), crew)?;
    in_threads(rt, &mut crew.0, scene.parts)?;
    scene.after.play(rt.alloc(), crew)?;
    Ok(())
}

/// Plays each scene of a text.
fn plays_each(rt: &impl Host, text: &str) -> Result<(), Fail> {
    for text in text.split('#') {
        let scene = Scene::of(text);
        let options = Options::of(scene.before.command)?;
        let opening = opening(rt.alloc(), options, options.callers)?;
        plays::<Brand>(rt, options, opening, scene)?;
    }
    Ok(())
}

#[test]
fn callers_in_turn(rt: HostRuntime) -> Result<(), Fail> {
    plays_each(&rt, SHARED)
}

/// One caller waits for its promise while the other flushes and removes: it is told of the removal. Each growth may be
/// refused in turn.
#[test]
fn told_of_a_settlement(rt: HostRuntime) -> Result<(), Fail> {
    plays_each(&rt, TOLD)
}

#[test]
fn callers_that_cross(rt: HostRuntime) -> Result<(), Fail> {
    plays_each(&rt, CROSSING)
}
