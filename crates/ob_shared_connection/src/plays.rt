//! What each kind of step tells the seat that makes it.
ghost use Rattle.std.specs.Prelude.{◌≡◌};
ghost use Rattle.atomic_table.specs.Table.{rest};
ghost use Rattle.ob_shared_connection.specs.Ruled.{silenced, free_view, hearing_view, resigned_view, shown_view};
ghost use Rattle.ob_shared_connection.specs.Ruled.{view_with};
ghost use Rattle.ob_shared_connection.specs.Steps.{Appoints, Awaits, Finds, Hears, Names, Reads, Tries};

use crate::bell::Bell;
use crate::carried::Carried;
use crate::view::View;
use atomic_table::{Join, Play, Split};
use std::marker::{Brand, PhantomData};

/// Commands that were accepted. A step is told none when the program runs, so they come as a ghost member, which the
/// caller picks.
pub trait Accepted {
    ghost use Rattle.std.specs.Prelude.{List};
    ghost use Rattle.ob_types.specs.declared.command.Command.{Command};

    ghost commands: { List Command };
}

impl Accepted for Brand {
    ghost use Rattle.std.specs.Prelude.{[]};

    ghost commands = { [] };
}

/// A try to take the lock.
pub struct Lock;

impl Play<Carried, View> for Lock {
    ghost then = { λ _ old found new. Tries old found new };
}

/// The lock is let go.
pub struct Unlock;

impl Play<Carried, View> for Unlock {
    ghost then = { λ _ old _ new. new ≡ (free_view old.0, rest old.1) };
}

/// Calls of the handle that has the lock join the list.
pub struct List<C> {
    commands: PhantomData<C>,
}

impl<C: Accepted> Play<Carried, View> for List<C> {
    ghost then = { λ _ old _ new. new ≡ (view_with C.commands old.0, old.1) };
}

/// A new seat gets its number.
pub struct Name;

impl Play<Carried, View> for Name {
    ghost then = { λ step old found new. Names step.first old found new };
}

/// A read of what is published.
pub struct Read;

impl Play<Carried, View> for Read {
    ghost then = { λ _ old found new. Reads old found new };
}

/// A number that is to be published. A load is told none when the program runs.
pub trait Published {
    ghost use Rattle.std.specs.Prelude.{ℕ};

    ghost number: { ℕ };
}

impl Published for Brand {
    ghost number = { 0 };
}

/// A look whether it is published already.
pub struct Find<N> {
    number: PhantomData<N>,
}

impl<N: Published> Play<Carried, View> for Find<N> {
    ghost then = { λ _ old found new. Finds N.number old found new };
}

/// A number is published.
pub struct Publish;

impl Play<Carried, View> for Publish {
    ghost then = { λ _ old _ new. new ≡ (shown_view old.0, old.1) };
}

/// A bell is heard by the seat that has the lock.
pub struct Hear<B> {
    bell: PhantomData<B>,
}

impl<B: Bell> Play<Carried, View> for Hear<B> {
    ghost then = { λ _ old found new. Hears B.waiter old found new };
}

/// It silences a bell.
pub struct Silence<B> {
    bell: PhantomData<B>,
}

impl<B: Bell> Play<Carried, View> for Silence<B> {
    ghost then = { λ _ old _ new. new ≡ (hearing_view (silenced B.waiter old.0.bells) old.0, old.1) };
}

/// It is to wait at a bell.
pub struct Await<B> {
    bell: PhantomData<B>,
}

impl<B: Bell> Play<Carried, View> for Await<B> {
    ghost then = { λ _ old found new. Awaits B.waiter old found new };
}

/// The seat that has the lock is to send, if nobody does.
pub struct Appoint;

impl Play<Carried, View> for Appoint {
    ghost then = { λ _ old found new. Appoints old found new };
}

/// The seat that sends does not any more.
pub struct Resign;

impl Play<Carried, View> for Resign {
    ghost then = { λ _ old _ new. new ≡ (resigned_view old.0, old.1) };
}

/// A new seat, which has seen what this one has.
pub struct Cut;

impl Split<View> for Cut {
    ghost use Rattle.ob_shared_connection.specs.Ruled.{new_view, sharing_view};

    ghost left = { sharing_view };

    ghost right = { λ view. new_view (sharing_view view) };
}

/// A seat takes another one in.
pub struct Take;

impl Join<View> for Take {
    ghost use Rattle.ob_shared_connection.specs.Ruled.{both_views, spent_view};

    ghost both = { both_views };

    ghost spent = { spent_view };
}
