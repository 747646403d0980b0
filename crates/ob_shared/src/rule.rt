//! The published word's table: what a seat there knows, what holds between any two steps, and what each kind of step tells
//! the seat that makes it. No value of these types is made: they stand in contracts and proofs alone.
ghost use Rattle.std.specs.Prelude.{◌≡◌, [], List};
ghost use Rattle.ob_shared.specs.Published.{Learns, Reads, publishing};

use crate::named::Named;
use atomic_table::{Join, Play, Split, TableRule};
use ob_history::Record;
use ob_types::{Estimate, WaterMark};
use std::collections::LinkedList;
use std::marker::{Brand, PhantomData};

/// What a seat knows, which no other seat changes.
pub struct View {
    /// Whether it is the seat that publishes.
    pub publishes: bool,
    /// The records that it has seen, which are a beginning of the history.
    pub seen: LinkedList<Record>,
    /// What the seat had seen that was joined to it last.
    pub told: LinkedList<Record>,
    /// What its own reads found.
    pub reads: LinkedList<u64>,
}

/// How many words the table has.
pub const WORDS: usize = 16;

/// The published word. Eight words stand before it and seven behind it, so that no line of 64 bytes holds it and
/// anything else that changes: who reads without a pause slows neither the lock nor a neighbour.
pub const PUBLISHED: usize = 8;

/// What holds between any two steps.
pub struct Rule;

impl TableRule<(), View, (WaterMark, Estimate)> for Rule {
    ghost use Rattle.std.specs.Prelude.{[]};
    ghost use Rattle.ob_shared.specs.Published.{Ruled, publishing};

    ghost holds = { λ about. Ruled (record { marks = about.0; estimate = about.1 }) };

    ghost first = { λ _. publishing [] [] };
}

/// The records after which a word is published. A store is told no list when the program runs, so the list comes as a
/// ghost member, which the caller picks.
pub trait Records {
    ghost use Rattle.std.specs.Prelude.{List};
    ghost use Rattle.ob_history.specs.declared.record.Record.{Record};

    ghost records: { List Record };
}

/// A caller takes this for the type, and picks the list in its own `Invariants.antt`: what stands here is for none that
/// did not.
impl Records for Brand {
    ghost use Rattle.std.specs.Prelude.{[]};

    ghost records = { [] };
}

/// A store by the seat that publishes.
pub struct Publish<E> {
    records: PhantomData<E>,
}

impl<E: Records> Play<(), View> for Publish<E> {
    ghost then = { λ _ old _ new. new ≡ (publishing E.records [], old.1) };
}

/// A load by a seat that reads.
pub struct Read<L> {
    of: PhantomData<L>,
}

impl<L: Named> Play<(), View> for Read<L> {
    ghost then = { λ _ old found new. Reads L.opened.settings old found new };
}

/// A load by the seat that publishes.
pub struct Learn;

impl Play<(), View> for Learn {
    ghost then = { λ _ old _ new. Learns old new };
}

/// A new seat, which reads and has seen what this one has.
pub struct Cut;

impl Split<View> for Cut {
    ghost use Rattle.std.specs.Prelude.{[]};
    ghost use Rattle.ob_shared.specs.Published.{reading};

    ghost left = { λ view. view };

    ghost right = { λ view. reading view.seen [] };
}

/// The seat that publishes is told what another one had seen.
pub struct Take;

impl Join<View> for Take {
    ghost use Rattle.std.specs.Prelude.{[]};
    ghost use Rattle.ob_shared.specs.Published.{publishing, reading};

    ghost both = { λ mine other. record mine { told = other.seen } };

    ghost spent = { reading [] [] };
}
