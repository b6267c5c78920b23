//! The rule of the words and of the slot: what a pass knows of them is true of them, and what each
//! step tells its pass.
ghost use Rattle.std.specs.Prelude.{ℕ, Bool, List, length, ◌≡◌};

use atomic_table::{Join, Play, Split, TableRule};
use std::collections::LinkedList;
use std::marker::{Brand, PhantomData};
use std::snapshot::Snapshot;

/// A value with a list of entries, each made by a session, and with room reserved for some
/// sessions.
pub trait Chronicled {
    /// An entry together with what the value keeps beside it for good.
    type Entry;

    /// The entries in their order, the oldest first.
    ghost entries: { Self → List Self.Entry };

    /// The number of the session that made an entry.
    ghost session: { Self.Entry → ℕ };

    /// Whether room is reserved for the session of this number.
    ghost has_room: { Self → ℕ → Bool };

    /// How many entries there are.
    fn length(&self) -> u64
        ensures { result ≡ length (entries self.now) };
}

/// Where a pass stands. No value of it is made.
pub enum Stage<T> {
    /// It is in no turn.
    Idle,
    /// It has this ticket.
    Waits(u64),
    /// Its turn with this ticket has come, and found this value.
    In(u64, T),
    /// It has also published the number of entries.
    Done(u64, T),
}

/// What a pass knows. No value of it is made.
pub struct View<T, E> {
    pub stage: Stage<T>,
    pub seen: LinkedList<E>,
    /// The shorter of two seen lists that met.
    pub noted: LinkedList<E>,
    /// The sessions of the pass that had seen the shorter list.
    pub noted_sessions: LinkedList<(u64, bool)>,
    /// Its own entries, each with its place.
    pub own: LinkedList<(u64, E)>,
    /// How many turns are left.
    pub left: u64,
    /// How many turns it took.
    pub taken: u64,
    /// Its sessions, each with whether room is reserved for it.
    pub sessions: LinkedList<(u64, bool)>,
    /// One more than the turns of all passes; 0 of a pass that another one took in.
    pub span: u64,
}

/// The value at the start, and how many turns there are.
#[derive(Drop)]
pub struct Start<T> {
    pub value: Snapshot<T>,
    pub turns: u64,
}

/// One pass after another has the value, in the order of their tickets.
pub struct InTurn;

impl<T: Chronicled> TableRule<Option<T>, View<T, T::Entry>, Start<T>> for InTurn {
    ghost use Rattle.turnstile.specs.Turns.{Turning};
    ghost use Rattle.turnstile.specs.Views.{first_view};

    ghost holds = { λ k. Turning T.entries T.session T.has_room k.value.value k.turns };

    ghost first = { λ k. first_view T.entries T.has_room k.value.value k.turns };
}

/// Takes the next ticket.
pub(crate) struct Draw;

impl<T, E> Play<Option<T>, View<T, E>> for Draw {
    ghost use Rattle.turnstile.specs.Steps.{drew};

    ghost then = { drew };
}

/// Looks whose turn it is, and takes the slot where it is the pass's.
pub(crate) struct Look<T> {
    of: PhantomData<T>,
}

impl<T: Chronicled> Play<Option<T>, View<T, T::Entry>> for Look<T> {
    ghost use Rattle.turnstile.specs.Steps.{looked};

    ghost then = { looked T.entries T.session T.has_room };
}

/// Stores the number of entries.
pub(crate) struct Publish<T> {
    of: PhantomData<T>,
}

impl<T: Chronicled> Play<Option<T>, View<T, T::Entry>> for Publish<T> {
    ghost use Rattle.turnstile.specs.Steps.{published};

    ghost then = { published T.entries T.session T.has_room };
}

/// Gives the slot back, and lets the next ticket in.
pub(crate) struct Serve<T> {
    of: PhantomData<T>,
}

impl<T: Chronicled> Play<Option<T>, View<T, T::Entry>> for Serve<T> {
    ghost use Rattle.turnstile.specs.Steps.{served};

    ghost then = { served T.entries T.session T.has_room };
}

/// How many turns and which session go to a new pass.
pub trait Cutting {
    ghost turns: { ℕ };

    ghost session: { ℕ };
}

// Each call of a program picks its own.
impl Cutting for Brand {
    ghost turns = { 0 };

    ghost session = { 0 };
}

/// Cuts a pass in two.
pub(crate) struct Cut<K> {
    of: PhantomData<K>,
}

impl<T, E, K: Cutting> Split<View<T, E>> for Cut<K> {
    ghost use Rattle.turnstile.specs.Views.{cut_left, cut_right};

    ghost left = { cut_left K.turns K.session };

    ghost right = { cut_right K.turns K.session };
}

/// Puts two passes together.
pub(crate) struct Meet;

impl<T, E> Join<View<T, E>> for Meet {
    ghost use Rattle.turnstile.specs.Views.{met, spent};

    ghost both = { met };

    ghost spent = { spent };
}

/// A look after a meeting, which tells how the two seen lists lie.
pub(crate) struct Tell<T> {
    of: PhantomData<T>,
}

impl<T: Chronicled> Play<Option<T>, View<T, T::Entry>> for Tell<T> {
    ghost use Rattle.turnstile.specs.Steps.{tells};

    ghost then = { tells T.session };
}
