//! What each step tells.
ghost use Rattle.turn_table.specs.Plays.{drew, served, raised, lowered, passed, rang, looked};
ghost use Rattle.turn_table.specs.Views.{first_part, other_parts, both_parts, spent};

use crate::turned::Turned;
use crate::view::View;
use atomic_table::{Join, Play, Split};

pub(crate) struct Draw;

impl<V, E> Play<Option<V>, View<V, E>> for Draw {
    ghost then = { drew };
}

pub(crate) struct Serve;

impl<V: Turned> Play<Option<V>, View<V, V::Entry>> for Serve {
    ghost then = { served V.fixed V.history V.owner V.waiting V.room };
}

pub(crate) struct PassOn;

impl<V: Turned> Play<Option<V>, View<V, V::Entry>> for PassOn {
    ghost then = { passed V.fixed V.history V.owner V.waiting V.room };
}

pub(crate) struct Ring;

impl<V, E> Play<Option<V>, View<V, E>> for Ring {
    ghost then = { rang };
}

pub(crate) struct Raise;

impl<V: Turned> Play<Option<V>, View<V, V::Entry>> for Raise {
    ghost then = { raised V.fixed V.history V.owner V.waiting V.room };
}

pub(crate) struct Lower;

impl<V, E> Play<Option<V>, View<V, E>> for Lower {
    ghost then = { lowered };
}

pub(crate) struct Look;

impl<V: Turned> Play<Option<V>, View<V, V::Entry>> for Look {
    ghost then = { looked V.fixed V.history V.owner V.waiting V.room };
}

pub(crate) struct Cut;

impl<V, E> Split<View<V, E>> for Cut {
    ghost left = { first_part };

    ghost right = { other_parts };
}

pub(crate) struct Glue;

impl<V, E> Join<View<V, E>> for Glue {
    ghost both = { both_parts };

    ghost spent = { spent };
}
