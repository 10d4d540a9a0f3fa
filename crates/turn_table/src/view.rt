//! What a seat knows, which is for proofs alone: of these types only a `Setup` is ever made.
use std::collections::LinkedList;
use std::snapshot::Snapshot;

/// How a table was set up: with which value, and for how many seats.
#[derive(Drop)]
pub struct Setup<V> {
    pub start: Snapshot<V>,
    pub seats: u64,
}

/// What is known of one seat.
pub struct Part<V, E> {
    pub setup: Setup<V>,
    pub seat: u64,
    /// The history that it has seen.
    pub seen: LinkedList<E>,
    /// The room that the value has for it, at least.
    pub room: u64,
    /// Its last look, since its last turn, said that something waits for it.
    pub told: bool,
}

/// An open turn: the value with which it was opened, the words of the seats as they are, and the histories
/// that it noted as it raised words.
pub struct Opened<V, E> {
    pub value: V,
    pub words: LinkedList<u64>,
    pub noted: LinkedList<LinkedList<E>>,
}

/// How far a seat is.
pub enum Stage<V, E> {
    Resting,
    /// It has drawn the ticket of this number, which isn't served yet.
    Drawn(u64),
    InTurn(Opened<V, E>),
}

/// The view of a seat of the table below. It stands for several seats only before they are dealt out, and
/// after they were gathered in.
pub struct View<V, E> {
    pub stage: Stage<V, E>,
    pub parts: LinkedList<Part<V, E>>,
}
