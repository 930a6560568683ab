// Gates before and after what is done to a server.

/// Before or after an act.
#[derive(Clone, Copy, Debug, Drop, PartialEq, Eq)]
pub enum Point {
    BeforeAct,
    AfterAct,
}

/// What each act of several threads on one server passes, before and after. A gate may hold a thread up, so that a test can
/// bring about an order of acts; it decides nothing else.
pub trait Gate {
    /// An actor is at this point of an act. Actors are numbered from 0.
    fn pass(&self, actor: u32, point: Point);
}

/// A gate that holds nobody up.
#[derive(Clone, Copy, Debug, Drop)]
pub struct OpenGate;

impl Gate for OpenGate {
    fn pass(&self, _actor: u32, _point: Point) {}
}
