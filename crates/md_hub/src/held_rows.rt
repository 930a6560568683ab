// What a live query has given its client.
use md_world::{Order, Rows};

/// What a live query has given its client: the hits given so far, which by the law of held results are what the client holds.
#[derive(Debug, Drop)]
pub struct HeldRows {
    /// The version that the query speaks of.
    pub version: u32,
    pub order: Order,
    /// Shown rows, in path order.
    pub rows: Rows,
}
