// A server that memory is refused to.
use md_hub::Hub;
use md_machine::{Event, Reply};
use md_turn::Core;
use std::alloc::{AllocError, Global};

/// A server to which memory is refused at every third act.
#[derive(Drop)]
pub struct Sparing {
    pub hub: Hub,
    // So many acts it was asked for.
    asked: u64,
}

impl Sparing {
    /// The server after so many acts.
    pub fn of(hub: Hub, asked: u64) -> Sparing {
        Sparing { hub, asked }
    }
}

impl Core for Sparing {
    ghost state = { λ s. s.hub.state };

    fn twin(&mut self, alloc: Global, event: &Event) -> Result<(Reply, Reply), AllocError> {
        self.asked = self.asked.wrapping_add(1);
        if self.asked.is_multiple_of(3) {
            return Err(AllocError);
        }
        self.hub.twin(alloc, event)
    }
}
