// The server as what lies under a turn lock.
use crate::hub::Hub;
use md_machine::{Event, Reply};
use md_turn::Core;
use std::alloc::{AllocError, Global};

impl Core for Hub {
    ghost state = { λ h. h.state };

    fn twin(&mut self, alloc: Global, event: &Event) -> Result<(Reply, Reply), AllocError> {
        Hub::twin(self, alloc, event)
    }
}
