// A number that tells long texts apart.

const BASIS: u64 = 0xcbf2_9ce4_8422_2325;

const PRIME: u64 = 0x0100_0000_01b3;

/// FNV-1a of 64 bits over the bytes of texts in turn.
#[derive(Clone, Copy)]
pub struct Sum {
    value: u64,
}

impl Sum {
    pub fn new() -> Sum {
        Sum { value: BASIS }
    }

    pub fn add(&mut self, text: &str) {
        for byte in text.as_bytes() {
            self.value = (self.value ^ u64::from(*byte)).wrapping_mul(PRIME);
        }
    }

    pub fn value(&self) -> u64 {
        self.value
    }
}
