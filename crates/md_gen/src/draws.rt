// Numbers that are drawn one after another.
ghost use Rattle.std.specs.Prelude.{◌≡◌, ◌<◌};
ghost use Rattle.md_gen.specs.Draws.{next, drawn};

/// Knuth's multiplier for a linear congruential sequence modulo 2^64.
const MULTIPLIER: u64 = 6_364_136_223_846_793_005;

const INCREMENT: u64 = 1_442_695_040_888_963_407;

/// How many low bits of the state a draw leaves out.
const LOW_BITS: u32 = 33;

/// A linear congruential sequence modulo 2^64, of whose states the low bits are left out.
#[derive(Drop)]
pub(crate) struct Draws {
    pub(crate) state: u64,
}

impl Draws {
    /// Draws a number below a bound.
    #[tactic(auto, unfolding(crate::specs::Draws::next, crate::specs::Draws::drawn))]
    pub(crate) fn draw(&mut self, bound: usize) -> usize
        requires { 0 < bound }
        ensures value { result ≡ drawn self.old.state bound }
        ensures below { result < bound }
        ensures state { self.new.state ≡ next self.old.state }
    {
        self.state = self.state.wrapping_mul(MULTIPLIER).wrapping_add(INCREMENT);
        (self.state >> LOW_BITS) as usize % bound
    }
}
