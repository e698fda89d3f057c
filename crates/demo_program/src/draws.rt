//! Draws from a number.
ghost use Rattle.std.specs.Prelude.{◌≡◌, ◌/◌, ◌^◌, ◌<◌};
ghost use Rattle.demo_program.specs.Draws.{after, draw};

/// Makes one draw after another.
#[derive(Drop)]
pub(crate) struct Draws {
    pub state: u64,
}

impl Draws {
    /// The next draw.
    #[tactic(auto, unfolding(crate::specs::Draws::after))]
    pub fn draw(&mut self) -> u64
        ensures state { self.new.state ≡ after self.old.state }
        ensures value { result ≡ after self.old.state / 2 ^ 33 }
        ensures below { result < 2 ^ 31 }
    {
        self.state = self
            .state
            .wrapping_mul(6_364_136_223_846_793_005)
            .wrapping_add(1_442_695_040_888_963_407);
        self.state >> 33
    }
}
