ghost use Rattle.std.specs.Prelude.{◌≡◌};
ghost use Rattle.carte_generate.specs.Draws.{next, drawn};

/// The factor of the generator.
const FACTOR: u64 = 6_364_136_223_846_793_005;
/// What is added in each step.
const ADDED: u64 = 1_442_695_040_888_963_407;

/// The draws that follow a seed. The lower bits of a state repeat soon, so a draw is its upper 31.
#[derive(Drop)]
pub(crate) struct Draws {
    pub(crate) state: u64,
}

impl Draws {
    pub(crate) fn draw(&mut self) -> u64
        ensures value { result ≡ drawn self.old.state }
        ensures state { self.new.state ≡ next self.old.state }
    {
        self.state = self.state.wrapping_mul(FACTOR).wrapping_add(ADDED);
        self.state >> 33
    }
}
