//! A stream of draws.

ghost use Rattle.std.specs.Prelude.{◌≡◌, ◌<◌, ◌^◌};
ghost use Rattle.nil_examples.specs.Draws.{next, draw};

/// States are below this.
const MODULUS: u64 = 1 << 31;

/// The state of a stream of draws.
#[derive(Drop)]
pub struct Draws {
    pub state: u64,
    ghost below: { state < 2 ^ 31 },
}

impl Draws {
    /// The next draw.
    pub(crate) fn draw(&mut self) -> u64
        ensures value { result ≡ draw self.old.state 1 }
        ensures state { self.new.state ≡ next self.old.state }
    {
        self.state = (self.state * 1_103_515_245 + 12_345) % MODULUS;
        self.state / 65_536
    }
}
