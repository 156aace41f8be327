// The generator of images: one advance of it by value, and the struct that is lent and advanced in
// place.
#![tactic(auto)]

ghost use Rattle.std.specs.Prelude.{◌≡◌};
ghost use Rattle.generator.specs.Step.{stepped};

// One advance of the generator, by value.
pub fn step(x: u64) -> u64
    ensures { result ≡ stepped x }
{
    let a = x ^ (x << 13);
    let b = a ^ (a >> 7);
    b ^ (b << 17)
}

// The generator, advanced in place at each draw.
#[derive(Drop)]
pub struct Generator {
    pub state: u64,
}

impl Generator {
    // One draw: advances the generator in place by a step, and answers its new state.
    pub fn draw(&mut self) -> u64
        ensures { let next = stepped self.old.state in
            (result ≡ next) × (self.new.state ≡ next) }
    {
        self.state = step(self.state);
        self.state
    }
}
