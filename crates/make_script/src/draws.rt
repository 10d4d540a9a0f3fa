ghost use Rattle.std.specs.Prelude.{◌≡◌, ◌<◌};
ghost use Rattle.make_script.specs.Draws.{next, drawn};

// A linear congruential generator, which draws by the upper half of its number.
#[derive(Drop)]
pub(crate) struct Draws {
    pub number: u32,
}

const FACTOR: u64 = 1_103_515_245;

const SUMMAND: u64 = 12_345;

const MODULUS: u64 = 2_147_483_648;

const LOWER_HALF: u32 = 65_536;

impl Draws {
    // A draw of 0, 1, .. below k.
    #[tactic(auto, unfolding(crate::specs::Draws::next, crate::specs::Draws::drawn))]
    pub fn below(&mut self, k: u32) -> u32
        requires { 0 < k }
        ensures moved { self.new.number ≡ next self.old.number }
        ensures drawn { result ≡ drawn k self.new.number }
        ensures less { result < k }
    {
        let next = (u64::from(self.number) * FACTOR + SUMMAND) % MODULUS;
        self.number = next as u32;
        self.number / LOWER_HALF % k
    }
}
