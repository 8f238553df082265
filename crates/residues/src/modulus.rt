// Remainders by a multiplication in the place of a division.
ghost use Rattle.std.specs.Prelude.{◌≡◌, ◌%◌, ◌<◌};
ghost use Rattle.residues.specs.Remainders.{factor_of};

// A modulus p with 2^32 / p, rounded up.
#[derive(Clone, Copy)]
pub struct Modulus {
    pub p: u8,
    factor: u64,
    pub ghost positive: { 0 < p },
    pub ghost factor_is: { factor ≡ factor_of p },
}

impl Modulus {
    // The modulus p.
    pub fn new(p: u8) -> Modulus
        requires { 0 < p }
        ensures { result.p ≡ p }
    {
        let quotient = u32::MAX / u32::from(p);
        Modulus {
            p,
            factor: u64::from(quotient) + 1,
        }
    }

    // x % p
    pub fn remainder(self, x: u32) -> u8
        requires { x < 16777216 }
        ensures { result ≡ x % self.p }
    {
        let number = u64::from(x);
        let quotient = number * self.factor / 4294967296;
        (number - quotient * u64::from(self.p)) as u8
    }
}
