// Arithmetic modulo p on numbers of 32 bits, and the moduli. Every contract holds for every p above 0 and all operands of 32 bits, in
// `reduce` of 64; `inverse` wants a prime p and an operand that is not 0 modulo p. Nothing wraps.

#![tactic(auto)]

ghost use Rattle.std.specs.Prelude.{◌≡◌, ◌+◌, ◌-◌, ◌*◌, ◌/◌, ◌%◌, ◌<◌, ◌≤◌};
ghost use Rattle.residue.specs.Prime.{Prime};
ghost use Rattle.residue.specs.Moduli.{is_modulus_lem};

// Document 01's table; `moduli` of specs/Moduli.antt, whose every entry is proved prime.
const MODULI: [u32; 16] = [
    2, 3, 5, 7, 11, 13, 17, 19, 23, 29, 31, 127, 251, 257, 8191, 65521,
];

// Whether p is one of the sixteen.
pub fn is_modulus(p: u32) -> bool
    ensures { result ≡ is_modulus_lem p }
{
    MODULI.contains(&p)
}

// A modulus p with 2^43 / p, with which `reduce` divides by multiplying.
#[derive(Clone, Copy)]
pub struct Modulus {
    pub p: u32,
    pub inv: u64,
    pub ghost positive: { 0 < p },
    pub ghost ratio: { inv * p ≤ 8796093022208 },
}

impl Modulus {
    pub fn new(p: u32) -> Modulus
        requires { 0 < p }
        ensures { (result.p ≡ p) × (result.inv ≡ 8796093022208 / p) }
    {
        Modulus {
            p,
            inv: 8796093022208 / (p as u64),
        }
    }

    // x modulo p.
    pub fn reduce(self, x: u64) -> u32
        ensures { (result ≡ x % self.p) × (result < self.p) }
    {
        // The quotient is guessed, never too large. For a sum of up to 13 products of numbers below 2^16 the guess leaves less than p
        // nearly always; what it leaves else is divided.
        let m = self.p as u64;
        if x < m * 1048576 {
            let q = x * self.inv / 8796093022208;
            let rest = x - q * m;
            if rest < m {
                return rest as u32;
            }
        }
        (x % m) as u32
    }

    pub fn add(self, x: u32, y: u32) -> u32
        ensures { (result ≡ (x + y) % self.p) × (result < self.p) }
    {
        (((x as u64) + (y as u64)) % (self.p as u64)) as u32
    }

    pub fn neg(self, x: u32) -> u32
        ensures { (result ≡ (self.p - x % self.p) % self.p) × (result < self.p) }
    {
        (self.p - x % self.p) % self.p
    }

    pub fn sub(self, x: u32, y: u32) -> u32
        ensures { (result ≡ (x + (self.p - y % self.p)) % self.p) × (result < self.p) }
    {
        (((x as u64) + ((self.p - y % self.p) as u64)) % (self.p as u64)) as u32
    }

    pub fn mul(self, x: u32, y: u32) -> u32
        ensures { (result ≡ x * y % self.p) × (result < self.p) }
    {
        self.reduce((x as u64) * (y as u64))
    }

    // a + x y modulo p.
    pub fn mul_add(self, a: u32, x: u32, y: u32) -> u32
        ensures { (result ≡ (a + x * y) % self.p) × (result < self.p) }
    {
        self.reduce((a as u64) + (x as u64) * (y as u64))
    }

    // The inverse of x.
    pub fn inverse(self, x: u32) -> u32
        requires prime { Prime self.p }
        requires nonzero { x % self.p ≡ 0 → ⊥ }
        ensures { (result * x % self.p ≡ 1) × (result < self.p) }
    {
        // With p = k y + l, y is - l / k modulo p: so acc x = y stays true modulo p while y falls to 1.
        let mut acc: u32 = 1;
        let mut y = x % self.p;
        while 1 < y {
            let q = self.p - self.p / y;
            acc = self.reduce((acc as u64) * (q as u64));
            y = self.p % y;
        }
        acc
    }
}

// A modulus that is prime: the residues are a field.
#[derive(Clone, Copy)]
pub struct PrimeModulus {
    pub m: Modulus,
    pub ghost prime: { Prime m.p },
}

impl PrimeModulus {
    pub fn new(p: u32) -> PrimeModulus
        requires { Prime p }
        ensures { (result.m.p ≡ p) × (result.m.inv ≡ 8796093022208 / p) }
    {
        PrimeModulus { m: Modulus::new(p) }
    }
}
