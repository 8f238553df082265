// Residues: the prime test, x + k y and the reciprocal. A residue is a byte below p.
ghost use Rattle.std.specs.Prelude.{◌≡◌, ◌+◌, ◌*◌, ◌%◌, ◌<◌, T};
ghost use Rattle.forms.specs.Numbers.{prime};
ghost use Rattle.forms.specs.Reciprocals.{InverseOf, Reciprocates};

use crate::modulus::Modulus;
use crate::table::RECIPROCALS;
use forms::{Reason, Refusal};

// A prime from 2 to 251: since 251 is below 17 * 17, six divisions are enough.
pub fn is_prime(p: u64) -> bool
    ensures { result ≡ prime p }
{
    (2 <= p)
        & (p <= 251)
        & ((p == 2) | (p % 2 != 0))
        & ((p == 3) | (p % 3 != 0))
        & ((p == 5) | (p % 5 != 0))
        & ((p == 7) | (p % 7 != 0))
        & ((p == 11) | (p % 11 != 0))
        & ((p == 13) | (p % 13 != 0))
}

// x + k y modulo p, for any bytes
pub fn plus_multiple(x: u8, k: u8, y: u8, m: Modulus) -> u8
    ensures { result ≡ (x + k * y) % m.p }
{
    m.remainder(u32::from(x) + u32::from(k) * u32::from(y))
}

// Euclid's algorithm on p and x: the remainders a and b are s x and t x modulo p, until b is 1.
fn euclid(x: u8, p: u8) -> u8
    requires { T (prime p) × (0 < x) × (x < p) }
    ensures { InverseOf p x result }
{
    let modulus = u32::from(p);
    let mut a = modulus;
    let mut b = u32::from(x);
    let mut s = 0;
    let mut t = 1;
    while b > 1 {
        let quotient = a / b;
        let remainder = a % b;
        let next = (s + (modulus - t) * quotient) % modulus;
        a = b;
        b = remainder;
        s = t;
        t = next;
    }
    t as u8
}

// The inverse of x modulo the prime p, and 0 for 0: from the table where p is 251.
pub fn reciprocal_of(x: u8, p: u8) -> u8
    requires { T (prime p) × (x < p) }
    ensures { InverseOf p x result }
{
    if p == 251 {
        return RECIPROCALS[usize::from(x)];
    }
    if x == 0 {
        return 0;
    }
    euclid(x, p)
}

// The public operation: a bad p is refused by 2, then a number at or above p by 4 with place 0.
pub fn reciprocal(p: u64, x: u64) -> Result<u8, Refusal>
    ensures { Reciprocates p x result }
{
    if !is_prime(p) {
        return Err(Refusal {
            reason: Reason::NotPrime,
            place: p,
        });
    }
    if x >= p {
        return Err(Refusal {
            reason: Reason::EntryTooLarge,
            place: 0,
        });
    }
    Ok(reciprocal_of(x as u8, p as u8))
}
