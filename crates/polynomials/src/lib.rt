// Polynomials over F_p by value, constant term first: division with quotient and remainder, and the divisibility test.
#![tactic(auto)]

ghost use Rattle.std.specs.Prelude.{◌≡◌, ◌↔◌, ◌-◌, ◌+◌, ◌≤◌, ◌<◌, T, length};
ghost use Rattle.algebra.specs.Divides.{Divides};
ghost use Rattle.algebra.specs.Polynomial.{polynomials};
ghost use Rattle.algebra.specs.Modular.{modulo};
ghost use Rattle.forms.specs.Numbers.{at, prime};
ghost use Rattle.forms.specs.Polynomials.{degree};
ghost use Rattle.polynomials.specs.Canonical.{coefficient_limit, polynomial, Canonical};
ghost use Rattle.polynomials.specs.Taking.{TrimmedFrom, TakenFrom};
ghost use Rattle.polynomials.specs.Subtraction.{Lessened};
ghost use Rattle.polynomials.specs.LongDivision.{Divided};

use forms::ORDER;
use residues::modulus::Modulus;
use residues::residue::{plus_multiple, reciprocal_of};

// A polynomial of degree ORDER has one coefficient more.
pub const COEFFICIENTS: usize = ORDER + 1;

// The degree of the polynomial with these coefficients.
pub fn degree_of(f: &[u8]) -> usize
    ensures { result ≡ degree (length f.now - 1) (at f.now) }
{
    f.iter().rposition(|c| *c != 0).unwrap_or(0)
}

// `len` coefficients, the last of them not zero, and zeros behind them. The zero polynomial has none.
#[derive(Clone, Copy)]
pub struct Polynomial {
    pub coefficients: [u8; COEFFICIENTS],
    pub len: usize,
}

#[derive(Clone, Copy)]
pub struct Division {
    pub quotient: Polynomial,
    pub remainder: Polynomial,
}

// The polynomial of these coefficients: its length is looked for from the end.
fn trimmed(coefficients: [u8; COEFFICIENTS]) -> Polynomial
    ensures { TrimmedFrom coefficients result }
{
    let len = coefficients
        .iter()
        .rposition(|c| *c != 0)
        .map_or(0, |k| k + 1);
    Polynomial { coefficients, len }
}

// The polynomial with these coefficients.
pub fn from_coefficients(s: &[u8]) -> Polynomial
    requires { length s.now ≤ coefficient_limit }
    ensures { TakenFrom s.now 0 (length s.now) result }
{
    let mut coefficients = [0u8; COEFFICIENTS];
    coefficients[..s.len()].copy_from_slice(s);
    trimmed(coefficients)
}

// r - c X^k f
fn less_multiple(
    r: [u8; COEFFICIENTS],
    f: Polynomial,
    k: usize,
    c: u8,
    m: Modulus,
) -> [u8; COEFFICIENTS]
    requires { (c ≤ m.p) × (k + f.len ≤ coefficient_limit) }
    ensures { Lessened m.p r f.coefficients k c f.len result }
{
    let mut d = r;
    for i in 0..f.len {
        d[k + i] = plus_multiple(r[k + i], m.p - c, f.coefficients[i], m);
    }
    d
}

// Long division of g by f: the leading coefficient of what is left gives the next coefficient of the quotient.
pub fn divide(g: Polynomial, f: Polynomial, m: Modulus) -> Division
    requires { T (prime m.p) × Canonical m.p g × Canonical m.p f × (0 < f.len) }
    ensures { Divided m.p g f result }
{
    let lead = f.len - 1;
    let reciprocal = reciprocal_of(f.coefficients[lead], m.p);
    let mut quotient = [0u8; COEFFICIENTS];
    let mut remainder = g.coefficients;
    for last in (lead..g.len).rev() {
        let k = last - lead;
        let c = plus_multiple(0, remainder[last], reciprocal, m);
        quotient[k] = c;
        remainder = less_multiple(remainder, f, k, c, m);
    }
    Division {
        quotient: trimmed(quotient),
        remainder: trimmed(remainder),
    }
}

// Whether f divides g: the division leaves nothing.
pub fn divides(f: Polynomial, g: Polynomial, m: Modulus) -> bool
    requires { T (prime m.p) × Canonical m.p f × Canonical m.p g × (0 < f.len) }
    ensures { T result ↔ Divides (polynomials (modulo m.p)) (polynomial m.p f) (polynomial m.p g) }
{
    divide(g, f, m).remainder.len == 0
}
