// The rules on D alone: every fi is monic (1), fi divides f(i+1) (2), and the degrees sum to n (3).
ghost use Rattle.std.specs.Prelude.{◌≡◌, ℕ, suc, ◌+◌, ◌*◌, ◌-◌, ◌≤◌, ◌<◌, eqb, length};
ghost use Rattle.forms.specs.Numbers.{at, total, every};
ghost use Rattle.forms.specs.Polynomials.{degree, monic, divides};
ghost use Rattle.forms.specs.Matrices.{diagonal};
ghost use Rattle.rules.specs.Diagonal.{MonicPayload, CoefficientsOf, Degrees};
ghost use Rattle.products.specs.Searches.{failing};

use forms::ORDER;
use matrices::Order;
use matrices::loading::row;
use polynomials::{degree_of, from_coefficients};
use residues::modulus::Modulus;

// The n + 1 coefficients of f_i.
pub fn coefficients(bytes: &[u8], i: usize, order: Order) -> &[u8]
    requires { (length bytes.now ≡ order.n * suc order.n) × (i < order.n) }
    ensures { CoefficientsOf order.n bytes.now i result.now }
{
    row(bytes, i, order.n + 1)
}

// The degrees of f1 .. fn.
pub fn degrees_of(bytes: &[u8], order: Order) -> [usize; ORDER]
    requires { length bytes.now ≡ order.n * suc order.n }
    ensures { Degrees order.n bytes.now result }
{
    let mut degrees = [0; ORDER];
    for i in 0..order.n {
        degrees[i] = degree_of(coefficients(bytes, i, order));
    }
    degrees
}

// Rule 3, of any table of degrees up to n.
pub fn degrees_rule(degrees: &[usize; ORDER], order: Order) -> Result<(), u8>
    requires { (i : ℕ) → i < order.n → at degrees.now i ≤ order.n }
    ensures { result ≡ failing (eqb (total order.n (at degrees.now)) order.n) 3 }
{
    let sum: usize = degrees[..order.n].iter().sum();
    if sum == order.n { Ok(()) } else { Err(3) }
}

// The payload of D: n polynomials of n + 1 coefficients, with their degrees.
#[derive(Clone, Copy)]
pub struct Diagonal<'a> {
    pub bytes: &'a [u8],
    pub order: Order,
    pub degrees: [usize; ORDER],
    pub ghost long: { length bytes.now ≡ order.n * suc order.n },
    pub ghost degrees_are: { Degrees order.n bytes.now degrees },
}

impl<'a> Diagonal<'a> {
    // D, with the degrees looked for.
    pub fn new(bytes: &'a [u8], order: Order) -> Diagonal<'a>
        requires { length bytes.now ≡ order.n * suc order.n }
        ensures { (result.order.n ≡ order.n) × (result.bytes.now ≡ bytes.now) }
    {
        Diagonal {
            bytes,
            order,
            degrees: degrees_of(bytes, order),
        }
    }

    // The n + 1 coefficients of f_i.
    pub fn polynomial(&self, i: usize) -> &[u8]
        requires { i < self.now.order.n }
        ensures { CoefficientsOf self.now.order.n self.now.bytes.now i result.now }
    {
        coefficients(self.bytes, i, self.order)
    }

    // Rule 1: the coefficient at the degree is 1.
    pub fn monic_rule(&self) -> Result<(), u8>
        ensures { result ≡ failing (every self.now.order.n (λ i. monic self.now.order.n (diagonal self.now.order.n self.now.bytes.now i))) 1 }
    {
        for i in 0..self.order.n {
            if self.polynomial(i)[self.degrees[i]] != 1 {
                return Err(1);
            }
        }
        Ok(())
    }

    // f_i divides the next.
    fn divides_next(&self, i: usize, m: Modulus) -> bool
        requires { MonicPayload m.p self.now.order.n self.now.bytes.now × (suc i < self.now.order.n) }
        ensures { result ≡ divides m.p self.now.order.n (diagonal self.now.order.n self.now.bytes.now i) (diagonal self.now.order.n self.now.bytes.now (suc i)) }
    {
        let f = from_coefficients(self.polynomial(i));
        let g = from_coefficients(self.polynomial(i + 1));
        polynomials::divides(f, g, m)
    }

    // Rule 2.
    pub fn chain_rule(&self, m: Modulus) -> Result<(), u8>
        requires { MonicPayload m.p self.now.order.n self.now.bytes.now × (1 ≤ self.now.order.n) }
        ensures { result ≡ failing (every (self.now.order.n - 1) (λ i. divides m.p self.now.order.n (diagonal self.now.order.n self.now.bytes.now i) (diagonal self.now.order.n self.now.bytes.now (suc i)))) 2 }
    {
        for i in 0..self.order.n - 1 {
            if !self.divides_next(i, m) {
                return Err(2);
            }
        }
        Ok(())
    }

    // Rule 3.
    pub fn degrees_rule(&self) -> Result<(), u8>
        ensures { result ≡ failing (eqb (total self.now.order.n (λ i. degree self.now.order.n (diagonal self.now.order.n self.now.bytes.now i))) self.now.order.n) 3 }
    {
        degrees_rule(&self.degrees, self.order)
    }
}
