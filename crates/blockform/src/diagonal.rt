// What the listing says of D besides its polynomials: the lead.
ghost use Rattle.std.specs.Prelude.{◌≡◌, ◌+◌, ◌*◌, ◌<◌, length};
ghost use Rattle.forms.specs.Numbers.{at};
ghost use Rattle.forms.specs.Polynomials.{exponent};
ghost use Rattle.forms.specs.Matrices.{diagonal};
ghost use Rattle.forms.specs.Frobenius.{lead};

use matrices::loading::row;

// The exponent of X in the polynomial with these coefficients.
fn exponent_of(f: &[u8]) -> usize
    ensures { result ≡ exponent (length f.now) (at f.now) }
{
    f.iter().position(|c| *c != 0).unwrap_or(f.len())
}

// The exponent of X in the product f1...fn.
pub fn lead_of(d: &[u8], n: usize) -> usize
    requires { (n < 256) × (length d.now ≡ n * (n + 1)) }
    ensures { result ≡ lead n (diagonal n d.now) }
{
    let mut sum = 0;
    for i in 0..n {
        sum += exponent_of(row(d, i, n + 1));
    }
    sum
}
