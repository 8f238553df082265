// The limits of document 01: n from 1 to 12, and p a prime from 2 to 251.
ghost use Rattle.std.specs.Prelude.{◌≡◌};
ghost use Rattle.forms.specs.Reading.{order_and_prime};
ghost use Rattle.certificate.specs.ReadRecords.{limits_asked};

use forms::{ORDER, Reason, Refusal};
use residues::residue::is_prime;

const LARGEST_ORDER: u64 = ORDER as u64;

// n is refused first, then p.
pub fn order_and_prime(n: u64, p: u64) -> Result<(), Refusal>
    ensures { limits_asked result ≡ order_and_prime n p }
{
    if !((1 <= n) & (n <= LARGEST_ORDER)) {
        return Err(Refusal {
            reason: Reason::OrderOutOfRange,
            place: n,
        });
    }
    if !is_prime(p) {
        return Err(Refusal {
            reason: Reason::NotPrime,
            place: p,
        });
    }
    Ok(())
}
