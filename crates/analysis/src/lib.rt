// The analysis: a matrix is refused, or reduced to its Frobenius form, off which D is read and from which the certificate is written.
#![tactic(auto)]

ghost use Rattle.std.specs.Prelude.{◌≡◌, ◌++◌, ◌≤◌, length, drop};
ghost use Rattle.forms.specs.Certificate.{Certificate, layout, certificate_length};
ghost use Rattle.forms.specs.Words.{LaidOut, Certified};
ghost use Rattle.forms.specs.Operations.{Analyses};
ghost use Rattle.forms.specs.LegalRequests.{Legal};

use crate::questions::analysis_asked;
use elimination::elimination::reduce;
use entries::closed::Reduction;
use forms::Refusal;
use heads::last_rows;
use matrices::Order;
use matrices::loading::field_matrix;
use payloads::put_records;
use residues::modulus::Modulus;

pub mod questions; // what is refused

// The certificate of a matrix that is not refused, and its length.
fn write(p: u8, n: u8, matrix: &[u8], out: &mut [u8]) -> usize
    requires { Legal p n matrix.now × (certificate_length n ≤ length out.old) }
    ensures { (result ≡ certificate_length n) × ((c : Certificate) × (out.new ≡ layout c ++ drop (certificate_length n) out.old) × LaidOut c × Certified p n matrix.now c) }
{
    let order = Order::new(usize::from(n));
    let modulus = Modulus::new(p);
    let state = reduce(field_matrix(matrix, order), order, modulus);
    let form = Reduction {
        state: &state,
        from: heads::order(&state.b, order),
        last: last_rows(&state.b, order),
        order,
        modulus,
    };
    put_records(out, matrix, &form)
}

// The public operation: refusals 1 to 5 in this order, and else the certificate.
pub fn analysis(p: u64, n: u64, matrix: &[u8], out: &mut [u8]) -> Result<u64, Refusal>
    ensures { Analyses p n matrix.now out.old out.new result }
{
    analysis_asked(p, n, matrix, out.len())?;
    Ok(write(p as u8, n as u8, matrix, out) as u64)
}
