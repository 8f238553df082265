// The four public operations. Each promise is one record of forms, and none asks anything of its caller.
#![tactic(auto)]

ghost use Rattle.forms.specs.Operations.{Analyses, Checks, Finds};
ghost use Rattle.forms.specs.Reciprocals.{Reciprocates};

use forms::{Fault, Refusal};

// Writes the certificate of a matrix modulo p, of order n, into `out`.
pub fn analysis(p: u64, n: u64, matrix: &[u8], out: &mut [u8]) -> Result<u64, Refusal>
    ensures { Analyses p n matrix.now out.old out.new result }
{
    analysis::analysis(p, n, matrix, out)
}

// Reads a certificate from anyone, and asks the nine rules.
pub fn check(certificate: &[u8]) -> Result<u64, Fault>
    ensures { Checks certificate.now result }
{
    verdict::check::check(certificate)
}

// The payload that the mark stands for, as a part of the certificate; empty where there is none.
pub fn find<'a, 'b>(certificate: &'a [u8], mark: &'b [u8]) -> &'a [u8]
    ensures { Finds certificate.now mark.now result.now }
{
    finding::find(certificate, mark)
}

// The reciprocal of x modulo p, and 0 for 0.
pub fn reciprocal(p: u64, x: u64) -> Result<u8, Refusal>
    ensures { Reciprocates p x result }
{
    residues::residue::reciprocal(p, x)
}
