// The check: the certificate is read, then the nine rules are asked in their order, and the first that fails is the answer.
ghost use Rattle.std.specs.Prelude.{◌≡◌};
ghost use Rattle.forms.specs.Answers.{fine};
ghost use Rattle.forms.specs.Reading.{certificate_of};
ghost use Rattle.forms.specs.Operations.{Checks};
ghost use Rattle.verdict.specs.NineRules.{Searched, rules_asked};

use certificate::records::Record;
use finding::{ReadCertificate, read};
use forms::Fault;
use products::inverse_rule;
use rules::diagonal::Diagonal;
use rules::field::{base_rule, similar_rule};
use rules::frobenius::frobenius_rule;
use rules::smith::smith_rule;

// Rules 1 to 3. Here and below an error is the first rule that fails.
fn diagonal_rules(certificate: &ReadCertificate) -> Result<(), u8>
    ensures { Searched (certificate_of certificate.now.bytes.now) 3 result }
{
    let d = Diagonal::new(certificate.payload(Record::DF), certificate.order);
    d.monic_rule()?;
    d.chain_rule(certificate.modulus)?;
    d.degrees_rule()
}

// Rules 4 to 6, where those before hold.
fn smith_rules(certificate: &ReadCertificate) -> Result<(), u8>
    requires { rules_asked (certificate_of certificate.now.bytes.now) 3 ≡ fine }
    ensures { Searched (certificate_of certificate.now.bytes.now) 6 result }
{
    let order = certificate.order;
    let m = certificate.modulus;
    let left = certificate.payload(Record::PL);
    inverse_rule(left, certificate.payload(Record::PI), order, m, 4)?;
    let back = certificate.payload(Record::QI);
    inverse_rule(certificate.payload(Record::QR), back, order, m, 5)?;
    let d = Diagonal::new(certificate.payload(Record::DF), order);
    smith_rule(left, certificate.payload(Record::MA), &d, back, m)
}

// Rules 7 to 9, where those before hold.
fn frobenius_rules(certificate: &ReadCertificate) -> Result<(), u8>
    requires { rules_asked (certificate_of certificate.now.bytes.now) 6 ≡ fine }
    ensures { Searched (certificate_of certificate.now.bytes.now) 9 result }
{
    let order = certificate.order;
    let m = certificate.modulus;
    let d = Diagonal::new(certificate.payload(Record::DF), order);
    let blocks = certificate.payload(Record::FB);
    frobenius_rule(&d, blocks, m)?;
    let base = certificate.payload(Record::TB);
    base_rule(base, certificate.payload(Record::TI), order, m)?;
    similar_rule(certificate.payload(Record::MA), base, blocks, order, m)
}

// All nine.
fn failing_rule(certificate: &ReadCertificate) -> Result<(), u8>
    ensures { Searched (certificate_of certificate.now.bytes.now) 9 result }
{
    diagonal_rules(certificate)?;
    smith_rules(certificate)?;
    frobenius_rules(certificate)
}

// Accepted with the length read, or refused: by the reading with its reason and offset, else by the first rule that fails.
pub fn check(certificate: &[u8]) -> Result<u64, Fault>
    ensures { Checks certificate.now result }
{
    let read = read(certificate)?;
    match failing_rule(&read) {
        Ok(()) => Ok(certificate.len() as u64),
        Err(rule) => Err(Fault::Rule(rule)),
    }
}
