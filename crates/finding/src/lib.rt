// Finding: the payload that a mark finds, as a part of the certificate.
#![tactic(auto)]

ghost use Rattle.std.specs.Prelude.{◌≡◌, [], ◌+◌, ◌≤◌, length, MatchResult};
ghost use Rattle.forms.specs.Numbers.{at};
ghost use Rattle.forms.specs.Answers.{fine};
ghost use Rattle.forms.specs.Certificate.{offset, part};
ghost use Rattle.forms.specs.Reading.{reading};
ghost use Rattle.forms.specs.Operations.{Finds};
ghost use Rattle.certificate.specs.Numbering.{number_of};
ghost use Rattle.certificate.specs.ReadRecords.{read_of};
ghost use Rattle.finding.specs.Found.{Marks};

use certificate::reading::read_certificate;
use certificate::records::{RECORDS, Record};
use forms::Fault;
use matrices::Order;
use residues::modulus::Modulus;

// The record whose mark is exactly m, if there is one.
pub fn record_marked(m: &[u8]) -> Option<Record>
    ensures { Marks m.now result }
{
    if m.len() != 2 {
        return None;
    }
    for kind in &RECORDS {
        if kind.is_marked(m[0], m[1]) {
            return Some(*kind);
        }
    }
    None
}

fn nothing<'a>(certificate: &'a [u8]) -> &'a [u8]
    ensures { result.now ≡ [] }
{
    &certificate[..0]
}

// The payload of one record.
pub fn payload<'a>(certificate: &'a [u8], n: u8, kind: Record) -> &'a [u8]
    requires { offset n (number_of kind + 1) ≤ length certificate.now }
    ensures { result.now ≡ part n (number_of kind) certificate.now }
{
    let start = kind.start(n) + 4;
    let end = kind.end(n);
    &certificate[start..end]
}

// A certificate in which reading refuses nothing, with its order and its prime.
#[derive(Clone, Copy)]
pub struct ReadCertificate<'a> {
    pub bytes: &'a [u8],
    pub order: Order,
    pub modulus: Modulus,
    pub ghost is_read: { reading bytes.now ≡ fine },
    pub ghost order_is: { order.n ≡ at bytes.now 5 },
    pub ghost modulus_is: { modulus.p ≡ at bytes.now 4 },
}

// The certificate of these bytes, or the first fault in them.
pub fn read<'a>(bytes: &'a [u8]) -> Result<ReadCertificate<'a>, Fault>
    ensures { MatchResult result (λ c. c.bytes.now ≡ bytes.now) (λ fault. Err fault ≡ read_of (reading bytes.now) 0) }
{
    read_certificate(bytes)?;
    let order = Order::new(bytes[5] as usize);
    let modulus = Modulus::new(bytes[4]);
    Ok(ReadCertificate {
        bytes,
        order,
        modulus,
    })
}

impl<'a> ReadCertificate<'a> {
    pub fn payload(&self, kind: Record) -> &'a [u8]
        ensures { result.now ≡ part (at self.now.bytes.now 5) (number_of kind) self.now.bytes.now }
    {
        payload(self.bytes, self.bytes[5], kind)
    }
}

// Empty where the certificate is not read, or where the mark is none of the ten.
pub fn find<'a, 'b>(certificate: &'a [u8], mark: &'b [u8]) -> &'a [u8]
    ensures { Finds certificate.now mark.now result.now }
{
    let Ok(read) = read(certificate) else {
        return nothing(certificate);
    };
    let Some(kind) = record_marked(mark) else {
        return nothing(certificate);
    };
    read.payload(kind)
}
