// Reading: record by record, each with its own refusal; a record that is not read ends the reading.
ghost use Rattle.std.specs.Prelude.{◌≡◌, ◌+◌, ◌*◌, ◌^◌, ◌≤◌, ◌<◌, length};
ghost use Rattle.forms.specs.Numbers.{at};
ghost use Rattle.forms.specs.Certificate.{offset, certificate_length};
ghost use Rattle.forms.specs.Reading.{order_and_prime, record_asked, records_asked, reading};
ghost use Rattle.certificate.specs.Numbering.{number_of};
ghost use Rattle.certificate.specs.ReadRecords.{read_of, frame_asked, residues_asked};

use crate::limits::order_and_prime;
use crate::records::{RECORDS, Record};
use forms::{Fault, Reason};

#[derive(Clone, Copy)]
pub struct Cursor {
    pub at: usize,
}

fn refused(reason: Reason, offset: usize) -> Result<Cursor, Fault>
    ensures { result ≡ Err (Fault.Form reason offset) }
{
    Err(Fault::Form {
        reason,
        offset: offset as u64,
    })
}

// Byte k; 0 past the end.
pub fn byte(s: &[u8], k: usize) -> u8
    ensures { result ≡ at s.now k }
{
    s.get(k).copied().unwrap_or(0)
}

// Two bytes of a length, low byte first.
fn stated_length(low: u8, high: u8) -> usize
    ensures { result ≡ low + 256 * high }
{
    usize::from(u16::from_le_bytes([low, high]))
}

// The mark and the length of a record, and that its payload is complete: the cursor goes to the payload.
fn read_frame(s: &[u8], c: Cursor, kind: Record, size: usize) -> Result<Cursor, Fault>
    requires { (c.at < 2 ^ 32) × (size < 2 ^ 32) }
    ensures { result ≡ read_of (frame_asked (number_of kind) c.at size s.now) (c.at + 4) }
{
    let start = c.at;
    let short = refused(Reason::RecordIncomplete, start);
    if s.len() < start + 4 {
        return short;
    }
    if !kind.is_marked(s[start], s[start + 1]) {
        return refused(Reason::WrongMark, start);
    }
    if stated_length(s[start + 2], s[start + 3]) != size {
        return refused(Reason::WrongLength, start + 2);
    }
    if s.len() < start + 4 + size {
        return short;
    }
    Ok(Cursor { at: start + 4 })
}

// The payload of HD: the order, then the prime.
fn read_header(c: Cursor, p: u8, n: u8) -> Result<Cursor, Fault>
    requires { c.at < 2 ^ 32 }
    ensures { result ≡ read_of (order_and_prime n p) (c.at + 2) }
{
    order_and_prime(u64::from(n), u64::from(p))?;
    Ok(Cursor { at: c.at + 2 })
}

// The payload of any other record: residues, of which the first at or above p is refused.
fn read_residues(s: &[u8], c: Cursor, size: usize, p: u8) -> Result<Cursor, Fault>
    requires { c.at + size ≤ length s.now }
    ensures { result ≡ read_of (residues_asked p c.at size s.now) (c.at + size) }
{
    let start = c.at;
    for i in 0..size {
        if p <= s[start + i] {
            return refused(Reason::ByteTooLarge, start + i);
        }
    }
    Ok(Cursor { at: start + size })
}

// One record, with p and n from HD.
fn read_record(s: &[u8], c: Cursor, kind: Record, p: u8, n: u8) -> Result<Cursor, Fault>
    requires { c.at ≡ offset n (number_of kind) }
    ensures { result ≡ read_of (record_asked p n s.now (number_of kind)) (offset n (number_of kind + 1)) }
{
    let size = kind.payload_size(n);
    let frame = read_frame(s, c, kind, size);
    let Ok(payload) = frame else {
        return frame;
    };
    match kind {
        Record::HD => read_header(payload, p, n),
        _ => read_residues(s, payload, size, p),
    }
}

// The first records, as many as `count`, and nothing after them. Where bytes 4 and 5 are not there, HD is refused.
fn read_records(s: &[u8], count: usize) -> Result<Cursor, Fault>
    requires { count ≤ 10 }
    ensures { result ≡ read_of (records_asked count s.now) (offset (at s.now 5) count) }
{
    let p = byte(s, 4);
    let n = byte(s, 5);
    let mut c = Cursor { at: 0 };
    for record in &RECORDS[..count] {
        let read = read_record(s, c, *record, p, n);
        let Ok(next) = read else {
            return read;
        };
        c = next;
    }
    let end = c.at;
    if end < s.len() {
        return refused(Reason::BytesAfter, end);
    }
    Ok(c)
}

// A certificate: its ten records, and nothing after TI. Put into a longer function, the loop over the residues takes up to twice the time
// (docs/DECISIONS.md, "Reading is a function of its own in the compiled code").
#[inline(never)]
pub fn read_certificate(s: &[u8]) -> Result<Cursor, Fault>
    ensures { result ≡ read_of (reading s.now) (certificate_length (at s.now 5)) }
{
    read_records(s, RECORDS.len())
}

// HD and MA, and nothing after MA.
pub fn read_matrix(s: &[u8]) -> Result<Cursor, Fault>
    ensures { result ≡ read_of (records_asked 2 s.now) (offset (at s.now 5) 2) }
{
    read_records(s, 2)
}
