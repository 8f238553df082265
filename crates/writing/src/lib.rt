// Writing: bytes and the head of a record are put into the output at an offset; each answers where it ends.
#![tactic(auto)]

ghost use Rattle.std.specs.Prelude.{[], ◌∷◌, ◌+◌, ◌≤◌, ◌<◌, length};
ghost use Rattle.certificate.specs.Numbering.{number_of};
ghost use Rattle.writing.specs.Put.{Puts};
ghost use Rattle.writing.specs.Written.{head_bytes};

use certificate::records::Record;

pub fn put_bytes(out: &mut [u8], at: usize, bytes: &[u8]) -> usize
    requires { at + length bytes.now ≤ length out.old }
    ensures { Puts at bytes.now out.old out.new result }
{
    let end = at + bytes.len();
    out[at..end].copy_from_slice(bytes);
    end
}

// The mark of a record, and the length of its payload, low byte first.
pub fn put_head(out: &mut [u8], at: usize, kind: Record, size: usize) -> usize
    requires { (size < 65536) × (at + 4 ≤ length out.old) }
    ensures { Puts at (head_bytes (number_of kind) size) out.old out.new result }
{
    let mark = kind.mark();
    let length = (size as u16).to_le_bytes();
    put_bytes(out, at, &[mark[0], mark[1], length[0], length[1]])
}
