// What the analysis asks, in document 01's order: the order, the prime, the length of the matrix, its entries, the room of the output.
ghost use Rattle.std.specs.Prelude.{◌≡◌, ltb, length};
ghost use Rattle.forms.specs.Numbers.{at};
ghost use Rattle.forms.specs.Answers.{ask, each};
ghost use Rattle.forms.specs.Operations.{analysis_asked};
ghost use Rattle.certificate.specs.ReadRecords.{limits_asked};

use certificate::limits::order_and_prime;
use certificate::records::Record;
use forms::{Reason, Refusal};

// The first entry at or above p is refused.
fn entries_asked(matrix: &[u8], p: u8) -> Result<(), Refusal>
    ensures { limits_asked result ≡ each (length matrix.now) (λ i. ask (ltb (at matrix.now i) p) 4 i) }
{
    for (i, entry) in matrix.iter().enumerate() {
        if p <= *entry {
            return Err(Refusal {
                reason: Reason::EntryTooLarge,
                place: i as u64,
            });
        }
    }
    Ok(())
}

pub fn analysis_asked(p: u64, n: u64, matrix: &[u8], room: usize) -> Result<(), Refusal>
    ensures { limits_asked result ≡ analysis_asked p n matrix.now room }
{
    order_and_prime(n, p)?;
    let rows = n as usize;
    if matrix.len() != rows * rows {
        return Err(Refusal {
            reason: Reason::MatrixLength,
            place: matrix.len() as u64,
        });
    }
    entries_asked(matrix, p as u8)?;
    let needed = Record::TI.end(n as u8);
    if room < needed {
        return Err(Refusal {
            reason: Reason::OutputTooShort,
            place: needed as u64,
        });
    }
    Ok(())
}
