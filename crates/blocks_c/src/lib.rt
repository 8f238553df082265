// The public operations for C: each returns the number and stores the place.
#![tactic(auto)]

ghost use Rattle.std.specs.Prelude.{◌≡◌};
ghost use Rattle.forms.specs.Answers.{answer_number, answer_place};
ghost use Rattle.blocks.specs.Exports.{NumberedAnalysis, NumberedCheck, NumberedReciprocal};
ghost use Rattle.blocks.specs.Finding.{PlacedFinding};

use answers::Numbered;
use blocks::{analysis, check, find, reciprocal};
use certificate::reading::byte;
use finding::record_marked;

// The number of an answer; its length, residue or place is stored.
fn tell<E: Numbered + Copy>(answer: Result<u64, E>, place: &mut u64) -> u8
    ensures number { result ≡ answer_number E.number_is answer }
    ensures place { place.new ≡ answer_place E.place_is answer }
{
    *place = answers::place(answer);
    answers::number(answer)
}

#[unsafe(no_mangle)]
pub extern "C" fn nyargulet_analysis(
    p: u64,
    n: u64,
    matrix: &[u8],
    out: &mut [u8],
    place: &mut u64,
) -> u8
    ensures { NumberedAnalysis p n matrix.now out.old out.new result place.new }
{
    tell(analysis(p, n, matrix, out), place)
}

#[unsafe(no_mangle)]
pub extern "C" fn nyargulet_check(certificate: &[u8], place: &mut u64) -> u8
    ensures { NumberedCheck certificate.now result place.new }
{
    tell(check(certificate), place)
}

// Returns the length of the part, and stores where it starts in the certificate; 0 and 0 where it is empty.
#[unsafe(no_mangle)]
pub extern "C" fn nyargulet_find(certificate: &[u8], mark: &[u8], start: &mut u64) -> u64
    ensures { PlacedFinding certificate.now mark.now start.new result }
{
    *start = 0;
    let length = find(certificate, mark).len();
    if length == 0 {
        return 0;
    }
    let Some(kind) = record_marked(mark) else {
        return 0;
    };
    let at = kind.start(byte(certificate, 5)) + 4;
    *start = at as u64;
    length as u64
}

// Stores the residue, or the place of the refusal.
#[unsafe(no_mangle)]
pub extern "C" fn nyargulet_reciprocal(p: u64, x: u64, value: &mut u64) -> u8
    ensures { NumberedReciprocal p x result value.new }
{
    tell(reciprocal(p, x).map(u64::from), value)
}
