// The number and the place of each answer of the public operations, as document 01 counts them.
#![tactic(auto)]

ghost use Rattle.std.specs.Prelude.{◌≡◌, ℕ};
ghost use Rattle.forms.specs.Answers.{fault_number, fault_place, refusal_number, refusal_place, answer_number, answer_place};

use forms::{Fault, Refusal};

// What refuses has a number and a place.
pub trait Numbered {
    ghost number_is: { Self → ℕ };

    ghost place_is: { Self → ℕ };

    fn number(self) -> u8
        ensures { result ≡ number_is self };

    fn place(self) -> u64
        ensures { result ≡ place_is self };
}

impl Numbered for Refusal {
    ghost number_is = { refusal_number };

    ghost place_is = { refusal_place };

    fn number(self) -> u8 {
        self.reason.number()
    }

    fn place(self) -> u64 {
        self.place
    }
}

impl Numbered for Fault {
    ghost number_is = { fault_number };

    ghost place_is = { fault_place };

    fn number(self) -> u8 {
        match self {
            Fault::Form { reason, offset: _ } => reason.number(),
            Fault::Rule(_) => 11,
        }
    }

    fn place(self) -> u64 {
        match self {
            Fault::Form { reason: _, offset } => offset,
            Fault::Rule(rule) => u64::from(rule),
        }
    }
}

// 0, or the number of what refuses.
pub fn number<E: Numbered>(answer: Result<u64, E>) -> u8
    ensures { result ≡ answer_number E.number_is answer }
{
    match answer {
        Ok(_) => 0,
        Err(refusal) => refusal.number(),
    }
}

// The length or the residue, or the place of what refuses.
pub fn place<E: Numbered>(answer: Result<u64, E>) -> u64
    ensures { result ≡ answer_place E.place_is answer }
{
    match answer {
        Ok(value) => value,
        Err(refusal) => refusal.place(),
    }
}
