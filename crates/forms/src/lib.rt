// The largest order, and what the public operations refuse by, as types. The numbers and the places of their answers stand in
// specs/Answers.antt.
#![tactic(auto)]

ghost use Rattle.std.specs.Prelude.{◌≡◌};
ghost use Rattle.forms.specs.Answers.{reason_number, form_fault};

// A matrix has at most this many rows; the definitions' `order_limit` is the same number.
pub const ORDER: usize = 12;

// Why a request or bytes are refused, in the order of the numbers 1 to 10.
#[derive(Clone, Copy, Debug, PartialEq, Eq)]
pub enum Reason {
    OrderOutOfRange,
    NotPrime,
    MatrixLength,
    EntryTooLarge,
    OutputTooShort,
    RecordIncomplete,
    WrongMark,
    WrongLength,
    ByteTooLarge,
    BytesAfter,
}

// What the analysis and the reciprocal refuse by: the reason, and the place that document 01 gives with it.
#[derive(Clone, Copy, Debug, PartialEq, Eq)]
pub struct Refusal {
    pub reason: Reason,
    pub place: u64,
}

// What the check refuses by: a form fault carries an offset (n or p in its stead for the first two reasons), a rule fault the rule.
#[derive(Clone, Copy, Debug, PartialEq, Eq)]
pub enum Fault {
    Form { reason: Reason, offset: u64 },
    Rule(u8),
}

impl Reason {
    pub fn number(self) -> u8
        ensures { result ≡ reason_number self }
    {
        match self {
            Reason::OrderOutOfRange => 1,
            Reason::NotPrime => 2,
            Reason::MatrixLength => 3,
            Reason::EntryTooLarge => 4,
            Reason::OutputTooShort => 5,
            Reason::RecordIncomplete => 6,
            Reason::WrongMark => 7,
            Reason::WrongLength => 8,
            Reason::ByteTooLarge => 9,
            Reason::BytesAfter => 10,
        }
    }
}

// What is refused of n and p alone is a form fault of the header that holds them.
impl From<Refusal> for Fault {
    ghost from_gives = { λ refusal fault. fault ≡ form_fault refusal };

    fn from(refusal: Refusal) -> Fault {
        Fault::Form {
            reason: refusal.reason,
            offset: refusal.place,
        }
    }
}
