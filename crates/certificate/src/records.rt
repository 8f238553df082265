// The ten records: their marks, the sizes of their payloads, and where each starts. n is a byte, so that every sum here is small.
ghost use Rattle.std.specs.Prelude.{◌≡◌, ◌+◌};
ghost use Rattle.forms.specs.Certificate.{mark, size, offset};
ghost use Rattle.forms.specs.Reading.{marked};
ghost use Rattle.certificate.specs.Numbering.{number_of};

// Each is called by its mark.
#[derive(Clone, Copy, Debug, PartialEq, Eq)]
pub enum Record {
    HD,
    MA,
    DF,
    PL,
    PI,
    QR,
    QI,
    FB,
    TB,
    TI,
}

// The records in their order.
pub const RECORDS: [Record; 10] = [
    Record::HD,
    Record::MA,
    Record::DF,
    Record::PL,
    Record::PI,
    Record::QR,
    Record::QI,
    Record::FB,
    Record::TB,
    Record::TI,
];

impl Record {
    // How many records stand before it.
    pub fn number(self) -> usize
        ensures { result ≡ number_of self }
    {
        match self {
            Record::HD => 0,
            Record::MA => 1,
            Record::DF => 2,
            Record::PL => 3,
            Record::PI => 4,
            Record::QR => 5,
            Record::QI => 6,
            Record::FB => 7,
            Record::TB => 8,
            Record::TI => 9,
        }
    }

    #[tactic(auto, unfolding(forms::specs::Certificate::mark))]
    pub fn mark(self) -> [u8; 2]
        ensures { result ≡ mark (number_of self) }
    {
        match self {
            Record::HD => *b"HD",
            Record::MA => *b"MA",
            Record::DF => *b"DF",
            Record::PL => *b"PL",
            Record::PI => *b"PI",
            Record::QR => *b"QR",
            Record::QI => *b"QI",
            Record::FB => *b"FB",
            Record::TB => *b"TB",
            Record::TI => *b"TI",
        }
    }

    // The two bytes are its mark.
    pub fn is_marked(self, first: u8, second: u8) -> bool
        ensures { result ≡ marked (number_of self) first second }
    {
        let mark = self.mark();
        (first == mark[0]) & (second == mark[1])
    }

    // The length of its payload.
    #[tactic(auto, unfolding(forms::specs::Certificate::size))]
    pub fn payload_size(self, n: u8) -> usize
        ensures { result ≡ size n (number_of self) }
    {
        let order = usize::from(n);
        let square = order * order;
        match self {
            Record::HD => 2,
            Record::MA | Record::FB | Record::TB | Record::TI => square,
            Record::DF => order * (order + 1),
            Record::PL | Record::PI | Record::QR | Record::QI => square * order,
        }
    }

    // Where it starts.
    pub fn start(self, n: u8) -> usize
        ensures { result ≡ offset n (number_of self) }
    {
        let mut start = 0;
        for record in &RECORDS[..self.number()] {
            start += 4 + record.payload_size(n);
        }
        start
    }

    // Where it ends.
    pub fn end(self, n: u8) -> usize
        ensures { result ≡ offset n (number_of self + 1) }
    {
        self.start(n) + 4 + self.payload_size(n)
    }
}
