// What every call of the library may refuse, under the numbers of documents 01 and 02, and the sizes that bound its inputs.
#![tactic(auto)]

ghost use Rattle.std.specs.Prelude.{◌≡◌, [], ◌∷◌};
ghost use Rattle.refusal.specs.Sizes.{most_bytes, most_digits, most_entries};
ghost use Rattle.refusal.specs.Answer.{refused};
ghost use Rattle.refusal.specs.Number.{fault_number};
ghost use Rattle.refusal.specs.Results.{answer_of};

// A dataset, payload, change list or bare value has at most so many bytes, and hex text twice as many digits.
pub const MAX_BYTES: usize = 16384;

pub const MAX_DIGITS: usize = 32768;
// A dataset or payload has at most so many entries, a change list so many operations.
pub const MAX_ENTRIES: usize = 256;

// The public constants, held to their numbers.
fn constants() -> [usize; 3]
    ensures { result ≡ most_bytes ∷ most_digits ∷ most_entries ∷ [] }
{
    [MAX_BYTES, MAX_DIGITS, MAX_ENTRIES]
}

// One case for each number of document 01's table, in its order, then those of document 02.
#[derive(Clone, Copy)]
pub enum Fault {
    TooLarge,
    Cut,
    TooMany,
    BadLength,
    ItemCut,
    NotUtf8,
    OddDigits,
    NotHex,
    BadOperation,
    ResultTooLarge,
    NoRoom,
    TooManyRows,
    ValueTooLong,
    NowTooLate,
    Unwritable,
    NotAddress,
    WrongIndex,
}

// What is refused, the place in the input that is at fault, and which input that is: 0 the first, 1 the second.
#[derive(Clone, Copy)]
pub struct Refusal {
    pub fault: Fault,
    pub place: usize,
    pub input: u8,
}

// A refusal at a place of the first input, as the answer of any call.
pub fn refuse<T>(fault: Fault, place: usize) -> Result<T, Refusal>
    ensures { answer_of result ≡ refused (fault_number fault) place 0 }
{
    Err(Refusal {
        fault,
        place,
        input: 0,
    })
}

impl Fault {
    // Its number in documents 01 and 02.
    pub fn number(self) -> u8
        ensures { result ≡ fault_number self }
    {
        match self {
            Fault::TooLarge => 1,
            Fault::Cut => 2,
            Fault::TooMany => 3,
            Fault::BadLength => 4,
            Fault::ItemCut => 5,
            Fault::NotUtf8 => 6,
            Fault::OddDigits => 7,
            Fault::NotHex => 8,
            Fault::BadOperation => 9,
            Fault::ResultTooLarge => 10,
            Fault::NoRoom => 11,
            Fault::TooManyRows => 12,
            Fault::ValueTooLong => 13,
            Fault::NowTooLate => 14,
            Fault::Unwritable => 15,
            Fault::NotAddress => 16,
            Fault::WrongIndex => 17,
        }
    }
}
