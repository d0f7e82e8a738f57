// What is said of a row of a child table that is paired with the address lists: the rule, whose lists count, and the number that stands for the answer
// in an output.
#![tactic(auto)]

ghost use Rattle.std.specs.Prelude.{◌≡◌, [], ◌∷◌};
ghost use Rattle.pair_rule.specs.Pairing.{parent_of, counts, judged};
ghost use Rattle.pair_rule.specs.Codes.{code_none, code_unclear, code_of, meant};

// In an output of numbers a pair is the number of its list; these stand for the other two answers.
pub const CODE_NONE: u16 = 65535;

pub const CODE_UNCLEAR: u16 = 65534;

// The public constants, held to their numbers.
fn constants() -> [u16; 2]
    ensures { result ≡ code_none ∷ code_unclear ∷ [] }
{
    [CODE_NONE, CODE_UNCLEAR]
}

// What is said of a row of the child table: it is paired with the address list of that number, from 0; it has none; or that is unclear.
#[derive(Clone, Copy)]
pub enum Pairing {
    Paired(u16),
    None,
    Unclear,
}

impl Pairing {
    // The number that stands for it in an output.
    pub fn code(self) -> u16
        ensures { result ≡ code_of self }
    {
        match self {
            Pairing::Paired(list) => list,
            Pairing::None => CODE_NONE,
            Pairing::Unclear => CODE_UNCLEAR,
        }
    }

    // What a number of an output says.
    #[tactic(auto, unfolding(crate::specs::Codes::meant))]
    pub fn from_code(code: u16) -> Pairing
        ensures { result ≡ meant code }
    {
        if code == CODE_NONE {
            return Pairing::None;
        }
        if code == CODE_UNCLEAR {
            return Pairing::Unclear;
        }
        Pairing::Paired(code)
    }
}

// The parent router that an RLOC16 names: its top six bits.
fn parent_of(rloc16: u16) -> u16
    ensures { result ≡ parent_of rloc16 }
{
    rloc16 / 1024
}

// Whether an address list of that RLOC16 counts in a payload whose own MAC Address is mac.
pub fn counts(mac: u16, rloc16: u16) -> bool
    ensures { result ≡ counts mac rloc16 }
{
    parent_of(rloc16) == parent_of(mac)
}

// What is said of a row whose child ID stands so often in the table and among the lists that count, the last of them the list of that number.
pub fn judge(rows: u16, lists: u16, place: u16) -> Pairing
    ensures { result ≡ judged rows lists place }
{
    if rows != 1 {
        return Pairing::Unclear;
    }
    if lists == 1 {
        return Pairing::Paired(place);
    }
    if lists == 0 {
        return Pairing::None;
    }
    Pairing::Unclear
}
