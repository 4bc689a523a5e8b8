// The list of event codes, and the class of a code.
#![tactic(auto)]

ghost use Rattle.std.specs.Prelude.{◌≡◌};
ghost use Rattle.event.specs.Events.{code};
ghost use Rattle.event.specs.Class.{by_third};
ghost use Rattle.event.specs.Promise.{ListedPromise, ClassPromise, ListedClassPromise};
ghost use Rattle.event.specs.Steps.{Found};

// The 61 codes, in the paper's order, and the class of each.
const EVENTS: [([u8; 3], u32); 61] = [
    (*b"BZW", 1),
    (*b"CFA", 2),
    (*b"CFW", 1),
    (*b"DSW", 1),
    (*b"EWW", 1),
    (*b"FFA", 2),
    (*b"FFW", 1),
    (*b"FFS", 4),
    (*b"FLA", 2),
    (*b"FLW", 1),
    (*b"FLS", 4),
    (*b"HWA", 2),
    (*b"HWW", 1),
    (*b"HUA", 2),
    (*b"HUW", 1),
    (*b"HLS", 4),
    (*b"SVA", 2),
    (*b"SVR", 1),
    (*b"SVS", 4),
    (*b"SMW", 1),
    (*b"SPS", 4),
    (*b"SQW", 1),
    (*b"SSA", 2),
    (*b"SSW", 1),
    (*b"TOA", 2),
    (*b"TOR", 1),
    (*b"TRA", 2),
    (*b"TRW", 1),
    (*b"TSA", 2),
    (*b"TSW", 1),
    (*b"WSA", 2),
    (*b"WSW", 1),
    (*b"EAN", 6),
    (*b"NIC", 6),
    (*b"NPT", 5),
    (*b"RMT", 5),
    (*b"RWT", 5),
    (*b"ADR", 6),
    (*b"AVA", 2),
    (*b"AVW", 1),
    (*b"BLU", 3),
    (*b"CAE", 3),
    (*b"CDW", 1),
    (*b"CEM", 3),
    (*b"EQW", 1),
    (*b"EVI", 3),
    (*b"FRW", 1),
    (*b"HMW", 1),
    (*b"LEW", 1),
    (*b"LAE", 3),
    (*b"TOE", 3),
    (*b"NUW", 1),
    (*b"RHW", 1),
    (*b"SPW", 1),
    (*b"VOW", 1),
    (*b"NMN", 6),
    (*b"DMO", 5),
    (*b"TXF", 0),
    (*b"TXO", 0),
    (*b"TXB", 0),
    (*b"TXP", 0),
];

// What is known of a code: whether it is listed, and its class. No Option, since a code that is not listed has a class too; and the class is a
// number, 0 to 6, as the paper and the C interface have it.
#[derive(Clone, Copy)]
pub struct ListedClass {
    pub listed: bool,
    pub class: u32,
}

// The class of a listed code. One look at each row of the list, up to the one that is it.
fn find(a: u8, b: u8, c: u8) -> Option<u32>
    ensures { Found (code a b c) result }
{
    EVENTS
        .iter()
        .find(|row| [a, b, c] == row.0)
        .map(|row| row.1)
}

// Whether a code is listed.
pub fn is_listed(a: u8, b: u8, c: u8) -> bool
    ensures { ListedPromise a b c result }
{
    find(a, b, c).is_some()
}

// The class that a third letter says.
fn class_by_third(third: u8) -> u32
    ensures { result ≡ by_third third }
{
    match third {
        b'W' => 1,
        b'A' => 2,
        b'E' => 3,
        b'S' => 4,
        _ => 6,
    }
}

// Whether a code is listed and which class it has, in one search. Only a code that is not listed goes by its third letter.
pub fn listed_class(a: u8, b: u8, c: u8) -> ListedClass
    ensures { ListedClassPromise a b c result }
{
    match find(a, b, c) {
        Some(class) => ListedClass {
            listed: true,
            class,
        },
        None => ListedClass {
            listed: false,
            class: class_by_third(c),
        },
    }
}

// The class of a code, listed or not.
pub fn class_of(a: u8, b: u8, c: u8) -> u32
    ensures { ClassPromise a b c result }
{
    listed_class(a, b, c).class
}
