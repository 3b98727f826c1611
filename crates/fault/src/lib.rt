// Each refusal by its number, its place, and for 8 to 11 the argument's place and the number at fault.
#![tactic(auto)]

ghost use Rattle.std.specs.Prelude.{◌≡◌};
ghost use Rattle.rules.specs.Refusals.{of_statement, of_argument, fault_of};
ghost use Rattle.fault.specs.Faults.{IsFault};

use rules::{Place, Refusal};

// The number and the place of a refusal; the argument's place and the signed number at fault, zeros but for 8 to 11.
#[derive(Clone, Copy)]
pub struct Fault {
    pub number: u8,
    pub place: usize,
    pub argument: usize,
    pub amount: i32,
}

fn about(number: u8, place: Place) -> Fault
    ensures { IsFault result (of_statement number place) }
{
    about_argument(number, place, 0, 0)
}

fn about_argument(number: u8, place: Place, argument: usize, amount: i32) -> Fault
    ensures { IsFault result (of_argument number place argument amount) }
{
    Fault {
        number,
        place: place.0,
        argument,
        amount,
    }
}

pub fn fault_of(r: Refusal) -> Fault
    ensures { IsFault result (fault_of r) }
{
    match r {
        Refusal::Broken(i) => about(1, i),
        Refusal::Limit(i) => about(2, i),
        Refusal::Again(i) => about(3, i),
        Refusal::NoName(i) => about(4, i),
        Refusal::Back(i) => about(5, i),
        Refusal::Beyond(i) => about(6, i),
        Refusal::NoValue(i) => about(7, i),
        Refusal::Range(i, j, v) => about_argument(8, i, j, v),
        Refusal::Outside(i, j, v) => about_argument(9, i, j, v),
        Refusal::Far(i, j, v) => about_argument(10, i, j, v),
        Refusal::Page(i, j, v) => about_argument(11, i, j, v),
        Refusal::Room(n) => about(12, Place(n)),
        Refusal::Pairing(k) => about(13, Place(k)),
        Refusal::Absent => about(14, Place(0)),
        Refusal::Column(i, c) => about_argument(15, i, 0, c),
        Refusal::Start => about(16, Place(0)),
        Refusal::Unknown => about(17, Place(0)),
        Refusal::Full => about(18, Place(0)),
        Refusal::Store => about(19, Place(0)),
    }
}
