// The items of data, one after the other: each its value, and then its range before the next.
ghost use Rattle.std.specs.Prelude.{◌≡◌, List, ℕ, ◌<◌, ◌≤◌, pos, get_or, length};
ghost use Rattle.rules.specs.Expressions.{num};
ghost use Rattle.rules.specs.Judging.{items};
ghost use Rattle.rules.specs.Names.{Entry, key_of, lookup};
ghost use Rattle.expression.specs.Linked.{Linked};
ghost use Rattle.encoding.specs.Operands.{field_as, ranged};
ghost use Rattle.slots.specs.Slots.{DataIn};
ghost use Rattle.image.specs.Encoding.{items_in, bound_of, item_of, SmallField, checked_as};

use crate::worth::unvalued;
use encoding::operands::{byte_item, word_item};
use expression::linked_worth;
use rules::{Place, Refusal};
use slots::item_in;

// What the items of data are.
#[derive(Clone, Copy)]
pub enum Data {
    Bytes,
    Words,
}

// The range of an item of data.
fn item_range(what: Data, at: Place, j: usize, v: i32) -> Result<u16, Refusal>
    ensures { result ≡ field_as (ranged at.0 j (bound_of what) v) }
{
    match what {
        Data::Bytes => byte_item(at, j, v),
        Data::Words => word_item(at, j, v),
    }
}

// What is written for item j of the data in a frame, with the links beside it. `at` is the frame's place.
pub fn item_field(
    frame: &[u8],
    at: Place,
    what: Data,
    j: usize,
    links: &[u16],
    values: &[i64; 1024],
    count: usize,
) -> Result<u16, Refusal>
    requires { DataIn at.0 frame.now × (j < get_or frame.now 1 0) × (count ≤ 1024) × (length links.now ≡ length frame.now) }
    ensures small { SmallField (bound_of what) result }
    ensures value { (names : List Entry) (k : ℕ)
        → Linked (λ m. lookup names (key_of k m)) frame.now links.now values.now count
        → result ≡ field_as (item_of names (bound_of what) at.0 k j
        (get_or (items_in at.0 frame.now) j (num (pos 0)))) }
{
    let a = item_in(frame, j);
    let v = linked_worth(&frame[a..], &links[a..], values, count).map_err(|why| unvalued(at, why))?;
    item_range(what, at, j, v)
}

// The n items of the data in a frame, or their first refusal. How they are written does not matter.
pub fn check_items(
    frame: &[u8],
    at: Place,
    what: Data,
    n: usize,
    links: &[u16],
    values: &[i64; 1024],
    count: usize,
) -> Result<(), Refusal>
    requires { DataIn at.0 frame.now × (n ≡ get_or frame.now 1 0) × (count ≤ 1024) × (length links.now ≡ length frame.now) }
    ensures { (names : List Entry) (k : ℕ)
        → Linked (λ m. lookup names (key_of k m)) frame.now links.now values.now count
        → (write : ℕ → List ℕ) → result ≡ checked_as (items names (bound_of what) write at.0 k 0
        (items_in at.0 frame.now)) }
{
    for j in 0..n {
        item_field(frame, at, what, j, links, values, count)?;
    }
    Ok(())
}
