// The tries of an end form in their order: how many have a reason, and a line for each.
ghost use Rattle.std.specs.Prelude.{◌≡◌, ◌≤◌, length};
ghost use Rattle.slots.specs.Slots.{Slots, program_of};
ghost use Rattle.slots.specs.State.{starts_in, table_of};
ghost use Rattle.slots.specs.Links.{Beside};
ghost use Rattle.image.specs.Tables.{Tables, tables_of, Ready};
ghost use Rattle.attempts.specs.Standing.{Standing};
ghost use Rattle.digits.specs.Digits.{laid};
ghost use Rattle.staying.specs.Reasons.{whys};
ghost use Rattle.staying.specs.Lines.{why_lines};
ghost use Rattle.why.specs.Tried.{tried_count};

use crate::lines::put_tried;
use crate::tries::attempted;
use rules::Settings;
use slots::State;
use staying::Reason;

// One line, or none.
fn is_tried(tried: Option<Reason>) -> usize
    ensures { (result ≡ tried_count tried) × (result ≤ 1) }
{
    usize::from(tried.is_some())
}

// How many attempts have a reason.
pub fn count_whys(
    asked: Settings,
    frames: &[u8],
    state: &State,
    count: usize,
    links: &[u16; 28672],
    values: &[i64; 1024],
    positions: &[u32; 1025],
) -> usize
    requires { let d : Tables = tables_of frames.now state.now count links.now values.now positions.now in
        Standing d.slots × Ready d × Beside frames.now (starts_in state.now) count links.now }
    ensures { let t : Slots = table_of frames.now state.now count in
        result ≡ length (whys asked (program_of t)) }
{
    let mut n = 0;
    for m in 0..26 * count {
        let tried = attempted(asked, frames, state, count, links, values, positions, m);
        n += is_tried(tried);
    }
    n
}

// A line for each, one behind the other.
pub fn write_whys(
    asked: Settings,
    frames: &[u8],
    state: &State,
    count: usize,
    links: &[u16; 28672],
    values: &[i64; 1024],
    positions: &[u32; 1025],
    out: &mut [u8],
)
    requires { let d : Tables = tables_of frames.now state.now count links.now values.now positions.now in
        Standing d.slots × Ready d × Beside frames.now (starts_in state.now) count links.now
        × (length (why_lines (whys asked (program_of d.slots))) ≤ length out.old) }
    ensures { let t : Slots = table_of frames.now state.now count in
        out.new ≡ laid out.old 0 (why_lines (whys asked (program_of t))) }
{
    let mut n = 0;
    for m in 0..26 * count {
        let tried = attempted(asked, frames, state, count, links, values, positions, m);
        n = put_tried(out, n, m, tried);
    }
}
