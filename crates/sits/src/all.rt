// Where every statement of a listing sits, found in one reading.
ghost use Rattle.listing.specs.Tables.{input_of, Held};
ghost use Rattle.sits.specs.All.{fitting, laid_out, Places};

use asm::start_state;
use env::lay_out;
use listing::{Starts, read_listing};
use rules::Refusal;

// How many statements there are, or the first refusal, and the table: the position of each statement, then that of the end.
#[derive(Clone, Copy)]
pub struct Laid {
    pub answer: Result<usize, Refusal>,
    pub positions: [u32; 1025],
}

// The table that was handed over with the positions of the statements that were read, or as it was where 5 or 6 is found.
fn lay_all(frames: &[u8], starts: &Starts, count: usize, table: [u32; 1025]) -> Laid
    requires { Held frames.now starts.now count }
    ensures { Places (fitting (input_of frames.now starts.now count)) result.answer table result.positions }
{
    let state = start_state(starts, count);
    let mut laid = table;
    // no `?` here and below: a refusal hands the table back
    match lay_out(frames, &state, count, &mut laid) {
        Err(r) => Laid {
            answer: Err(r),
            positions: table,
        },
        Ok(()) => Laid {
            answer: Ok(count),
            positions: laid,
        },
    }
}

// A table with the position of each statement of a listing, and of the end behind them. What lies behind is as it was handed over, and on
// refusal all of it.
pub fn all_sit(listing: &[u8], table: [u32; 1025]) -> Laid
    ensures { Places (laid_out listing.now) result.answer table result.positions }
{
    let mut frames = [0u8; 28672];
    let mut starts = [0u16; 4100];
    let mut lines = [0u32; 1024];
    match read_listing(listing, &mut frames, &mut starts, &mut lines) {
        Err(r) => Laid {
            answer: Err(r),
            positions: table,
        },
        Ok(count) => lay_all(&frames, &starts, count, table),
    }
}
