// C-13, for C: the differences of two listings.
ghost use Rattle.border_differences.specs.Replies.{TellsDifferences};

use border_differences::{DiffersReply, tell_differences};

// `differences`, for C: a pairing is given where `given` is not 0.
#[unsafe(no_mangle)]
pub extern "C" fn mortarbee_differences(
    first: &[u8],
    second: &[u8],
    given: u8,
    pairing: &[u8],
    out: &mut [u8],
) -> DiffersReply
    ensures { TellsDifferences first.now second.now given pairing.now result
        out.old out.new }
{
    tell_differences(first, second, given, pairing, out)
}
