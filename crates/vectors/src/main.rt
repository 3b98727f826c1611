// Replays listings, comments kept, whose answers the Rust gave, or for refusals document 01: tools/vectors made its input and its output.
#![tactic(auto)]

use std::io;

fn main(rt: HostRuntime) -> io::Result<()> {
    desk::answer_all(&rt, desk::numbered(7), false)
}
