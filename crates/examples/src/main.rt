// Runs the listings of the folder examples, by default without their comments. tools/examples writes its input and holds its output against the
// answers that stand there.
#![tactic(auto)]

use std::io;

fn main(rt: HostRuntime) -> io::Result<()> {
    desk::answer_all(&rt, desk::numbered(6), false)
}
