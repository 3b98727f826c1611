// Runs what document 01 lists as both sides of each edge, and every other listing of the tables of computed runs: under document 01's settings, with
// rooms that are one byte too short, and under the other settings. tools/edges writes its input and holds its output against those tables.
#![tactic(auto)]

use std::io;

fn main(rt: HostRuntime) -> io::Result<()> {
    desk::answer_all(&rt, desk::numbered(7), true)
}
