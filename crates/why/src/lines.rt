// An attempt that has a reason as a line: 75, what is tried, the place, the kind of reason, and the refusal as the 7E line has it.
ghost use Rattle.std.specs.Prelude.{◌≡◌, ◌+◌, ◌*◌, ◌/◌, ◌%◌, ◌≤◌, ◌<◌, length};
ghost use Rattle.rules.specs.Refusals.{of_none};
ghost use Rattle.fault.specs.Faults.{IsFault};
ghost use Rattle.digits.specs.Digits.{laid};
ghost use Rattle.staying.specs.Reasons.{attempt_at};
ghost use Rattle.staying.specs.Lines.{attempt_byte, reason_byte, fault_in, why_line};
ghost use Rattle.why.specs.Tried.{tried_count, tried_lines, why_at};

use digits::{low_byte, put_line};
use fault::{Fault, fault_of};
use instruction::tables::{BR, CALL, JMP};
use output::bits;
use staying::Reason;

// A form's number; 80 and up a pattern by its place in rule 3's order.
fn attempt_byte(k: usize) -> u8
    ensures { result ≡ attempt_byte (attempt_at k) }
{
    match k {
        0..23 => (128 + k) as u8,
        23 => BR,
        24 => JMP,
        _ => CALL,
    }
}

fn reason_byte(reason: Reason) -> u8
    ensures { result ≡ reason_byte reason }
{
    match reason {
        Reason::Counts => 0,
        Reason::Change => 1,
        Reason::Inside => 2,
        Reason::Between => 3,
        Reason::Beyond => 4,
        Reason::Refused(_) => 5,
    }
}

fn no_fault() -> Fault
    ensures { IsFault result (of_none 0) }
{
    Fault {
        number: 0,
        place: 0,
        argument: 0,
        amount: 0,
    }
}

fn fault_in(reason: Reason) -> Fault
    ensures { IsFault result (fault_in reason) }
{
    match reason {
        Reason::Refused(r) => fault_of(r),
        _ => no_fault(),
    }
}

// The line of try m: 27 characters, from `at` on.
fn put_why(out: &mut [u8], at: usize, m: usize, reason: Reason)
    requires { (at + 27 ≤ length out.old) × (m / 26 < 65536) }
    ensures { out.new ≡ laid out.old at (why_line (why_at m reason)) }
{
    let i = m / 26;
    let f = fault_in(reason);
    let [n3, n2, n1, n0] = bits(f.amount).to_be_bytes();
    let bytes = [
        0x75,
        attempt_byte(m % 26),
        low_byte(i / 256),
        low_byte(i),
        reason_byte(reason),
        f.number,
        low_byte(f.place / 256),
        low_byte(f.place),
        low_byte(f.argument),
        n3,
        n2,
        n1,
        n0,
    ];
    put_line(out, at, &bytes);
}

// The line of try m behind n others, if it has one; how many there are then.
pub fn put_tried(out: &mut [u8], n: usize, m: usize, tried: Option<Reason>) -> usize
    requires { (27 * n + 27 * tried_count tried ≤ length out.old) × (m / 26 < 65536) × (n < 65536) }
    ensures { (result ≡ n + tried_count tried) × (out.new ≡ laid out.old (27 * n) (tried_lines m tried)) }
{
    match tried {
        None => n,
        Some(reason) => {
            put_why(out, 27 * n, m, reason);
            n + 1
        }
    }
}
