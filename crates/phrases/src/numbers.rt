// `.org` and C-11's `.align`: "digits alone, leading zeros allowed, in their field's range".
ghost use Rattle.std.specs.Prelude.{◌≡◌, ℕ, ◌+◌, ◌≤◌, ◌<◌, eqb, length, drop};
ghost use Rattle.std.proofs.Math.Option.{none};
ghost use Rattle.rules.specs.Programs.{pad};
ghost use Rattle.rules.specs.Output.{frame_of};
ghost use Rattle.laying.specs.Laying.{Stands};
ghost use Rattle.plans.specs.Plans.{fork, finish};
ghost use Rattle.plans.specs.Finals.{multiples};
ghost use Rattle.plans.specs.Lines.{org_plan, align_plan};
ghost use Rattle.laying.specs.Speaking.{Spoken};

use crate::ends::{ended, number, put_head};
use laying::{Told, put};
use leaves::lexing::look;

pub fn org_line(s: &[u8], k: usize, out: &mut [u8; 120]) -> Told
    requires { (k ≤ length s.now) × (length out.old ≡ 120) }
    ensures { Spoken org_plan s.now k out.new result }
{
    let (n, v) = number(s, k, 65535)?;
    let at = put_head(out, 5, v);
    ended(s, n, at)
}

// The frame of a pad.
fn put_pad(out: &mut [u8; 120], add: usize, multiple: usize) -> usize
    requires { (length out.old ≡ 120) × (add ≤ 255) × (multiple ≤ 256) }
    ensures { Stands out.new result (frame_of (pad add multiple)) 0 }
{
    let a = put(out, 0, 8);
    let b = put(out, a, add as u8);
    let c = put(out, b, (multiple / 256) as u8);
    put(out, c, (multiple % 256) as u8)
}

// The multiple, which ends the line and is not 0.
fn multiple_line(s: &[u8], k: usize, add: usize, out: &mut [u8; 120]) -> Told
    requires { (k ≤ length s.now) × (length out.old ≡ 120) × (add ≤ 255) }
    ensures { Spoken (finish (multiples 256 (pad add))) s.now k out.new result }
{
    let (n, v) = number(s, k, 256)?;
    if n < s.len() || v == 0 {
        return Err(n);
    }
    Ok(put_pad(out, add, v))
}

pub fn align_line(s: &[u8], k: usize, out: &mut [u8; 120]) -> Told
    requires { (k ≤ length s.now) × (length out.old ≡ 120) }
    ensures { Spoken (align_plan pad) s.now k out.new result }
{
    let (n, v) = number(s, k, 255)?;
    if look(&s[n..]) == b',' {
        return multiple_line(s, n + 1, v, out);
    }
    Err(n)
}
