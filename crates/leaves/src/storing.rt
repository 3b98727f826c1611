// A tree's bytes, in prefix order: a leaf's behind what stands there, an operator's in front of its operands. Where 32 bytes are too few
// the end is 33.
ghost use Rattle.std.specs.Prelude.{◌≡◌, ◌∷◌, ◌++◌, ℕ, ◌+◌, ◌%◌, ◌≤◌, ◌<◌, length, take, drop};
ghost use Rattle.rules.specs.Expressions.{pair, four};
ghost use Rattle.leaves.specs.Answering.{Put, Inserted};

// A number: 00 and four bytes.
pub fn put_number(out: &mut [u8; 32], at: usize, bits: u32) -> usize
    requires { (length out.old ≡ 32) × (at ≤ 33) }
    ensures { Put out.old out.new at (0 ∷ four bits) result }
{
    if at > 27 {
        return 33;
    }
    out[at] = 0;
    out[at + 1..at + 5].copy_from_slice(&bits.to_be_bytes());
    at + 5
}

// A name: 01 and two bytes.
pub fn put_name(out: &mut [u8; 32], at: usize, name: u32) -> usize
    requires { (length out.old ≡ 32) × (at ≤ 33) × (name < 65536) }
    ensures { Put out.old out.new at (1 ∷ pair name) result }
{
    if at > 29 {
        return 33;
    }
    out[at] = 1;
    out[at + 1..at + 3].copy_from_slice(&(name as u16).to_be_bytes());
    at + 3
}

// An operator in front of its operands, which stand from `at` to `end`.
pub fn insert(out: &mut [u8; 32], at: usize, end: usize, code: u8) -> usize
    requires { (length out.old ≡ 32) × (end ≤ 31 → at ≤ end) }
    ensures { Inserted out.old out.new at end code result }
{
    if end > 31 {
        return 33;
    }
    out.copy_within(at..end, at + 1);
    out[at] = code;
    end + 1
}
