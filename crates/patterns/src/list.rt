// The patterns, in the order in which they are tried.
ghost use Rattle.std.specs.Prelude.{◌≡◌, ◌<◌};
ghost use Rattle.patterns.specs.Order.{pattern_at, pattern_of, Known};

use crate::Pattern;

const BZ: u8 = 0x2E;

const BNZ: u8 = 0x2F;

const BP: u8 = 0x30;

const BPC: u8 = 0x31;

const BN: u8 = 0x32;

const DBNZ_DIRECT: u8 = 0x33;

const DBNZ_INDIRECT: u8 = 0x34;

const BE_IMMEDIATE: u8 = 0x35;

const BE_DIRECT: u8 = 0x36;

const BE_INDIRECT: u8 = 0x37;

const BNE_IMMEDIATE: u8 = 0x38;

const BNE_DIRECT: u8 = 0x39;

const BNE_INDIRECT: u8 = 0x3A;

// "inverted for the pairs .., each first to second, then second to first, then trampolines for the thirteen kinds in `BranchKind` order"
const PATTERNS: [Pattern; 23] = [
    Pattern::Inverted(BZ, BNZ),
    Pattern::Inverted(BNZ, BZ),
    Pattern::Inverted(BP, BN),
    Pattern::Inverted(BN, BP),
    Pattern::Inverted(BE_IMMEDIATE, BNE_IMMEDIATE),
    Pattern::Inverted(BNE_IMMEDIATE, BE_IMMEDIATE),
    Pattern::Inverted(BE_DIRECT, BNE_DIRECT),
    Pattern::Inverted(BNE_DIRECT, BE_DIRECT),
    Pattern::Inverted(BE_INDIRECT, BNE_INDIRECT),
    Pattern::Inverted(BNE_INDIRECT, BE_INDIRECT),
    Pattern::Trampoline(BZ),
    Pattern::Trampoline(BNZ),
    Pattern::Trampoline(BP),
    Pattern::Trampoline(BPC),
    Pattern::Trampoline(BN),
    Pattern::Trampoline(DBNZ_DIRECT),
    Pattern::Trampoline(DBNZ_INDIRECT),
    Pattern::Trampoline(BE_IMMEDIATE),
    Pattern::Trampoline(BE_DIRECT),
    Pattern::Trampoline(BE_INDIRECT),
    Pattern::Trampoline(BNE_IMMEDIATE),
    Pattern::Trampoline(BNE_DIRECT),
    Pattern::Trampoline(BNE_INDIRECT),
];

pub fn pattern(k: usize) -> Pattern
    requires { k < 23 }
    ensures { (pattern_of result ≡ pattern_at k) × Known (pattern_of result) }
{
    PATTERNS[k]
}
