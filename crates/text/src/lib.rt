// The words of the listing for people (C-16) as fixed byte strings of eight, spaces behind: written by C-16, compared by C-19.
#![tactic(auto)]

ghost use Rattle.std.specs.Prelude.{◌≡◌, ◌≤◌, ◌<◌, length};
ghost use Rattle.text.specs.Text.{mnemonic as mnemonic_of};
ghost use Rattle.text.specs.Words.{said, dot_word};

const MNEMONICS: [[u8; 8]; 70] = [
    *b"add     ", // Add_i8
    *b"add     ", // Add_d9
    *b"add     ", // Add_Ri
    *b"addc    ", // Addc_i8
    *b"addc    ", // Addc_d9
    *b"addc    ", // Addc_Ri
    *b"sub     ", // Sub_i8
    *b"sub     ", // Sub_d9
    *b"sub     ", // Sub_Ri
    *b"subc    ", // Subc_i8
    *b"subc    ", // Subc_d9
    *b"subc    ", // Subc_Ri
    *b"inc     ", // Inc_d9
    *b"inc     ", // Inc_Ri
    *b"dec     ", // Dec_d9
    *b"dec     ", // Dec_Ri
    *b"mul     ", // Mul
    *b"div     ", // Div
    *b"and     ", // And_i8
    *b"and     ", // And_d9
    *b"and     ", // And_Ri
    *b"or      ", // Or_i8
    *b"or      ", // Or_d9
    *b"or      ", // Or_Ri
    *b"xor     ", // Xor_i8
    *b"xor     ", // Xor_d9
    *b"xor     ", // Xor_Ri
    *b"rol     ", // Rol
    *b"rolc    ", // Rolc
    *b"ror     ", // Ror
    *b"rorc    ", // Rorc
    *b"ld      ", // Ld_d9
    *b"ld      ", // Ld_Ri
    *b"st      ", // St_d9
    *b"st      ", // St_Ri
    *b"mov     ", // Mov_d9
    *b"mov     ", // Mov_Rj
    *b"ldc     ", // Ldc
    *b"push    ", // Push
    *b"pop     ", // Pop
    *b"xch     ", // Xch_d9
    *b"xch     ", // Xch_Ri
    *b"jmp     ", // Jmp
    *b"jmpf    ", // Jmpf
    *b"br      ", // Br
    *b"brf     ", // Brf
    *b"bz      ", // Bz
    *b"bnz     ", // Bnz
    *b"bp      ", // Bp
    *b"bpc     ", // Bpc
    *b"bn      ", // Bn
    *b"dbnz    ", // Dbnz_d9
    *b"dbnz    ", // Dbnz_Ri
    *b"be      ", // Be_i8
    *b"be      ", // Be_d9
    *b"be      ", // Be_Rj
    *b"bne     ", // Bne_i8
    *b"bne     ", // Bne_d9
    *b"bne     ", // Bne_Rj
    *b"call    ", // Call
    *b"callf   ", // Callf
    *b"callr   ", // Callr
    *b"ret     ", // Ret
    *b"reti    ", // Reti
    *b"clr1    ", // Clr1
    *b"set1    ", // Set1
    *b"not1    ", // Not1
    *b"nop     ", // Nop
    *b"ldf     ", // Ldf
    *b"stf     ", // Stf
];

// By the frame's kind, the first 04.
const DOT_WORDS: [[u8; 8]; 5] = [
    *b".comment", // 04
    *b".org    ", // 05
    *b".byte   ", // 06
    *b".word   ", // 07
    *b".align  ", // 08
];

// The mnemonic of a form, without its suffix.
pub fn mnemonic(form: u8) -> [u8; 8]
    requires { form < 70 }
    ensures { (said result ≡ mnemonic_of form) × (length result ≡ 8) }
{
    MNEMONICS[usize::from(form)]
}

// The word that opens a frame's line by its kind.
pub fn dot_word(kind: u8) -> [u8; 8]
    requires { (4 ≤ kind) × (kind ≤ 8) }
    ensures { (said result ≡ dot_word kind) × (length result ≡ 8) }
{
    DOT_WORDS[usize::from(kind - 4)]
}
