// The last line: how many rewrites and how long an image, or what was refused.
ghost use Rattle.std.specs.Prelude.{◌≡◌, ◌*◌, ◌<◌, ◌≤◌, length};
ghost use Rattle.std.specs.Int.{w32};
ghost use Rattle.std.proofs.Common.{of_z};
ghost use Rattle.rules.specs.Output.{line_of, done_line, refused_line};
ghost use Rattle.rules.specs.Run.{front};

use digits::put_bytes;

// A whole line at the front of the room.
fn put_whole(bytes: &[u8], out: &mut [u8])
    requires { 2 * length bytes.now < length out.old }
    ensures { out.new ≡ front (line_of bytes.now) out.old }
{
    put_bytes(out, 0, bytes);
    out[2 * bytes.len()] = b'\n';
}

// 7F, the rewrites in two bytes, the image's length in three: 13 characters.
pub fn done_line(rewrites: usize, image: usize, out: &mut [u8])
    requires { (rewrites < 65536) × (image ≤ 65536) × (13 ≤ length out.old) }
    ensures { out.new ≡ front (done_line rewrites image) out.old }
{
    let [r1, r0] = (rewrites as u16).to_be_bytes();
    let [_, n2, n1, n0] = (image as u32).to_be_bytes();
    put_whole(&[0x7F, r1, r0, n2, n1, n0], out);
}

// The 32 bits of a signed number.
pub fn bits(v: i32) -> u32
    ensures { result ≡ of_z w32 v }
{
    v.cast_unsigned()
}

// 7E, the refusal's number, the place in two bytes, the argument's place in one and the signed number at fault in four: 19 characters.
pub fn refused_line(number: u8, place: usize, argument: usize, amount: i32, out: &mut [u8])
    requires { (place < 65536) × (argument < 256) × (19 ≤ length out.old) }
    ensures { out.new
        ≡ front (refused_line (record { number = number; place = place; argument = argument; amount = amount })) out.old }
{
    let [p1, p0] = (place as u16).to_be_bytes();
    let [n3, n2, n1, n0] = bits(amount).to_be_bytes();
    put_whole(&[0x7E, number, p1, p0, argument as u8, n3, n2, n1, n0], out);
}
