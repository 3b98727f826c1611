// How far two images are the same.
ghost use Rattle.std.specs.Prelude.{◌≡◌, ◌≤◌, length};
ghost use Rattle.audit.specs.Audit.{alike};

// How many bytes from the front on are the same in both.
pub fn count_alike(wanted: &[u8], shipped: &[u8]) -> usize
    ensures { (result ≡ alike wanted.now shipped.now) × (result ≤ length wanted.now)
        × (result ≤ length shipped.now) }
{
    for (i, (w, s)) in wanted.iter().zip(shipped).enumerate() {
        let differs = *w != *s;
        if differs {
            return i;
        }
    }
    wanted.len().min(shipped.len())
}
