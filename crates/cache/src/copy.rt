// Copies words over as many others. Word by word: what the library's copy comes to is a function more that a static library asks of its program.
ghost use Rattle.std.specs.Prelude.{◌≡◌, length};

pub fn copy(to: &mut [u32], from: &[u32])
    requires { length to.old ≡ length from.now }
    ensures { to.new ≡ from.now }
{
    for (i, word) in to.iter_mut().enumerate() {
        *word = from[i];
    }
}
