// A text of hexadecimal digits, as the files of sheets are written.
ghost use Rattle.std.specs.Prelude.{◌*◌, ◌≤◌, length};
ghost use Rattle.io.specs.Counts.{IsPrefixLen};

// Puts the bytes that a text stands for at the start of out, and answers how many there are. Only hexadecimal digits
// count, two to a byte, and none from a `#` to the end of its line.
pub fn bytes(text: &[u8], out: &mut [u8]) -> usize
    ensures { IsPrefixLen result out.new }
{
    let mut digits = 0;
    let mut comment = false;
    for &c in text {
        comment = match c {
            b'#' => true,
            b'\n' => false,
            _ => comment,
        };
        if !comment && let Some(d) = digit(c) {
            digits = put(out, digits, d);
        }
    }
    digits / 2
}

// Moves a digit into its byte of out, if there is one, and answers how many digits there are then.
fn put(out: &mut [u8], digits: usize, d: u8) -> usize
    requires { digits ≤ 2 * length out.old }
    ensures { result ≤ 2 * length out.old }
{
    let Some(byte) = out.get_mut(digits / 2) else {
        return digits;
    };
    *byte = *byte << 4 | d;
    digits + 1
}

// The value of a hexadecimal digit.
fn digit(c: u8) -> Option<u8> {
    match c {
        b'0'..=b'9' => Some(c - b'0'),
        b'A'..=b'F' => Some(c - b'A' + 10),
        b'a'..=b'f' => Some(c - b'a' + 10),
        _ => None,
    }
}
