// Sheets at the limits of the counts, byte by byte: as texts they would be long.
// Mapping k: space k / 16, page 258 + 3 k, frame k / 4, read and write. So each frame has four mappings, of four colours.
// Step i goes through mapping 4 (i / 64) + i % 4, at offset 63 - i % 64 / 2: a write of 4294967295 - i where i is even, a read of what
// the step before it wrote where i is odd.
ghost use Rattle.std.specs.Prelude.{◌<◌, ◌≤◌, length};

// Fills out from the start of the sheet of some mappings and steps.
pub fn fill(mappings: usize, steps: usize, out: &mut [u8])
    requires { (mappings < 65536) × (steps < 65536) × (length out.old ≤ 65536) }
{
    for (i, byte) in out.iter_mut().enumerate() {
        *byte = byte_at(mappings, steps, i);
    }
}

fn byte_at(mappings: usize, steps: usize, i: usize) -> u8
    requires { (mappings < 65536) × (steps < 65536) × (i < 65536) }
{
    if i < 2 {
        return byte(mappings, i);
    }
    let count_at = 2 + 5 * mappings;
    if i < count_at {
        return mapping_byte((i - 2) / 5, (i - 2) % 5);
    }
    if i - count_at < 2 {
        return byte(steps, i - count_at);
    }
    let j = i - count_at - 2;
    step_byte(j / 9, j % 9)
}

fn mapping_byte(k: usize, at: usize) -> u8
    requires { k < 65536 }
{
    match at {
        0 => byte(k / 16, 0),
        1 | 2 => byte(258 + 3 * k, at - 1),
        3 => byte(k / 4, 0),
        _ => 2,
    }
}

fn step_byte(i: usize, at: usize) -> u8
    requires { (i < 65536) × (at < 9) }
{
    let k = 4 * (i / 64) + i % 4;
    match at {
        0 => byte(2 - i % 2, 0),
        1 => byte(k / 16, 0),
        2 | 3 => byte(258 + 3 * k, at - 2),
        4 => byte(63 - i % 64 / 2, 0),
        _ => byte(word(i), at - 5),
    }
}

// What step i writes, and 0 for a read.
fn word(i: usize) -> usize
    requires { i < 65536 }
{
    if i % 2 == 0 { 4294967295 - i } else { 0 }
}

// A byte of a number, the lowest first.
fn byte(n: usize, at: usize) -> u8
    requires { at < 8 }
{
    n.to_le_bytes()[at]
}
