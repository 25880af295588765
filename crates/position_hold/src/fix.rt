// A fix, and the judgement whether a position is drawn from it.
ghost use Rattle.std.specs.Prelude.{◌≡◌};
ghost use Rattle.position_hold.specs.Fix.{shown, magnitude, judged};

// Ten-millionths of a degree, and the most that lies inside.
const DEGREE: u32 = 10_000_000;

const MOST_LATITUDE: u32 = 90 * DEGREE;

const MOST_LONGITUDE: u32 = 180 * DEGREE;

// The words of a fix, in their order.
#[derive(Clone, Copy, Debug, PartialEq, Eq)]
pub struct Fix {
    pub number: u32,
    pub second: u32,
    pub latitude: u32,
    pub longitude: u32,
}

// Where a fix is, its coordinates as they were read.
#[derive(Clone, Copy, Debug, PartialEq, Eq)]
pub struct Position {
    pub latitude: u32,
    pub longitude: u32,
}

// The position that is drawn of a fix: none where it has no number, before its second, past its hold or off the earth.
#[tactic(auto, unfolding(crate::specs::Fix::judged, crate::specs::Fix::is_blank, crate::specs::Fix::is_outside))]
pub fn judge(fix: Fix, clock: u32, hold: u32) -> Option<Position>
    ensures { shown result ≡ judged clock hold fix }
{
    if fix.number != 0
        && clock >= fix.second
        && clock - fix.second <= hold
        && magnitude(fix.latitude) <= MOST_LATITUDE
        && magnitude(fix.longitude) <= MOST_LONGITUDE
    {
        Some(Position {
            latitude: fix.latitude,
            longitude: fix.longitude,
        })
    } else {
        None
    }
}

// How far from 0 a word in two's complement lies.
fn magnitude(word: u32) -> u32
    ensures { result ≡ magnitude word }
{
    word.cast_signed().unsigned_abs()
}
