// Masks of 32 bits: whether a bit is set, a mask with a bit set, whether all stand below a place, the mask of all below a place.
#![tactic(auto)]

ghost use Rattle.std.specs.Prelude.{◌≡◌, true, ◌≤◌, ◌<◌, ◌^◌, ltb};
ghost use Rattle.bits.specs.Mask.{width, bit, with_bit, mask_of};

// Whether the bit at a place is set.
#[tactic(auto, unfolding(crate::specs::Mask::bit))]
pub fn bit(mask: u32, place: usize) -> bool
    requires { place < width }
    ensures { result ≡ bit mask place }
{
    (mask >> place) % 2 == 1
}

// The mask with the bit at a place set.
#[tactic(auto, using(crate::proofs::Mask::one_shl), unfolding(crate::specs::Mask::with_bit))]
pub fn with_bit(mask: u32, place: usize) -> u32
    requires { place < width }
    ensures { result ≡ with_bit mask place }
{
    mask | 1 << place
}

// Whether every bit of the mask stands at one of the first places.
#[tactic(auto, using(crate::proofs::Mask::shr_none))]
pub fn within(mask: u32, places: usize) -> bool
    requires { places ≤ width }
    ensures { result ≡ ltb mask (2 ^ places) }
{
    u64::from(mask) >> places == 0
}

// The mask of the first places, all of them.
pub fn below(places: usize) -> u32
    requires { places ≤ width }
    ensures { result ≡ mask_of places (λ k. true) }
{
    let limit: u64 = 1 << places;
    (limit - 1) as u32
}
