// Single bits of a number.
ghost use Rattle.std.specs.Prelude.{◌≡◌, false, ◌^◌, ◌<◌};
ghost use Rattle.question.specs.Masks.{bit as has_bit};
ghost use Rattle.mask.specs.Reasons.{raised};

// Is bit x of m set.
pub(crate) fn bit(m: u32, x: u8) -> bool
    requires { x < 32 }
    ensures { result ≡ has_bit m x }
{
    (m >> x) % 2 == 1
}

// The number with bit x alone.
pub(crate) fn only(x: u8) -> u32
    requires { x < 32 }
    ensures { result ≡ 2 ^ x }
{
    1 << x
}

// m with bit q set, which it lacks, and the bits below cleared.
pub(crate) fn raise(m: u32, q: u8) -> u32
    requires { (q < 32) × (has_bit m q ≡ false) }
    ensures { result ≡ raised 2 q m }
{
    ((m >> q) + 1) << q
}
