// The parts of a row, from the left: the kind, the term and three places. Places that a kind doesn't use hold 0.
ghost use Rattle.std.specs.Prelude.{◌≡◌, ◌+◌, ◌*◌, ◌/◌, ◌%◌, ◌^◌, ◌≤◌, ◌<◌};
ghost use Rattle.row.specs.Parts.{packed, parts_of};

#[derive(Clone, Copy)]
pub struct RowParts {
    pub kind: u8,
    pub term: u8,
    pub first: u8,
    pub second: u8,
    pub third: u8,
}

impl RowParts {
    // The width of a place, in bits.
    pub const PLACE_BITS: u32 = 4;

    // The width of the term, and of the kind.
    pub const TERM_BITS: u32 = 4;

    // Where the first place, the term and the kind begin.
    pub const FIRST_AT: u32 = 2 * RowParts::PLACE_BITS;

    pub const TERM_AT: u32 = 3 * RowParts::PLACE_BITS;

    pub const KIND_AT: u32 = RowParts::TERM_AT + RowParts::TERM_BITS;

    // How many bits a row has, and the first number that has more.
    pub const BITS: u32 = RowParts::KIND_AT + RowParts::TERM_BITS;

    pub const BOUND: u32 = 1 << RowParts::BITS;

    // How many numbers a place has room for, and how many the term and the kind.
    pub const PLACE_ROOM: usize = 1 << RowParts::PLACE_BITS;

    pub const TERM_ROOM: usize = 1 << RowParts::TERM_BITS;
}

// The number with the lowest bits of d behind it on the right.
fn push(n: u32, d: u8, bits: u32) -> u32
    requires { (n < 2 ^ 24) × (bits ≤ 8) }
    ensures { result ≡ n * 2 ^ bits + d % 2 ^ bits }
{
    (n << bits) | (d as u32) & ((1 << bits) - 1)
}

// The bits of a number from `at` on.
fn part(n: u32, at: u32, bits: u32) -> u8
    requires { (at < 32) × (bits ≤ 8) }
    ensures { result ≡ n / 2 ^ at % 2 ^ bits }
{
    ((n >> at) & ((1 << bits) - 1)) as u8
}

// The row's number. Of each part the bits of its width count.
pub fn pack(p: RowParts) -> u32
    ensures { result ≡ packed p }
{
    let kind = push(0, p.kind, RowParts::TERM_BITS);
    let term = push(kind, p.term, RowParts::TERM_BITS);
    let first = push(term, p.first, RowParts::PLACE_BITS);
    let second = push(first, p.second, RowParts::PLACE_BITS);
    push(second, p.third, RowParts::PLACE_BITS)
}

// The parts of a number. Bits past the kind's are ignored.
pub fn unpack(n: u32) -> RowParts
    ensures { result ≡ parts_of n }
{
    RowParts {
        kind: part(n, RowParts::KIND_AT, RowParts::TERM_BITS),
        term: part(n, RowParts::TERM_AT, RowParts::TERM_BITS),
        first: part(n, RowParts::FIRST_AT, RowParts::PLACE_BITS),
        second: part(n, RowParts::PLACE_BITS, RowParts::PLACE_BITS),
        third: part(n, 0, RowParts::PLACE_BITS),
    }
}
