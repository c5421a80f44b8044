// Numbers of four and eight bytes, the lowest byte first.
// kept: most of these stand twice, for numbers of four bytes and of eight, since callers name each and cite its own definition. One function over a trait
// would leave them as its instances, and add the trait, its laws and two impls, for bodies of one to three statements.
ghost use Rattle.std.specs.Prelude.{◌≡◌, ◌*◌};
ghost use Rattle.numerals.specs.little_endian.LittleEndian.{u32_at, u64_at, eight_bytes, with_u64, with_u32, with_nth32, with_nth64, pattern_of, signed_of};
ghost use Rattle.numerals.specs.little_endian.LittleEndian.{signed32, i32_at};

// The number in the four bytes from `at` on; 0 where they are not all there.
pub fn u32_at(s: &[u8], at: usize) -> u32
    ensures { result ≡ u32_at s.now at }
{
    if s.len() < 4 {
        return 0;
    }
    if s.len() - 4 < at {
        return 0;
    }
    u32::from_le_bytes([s[at], s[at + 1], s[at + 2], s[at + 3]])
}

// The number in the eight bytes from `at` on; 0 where they are not all there.
pub fn u64_at(s: &[u8], at: usize) -> u64
    ensures { result ≡ u64_at s.now at }
{
    if s.len() < 8 {
        return 0;
    }
    if s.len() - 8 < at {
        return 0;
    }
    u64::from_le_bytes([
        s[at],
        s[at + 1],
        s[at + 2],
        s[at + 3],
        s[at + 4],
        s[at + 5],
        s[at + 6],
        s[at + 7],
    ])
}

// The eight bytes of a number.
pub fn bytes_of_u64(n: u64) -> [u8; 8]
    ensures { result ≡ eight_bytes n }
{
    n.to_le_bytes()
}

// The eight bytes of a number at the start of a lent slice; where they do not all fit, nothing is written. On a part of eight bytes the test costs nothing.
#[tactic(auto, using(crate::proofs::little_endian::Puts::too_few, crate::proofs::little_endian::Puts::put_at_start))]
pub fn put_u64(out: &mut [u8], n: u64)
    ensures { out.new ≡ with_u64 out.old n }
{
    if out.len() < 8 {
        return;
    }
    out[..8].copy_from_slice(&bytes_of_u64(n));
}

// The four bytes of a number at the start of a lent slice; where they do not all fit, nothing is written.
#[tactic(auto, using(crate::proofs::little_endian::Puts::too_few_4, crate::proofs::little_endian::Puts::put_4_at_start))]
pub fn put_u32(out: &mut [u8], n: u32)
    ensures { out.new ≡ with_u32 out.old n }
{
    if out.len() < 4 {
        return;
    }
    out[..4].copy_from_slice(&n.to_le_bytes());
}

// Number i of a list of numbers of eight bytes; 0 where the list does not have it. Read from a part of eight bytes, it needs no further test.
pub fn nth_u64(s: &[u8], i: usize) -> u64
    ensures { result ≡ u64_at s.now (8 * i) }
{
    if i >= s.len() / 8 {
        return 0;
    }
    let at = 8 * i;
    let end = at + 8;
    u64_at(&s[at..end], 0)
}

// The same of numbers of four bytes.
pub fn nth_u32(s: &[u8], i: usize) -> u32
    ensures { result ≡ u32_at s.now (4 * i) }
{
    if i >= s.len() / 4 {
        return 0;
    }
    let at = 4 * i;
    let end = at + 4;
    u32_at(&s[at..end], 0)
}

// A number of eight bytes in place i of a list of such; where the list does not have the place, nothing is written.
pub fn put_nth_u64(out: &mut [u8], i: usize, n: u64)
    ensures { out.new ≡ with_nth64 out.old i n }
{
    if i >= out.len() / 8 {
        return;
    }
    let at = 8 * i;
    let end = at + 8;
    put_u64(&mut out[at..end], n);
}

// The same of a number of four bytes.
pub fn put_nth_u32(out: &mut [u8], i: usize, n: u32)
    ensures { out.new ≡ with_nth32 out.old i n }
{
    if i >= out.len() / 4 {
        return;
    }
    let at = 4 * i;
    let end = at + 4;
    put_u32(&mut out[at..end], n);
}

// The pattern of a signed number in two's complement.
// kept: this and the next two by name, public functions whose promises are the definitions that other crates cite: std's casts promise it in other words, and
// each caller would prove again that they mean the same.
#[tactic(auto, using(crate::proofs::little_endian::Signed::of_number))]
pub fn pattern_of_i64(n: i64) -> u64
    ensures { result ≡ pattern_of n }
{
    n.cast_unsigned()
}

// The signed number of a pattern in two's complement.
#[tactic(auto, using(crate::proofs::little_endian::Signed::of_pattern))]
pub fn i64_of_pattern(n: u64) -> i64
    ensures { result ≡ signed_of n }
{
    n.cast_signed()
}

// The same with 32 bits.
#[tactic(auto, using(crate::proofs::little_endian::Signed32::of_pattern_32))]
pub fn i32_of_pattern(n: u32) -> i32
    ensures { result ≡ signed32 n }
{
    n.cast_signed()
}

// The signed number in the four bytes from `at` on; 0 where they are not all there.
pub fn i32_at(s: &[u8], at: usize) -> i32
    ensures { result ≡ i32_at s.now at }
{
    i32_of_pattern(u32_at(s, at))
}
