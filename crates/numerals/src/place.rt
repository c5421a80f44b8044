// Bytes placed into a lent slice from an index on. The answer is the index after what was written.
ghost use Rattle.numerals.specs.digits.Placed.{Placing, Copying};

// The bytes of `src` at the start of `dst`; what is behind them stays. The answer is how many they are. Where they do not all fit, nothing is written, and the
// answer is 0.
pub fn copy(src: &[u8], dst: &mut [u8]) -> usize
    ensures { Copying src.now dst.old result dst.new }
{
    if src.len() > dst.len() {
        return 0;
    }
    dst[..src.len()].copy_from_slice(src);
    src.len()
}

// Where the bytes do not all fit behind the index, nothing is written, and the answer is the index itself.
#[tactic(auto, using(crate::proofs::digits::Places::copied_behind))]
pub fn place_bytes(src: &[u8], dst: &mut [u8], at: usize) -> usize
    ensures { Placing dst.old at src.now result dst.new }
{
    if at > dst.len() {
        return at;
    }
    at + copy(src, &mut dst[at..])
}
