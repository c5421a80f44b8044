// The stamp block: how many stamps it has, and its listing in parts.
ghost use Rattle.std.specs.Prelude.{◌≡◌, length};
ghost use Rattle.stamps.specs.Block.{block_of};
ghost use Rattle.c_answers.specs.Delivery.{code, Delivered};
ghost use Rattle.capi.specs.ListingPart.{first_listing, second_listing};

#[unsafe(no_mangle)]
pub extern "C" fn ct_block_stamps(block: &[u8]) -> i64
    ensures { result ≡ code (block_of block.now) }
{
    capi::block_calls::ct_block_stamps(block)
}

#[unsafe(no_mangle)]
pub extern "C" fn ct_listing_part(block: &[u8], line: u32, table: &[u8], out: &mut [u8]) -> i64
    ensures { Delivered (first_listing table.now block.now line (length out.old)) out.old result
        out.new }
{
    capi::block_calls::ct_listing_part(block, line, table, out)
}

#[unsafe(no_mangle)]
pub extern "C" fn ct_reason_listing_part(
    block: &[u8],
    input_len: u64,
    line: u32,
    table: &[u8],
    out: &mut [u8],
) -> i64
    ensures { Delivered (second_listing input_len table.now block.now line (length out.old)) out.old result
        out.new }
{
    capi::block_calls::ct_reason_listing_part(block, input_len, line, table, out)
}
