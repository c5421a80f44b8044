// Text that others wrote, read: its six fields, and of UTC text the date too.
ghost use Rattle.std.specs.Prelude.{false};
ghost use Rattle.refusals.specs.Outcome.{onward};
ghost use Rattle.parsing.specs.Parsed.{parsed, parsed_utc};
ghost use Rattle.c_answers.specs.table.TableBytes.{table_bytes};
ghost use Rattle.c_answers.specs.Delivery.{in_bytes, Delivered};
ghost use Rattle.capi.specs.ReaderFields.{parsed_bytes, parsed_utc_bytes};

#[unsafe(no_mangle)]
pub extern "C" fn ct_parse_iso8601(text: &[u8], out: &mut [u8]) -> i64
    ensures { Delivered (in_bytes parsed_bytes (parsed false text.now)) out.old result out.new }
{
    capi::reader_calls::ct_parse_iso8601(text, out)
}

#[unsafe(no_mangle)]
pub extern "C" fn ct_utc_from_iso8601(text: &[u8], table: &[u8], out: &mut [u8]) -> i64
    ensures { Delivered (in_bytes parsed_utc_bytes (onward (table_bytes table.now) (λ rows. parsed_utc rows text.now)))
        out.old result out.new }
{
    capi::reader_calls::ct_utc_from_iso8601(text, table, out)
}
