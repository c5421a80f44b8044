// Announced leap rows that are read from a text, as the table that other calls are lent.
ghost use Rattle.std.specs.Prelude.{◌≡◌};
ghost use Rattle.leap_lists.specs.Reading.{read_of};
ghost use Rattle.capi.specs.ListDelivery.{fault_line, TableRead};

#[unsafe(no_mangle)]
pub extern "C" fn ct_read_table(text: &[u8], table: &mut [u8], known: &mut [u8]) -> i64
    ensures { TableRead (read_of text.now) table.old known.old result table.new known.new }
{
    capi::list_calls::ct_read_table(text, table, known)
}

#[unsafe(no_mangle)]
pub extern "C" fn ct_table_fault(text: &[u8]) -> i64
    ensures { result ≡ fault_line (read_of text.now) }
{
    capi::list_calls::ct_table_fault(text)
}
