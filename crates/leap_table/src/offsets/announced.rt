// The seconds of a row that a caller lends.
ghost use Rattle.std.specs.Prelude.{◌≡◌, ◌<◌};
ghost use Rattle.leap_table.specs.rows.Announced as L;
ghost use Rattle.leap_table.specs.offsets.Offset.{seconds_of};

use crate::rows::{AnnouncedRows, natural};

// The seconds of the row of place i.
pub(crate) fn seconds_at(table: &AnnouncedRows, i: usize) -> f64
    requires { i < 16 }
    ensures { result ≡ seconds_of (L.announced_row table.now i) }
{
    natural(table.seconds[i]) as f64
}
