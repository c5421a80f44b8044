// The scale conversions that read no table.
use crate::tally::{DAY, Tally, near_call};
use capi::scale_calls;

pub(crate) fn checked(t: Tally) -> Tally {
    let t = near_call(t, 16, 0.892855139, |out| {
        scale_calls::ct_tai_to_tt(DAY, 0.892482639, out)
    });
    let t = near_call(t, 16, 0.892110139, |out| {
        scale_calls::ct_tt_to_tai(DAY, 0.892482639, out)
    });
    let t = near_call(t, 16, 0.8921045614537037037, |out| {
        scale_calls::ct_tai_to_ut1_with_offset(DAY, 0.892482639, -32.6659, out)
    });
    let t = near_call(t, 16, 0.8924826385462962963, |out| {
        scale_calls::ct_ut1_to_tai_with_offset(DAY, 0.892104561, -32.6659, out)
    });
    let t = near_call(t, 16, 0.8921045614537037037, |out| {
        scale_calls::ct_tt_to_ut1_with_delta_t(DAY, 0.892855139, 64.8499, out)
    });
    let t = near_call(t, 16, 0.8928551385462962963, |out| {
        scale_calls::ct_ut1_to_tt_with_delta_t(DAY, 0.892104561, 64.8499, out)
    });
    let t = near_call(t, 16, 0.8924900312508587113, |out| {
        scale_calls::ct_tt_to_tcg(DAY, 0.892482639, out)
    });
    let t = near_call(t, 16, 0.8928551387488816828, |out| {
        scale_calls::ct_tcg_to_tt(DAY, 0.892862531, out)
    });
    let t = near_call(t, 16, 0.8928551362746343397, |out| {
        scale_calls::ct_tcb_to_tdb(DAY, 0.893019599, out)
    });
    let t = near_call(t, 16, 0.8930195997253656716, |out| {
        scale_calls::ct_tdb_to_tcb(DAY, 0.892855137, out)
    });
    let t = near_call(t, 16, 0.8928551366736111111, |out| {
        scale_calls::ct_tt_to_tdb_with_offset(DAY, 0.892855139, -0.000201, out)
    });
    near_call(t, 16, 0.8928551393263888889, |out| {
        scale_calls::ct_tdb_to_tt_with_offset(DAY, 0.892855137, -0.000201, out)
    })
}
