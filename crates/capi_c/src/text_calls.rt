// UTC as text by each of the three forms of text, with the rule of its day in a buffer of its own where one is lent.
ghost use Rattle.std.specs.Prelude.{length};
ghost use Rattle.refusals.specs.Outcome.{onward};
ghost use Rattle.julian.specs.JulianDate.{julian};
ghost use Rattle.utc.specs.iso_texts.ByRule.{iso_text_by_rule, half_even_by_rule, expanded_by_rule};
ghost use Rattle.c_answers.specs.table.TableBytes.{table_bytes};
ghost use Rattle.c_answers.specs.TwoBuffers.{DeliveredTwo};
ghost use Rattle.capi.specs.TextRule.{ruled};

#[unsafe(no_mangle)]
pub extern "C" fn ct_to_iso8601(
    jd1: f64,
    jd2: f64,
    table: &[u8],
    out: &mut [u8],
    rule: &mut [u8],
) -> i64
    ensures { DeliveredTwo
        (ruled (length rule.old) (onward (table_bytes table.now) (λ rows. iso_text_by_rule rows (julian jd1 jd2)))) out.old
        rule.old result out.new rule.new }
{
    capi::text_calls::ct_to_iso8601(jd1, jd2, table, out, rule)
}

#[unsafe(no_mangle)]
pub extern "C" fn ct_to_iso8601_half_even(
    jd1: f64,
    jd2: f64,
    table: &[u8],
    out: &mut [u8],
    rule: &mut [u8],
) -> i64
    ensures { DeliveredTwo
        (ruled (length rule.old) (onward (table_bytes table.now) (λ rows. half_even_by_rule rows (julian jd1 jd2)))) out.old
        rule.old result out.new rule.new }
{
    capi::text_calls::ct_to_iso8601_half_even(jd1, jd2, table, out, rule)
}

#[unsafe(no_mangle)]
pub extern "C" fn ct_to_iso8601_expanded(
    jd1: f64,
    jd2: f64,
    table: &[u8],
    out: &mut [u8],
    rule: &mut [u8],
) -> i64
    ensures { DeliveredTwo
        (ruled (length rule.old) (onward (table_bytes table.now) (λ rows. expanded_by_rule rows (julian jd1 jd2)))) out.old
        rule.old result out.new rule.new }
{
    capi::text_calls::ct_to_iso8601_expanded(jd1, jd2, table, out, rule)
}
