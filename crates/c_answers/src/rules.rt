// The rule of an offset as bytes.
ghost use Rattle.std.specs.Prelude.{◌≡◌};
ghost use Rattle.refusals.specs.Outcome.{answer};
ghost use Rattle.c_answers.specs.Delivery.{Delivered};
ghost use Rattle.c_answers.specs.rules.RuleFields.{rule_number, row_pattern, rule_bytes, offset_rule_bytes, julian_rule_bytes};

use crate::fields::{put_float, put_julian, put_two_numbers};
use crate::refused;
use julian::JulianDate;
use leap_table::offsets::Rule;
use refusals::Refusal;

// kept: two functions and no `From`: these are numbers of the C interface, not what a rule is.
#[tactic(auto, unfolding(crate::specs::rules::RuleFields::rule_number))]
fn rule_number(rule: Rule) -> u32
    ensures { result ≡ rule_number rule }
{
    match rule {
        Rule::Absent => 0,
        Rule::Drifting(_) => 1,
        Rule::Whole(_) => 2,
    }
}

#[tactic(auto, unfolding(crate::specs::rules::RuleFields::row_pattern))]
fn row_pattern(rule: Rule) -> u32
    ensures { result ≡ row_pattern rule }
{
    match rule {
        Rule::Absent => 0xffff_ffff,
        Rule::Drifting(i) => i,
        Rule::Whole(i) => i,
    }
}

pub fn put_rule(rule: Rule, out: &mut [u8]) -> i64
    ensures { Delivered (answer (rule_bytes rule)) out.old result out.new }
{
    put_two_numbers(rule_number(rule), row_pattern(rule), out)
}

// kept: this and put_julian_by_rule: one body would take what puts the value as a closure, whose contract has more lines than the body.
pub fn put_offset_by_rule(seconds: f64, rule: Rule, out: &mut [u8]) -> i64
    ensures { Delivered (answer (offset_rule_bytes (seconds, rule))) out.old result out.new }
{
    if out.len() < 16 {
        return refused(Refusal::NoRoom);
    }
    put_float(seconds, out);
    put_rule(rule, &mut out[8..]);
    16
}

pub fn put_julian_by_rule(date: JulianDate, rule: Rule, out: &mut [u8]) -> i64
    ensures { Delivered (answer (julian_rule_bytes (date, rule))) out.old result out.new }
{
    if out.len() < 24 {
        return refused(Refusal::NoRoom);
    }
    put_julian(date, out);
    put_rule(rule, &mut out[16..]);
    24
}
