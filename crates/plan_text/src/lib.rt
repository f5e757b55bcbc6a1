// A plan as text: one line a zone, "mode cell slots mask" in base ten, or the line "refused N".
#![tactic(auto)]

ghost use Rattle.std.specs.Prelude.{◌+◌, ◌≤◌, length};
ghost use Rattle.text.specs.Text.{Put};
ghost use Rattle.plan.specs.Plan.{used_zones};
ghost use Rattle.plan_text.specs.Lines.{field, line_of, lines_of, refusal_line, text_of};

use plan::Plan;
use refusal::Refusal;
use zone::Zone;

// Puts a number in base ten and one byte behind it, 21 bytes at most.
fn put_field(dest: &mut [u8], at: usize, x: usize, mark: u8) -> usize
    requires { at + 21 ≤ length dest.old }
    ensures { (Put dest.old at (field x mark) result dest.new) × (result ≤ at + 21) }
{
    let next = text::put_number(dest, at, x);
    text::put_byte(dest, next, mark)
}

// Puts the line of a zone, 84 bytes at most.
fn put_line(dest: &mut [u8], at: usize, zone: Zone) -> usize
    requires { at + 84 ≤ length dest.old }
    ensures { (Put dest.old at (line_of zone) result dest.new) × (result ≤ at + 84) }
{
    let after_mode = put_field(dest, at, zone.mode, b' ');
    let after_cell = put_field(dest, after_mode, zone.cell, b' ');
    let after_slots = put_field(dest, after_cell, zone.slots, b' ');
    put_field(dest, after_slots, zone.mask, b'\n')
}

// Puts a line for each zone of the plan, whose count is not asked here: it may be above the eight places.
fn put_zones(dest: &mut [u8], plan: Plan) -> usize
    requires { 672 ≤ length dest.old }
    ensures { Put dest.old 0 (lines_of (used_zones plan)) result dest.new }
{
    let mut at = 0;
    for k in 0..8 {
        if plan.count <= k {
            return at;
        }
        at = put_line(dest, at, plan.zones[k]);
    }
    at
}

// Puts the line of a refusal's number, whichever it is; answers its length.
pub fn put_refusal(dest: &mut [u8], number: u32) -> usize
    requires { 672 ≤ length dest.old }
    ensures { Put dest.old 0 (refusal_line number) result dest.new }
{
    let at = text::put_bytes(dest, 0, b"refused ");
    put_field(dest, at, number as usize, b'\n')
}

// Puts the text of what reading a plan answers, where eight lines of 84 bytes have room; answers its length.
pub fn lines(answer: Result<Plan, Refusal>, dest: &mut [u8]) -> usize
    requires { 672 ≤ length dest.old }
    ensures { Put dest.old 0 (text_of answer) result dest.new }
{
    match answer {
        Ok(plan) => put_zones(dest, plan),
        Err(refusal) => put_refusal(dest, u32::from(refusal)),
    }
}
