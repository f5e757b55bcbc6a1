// The C calls over zone plans. Each returns 0, or document 01's refusal number; on a refusal nothing is written.
#![tactic(auto)]

ghost use Rattle.std.specs.Prelude.{◌≡◌};
ghost use Rattle.plan_read.specs.Read.{plan_of};
ghost use Rattle.plan_write.specs.Write.{write_of};
ghost use Rattle.plan_numbers.specs.Numbers.{plan_in};
ghost use Rattle.capi_plan.specs.Plan.{ReadOut, read_out, WriteOut, write_out};

#[unsafe(no_mangle)]
pub extern "C" fn bp_zone_plan_read(
    bytes: &[u8],
    count: &mut u32,
    size: &mut u32,
    zones: &mut [u32; 32],
) -> u32
    ensures { record { refusal = result; count = count.new; size = size.new; zones = zones.new } ≡ read_out (plan_of bytes.now) count.old size.old zones.old }
{
    match plan_read::read(bytes) {
        Ok(plan) => {
            *count = plan.count as u32;
            *size = plan.size as u32;
            *zones = plan_numbers::numbers(plan.zones);
            0
        }
        Err(refusal) => u32::from(refusal),
    }
}

#[unsafe(no_mangle)]
pub extern "C" fn bp_zone_plan_write(
    count: u32,
    size: u32,
    zones: &[u32; 32],
    dest: &mut [u8],
    written: &mut u32,
) -> u32
    ensures { record { refusal = result; written = written.new; dest = dest.new } ≡ write_out (write_of (plan_in count size zones.now) dest.old) written.old }
{
    let plan = plan_numbers::plan_in(count, size, zones);
    match plan_write::write(plan, dest) {
        Ok(n) => {
            *written = n as u32;
            0
        }
        Err(refusal) => u32::from(refusal),
    }
}
