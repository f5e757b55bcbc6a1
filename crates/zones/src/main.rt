// Reads a zone plan from standard input and prints one line a zone, "mode cell slots mask" in base ten,
// or "refused N". At most 128 bytes of the input are read: they decide the answer (`first_128_decide` of
// plan's law), and an accepted plan has at most 51.
#![tactic(auto)]

use plan::Plan;
use refusal::Refusal;
use std::io;

fn main(rt: HostRuntime) -> io::Result<()> {
    let mut input = [0u8; 128];
    let n = reading::read_full(&mut rt.stdin(), &mut input)?;
    print(&rt, plan_read::read(&input[..n]))
}

fn print(rt: &impl Print, answer: Result<Plan, Refusal>) -> io::Result<()> {
    let mut out = [0u8; 672];
    let end = plan_text::lines(answer, &mut out);
    rt.write_all(&out[..end])
}
