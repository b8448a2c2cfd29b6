// Runs the call `judge` on worked cases and at the limits of what is lent.
#![tactic(auto)]

mod judging;

fn main(rt: HostRuntime) -> anyhow::Result<()> {
    judging::show_judging(&rt)
}
