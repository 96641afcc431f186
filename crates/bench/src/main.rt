#![tactic(auto)]

mod answer_text;
mod by_pulses;
mod call_text;
mod calls;
mod counted;
mod crowd;
mod edge_orders;
mod expected;
mod found;
mod gearbox;
mod making;
mod pair;
mod pulses;
mod report;
mod session;

use report::Report;

// Runs whole tasks and their edge cases on tags played in software, and says in plain words what was asked, answered and accomplished.
fn main(rt: HostRuntime) -> anyhow::Result<()> {
    let report = Report::open(&rt)?;
    let report = making::run(report)?;
    let report = gearbox::run(report)?;
    let report = by_pulses::run(report)?;
    let report = edge_orders::run(report)?;
    let report = pair::run(report)?;
    let report = crowd::run(report)?;
    report.sum_up()?;
    Ok(())
}
