#![tactic(auto)]

use letters::stream::answer_all;
use rig::Rig;
use samples::numbers::plug_number;
use samples::plugs::Plug;
use samples::tags::tag_of;

// A practice plug on a rig, and the runtime that brings letters and takes answers.
// A struct, so that the loop runs in a method: where `main` lends a rig of its own, a letter takes a tenth more instructions.
#[derive(Drop)]
struct Session<'a> {
    rt: &'a HostRuntime,
    rig: Rig<Plug>,
}

// Plays a practice plug of 64 zero bytes.
fn main(rt: HostRuntime) -> anyhow::Result<()> {
    let rig = Rig::new(tag_of(plug_number(), &[0; 64])?);
    let mut session = Session { rt: &rt, rig };
    session.run()
}

impl Session<'_> {
    fn run(&mut self) -> anyhow::Result<()> {
        let mut source = self.rt.stdin();
        let mut sink = self.rt.stdout();
        Ok(answer_all(&mut self.rig, &mut source, &mut sink)?)
    }
}
