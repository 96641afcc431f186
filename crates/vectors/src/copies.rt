#[cfg(test)]
mod tests {
    use anyhow::Context;
    use chip::rom_phase::RomPhase;
    use line::tag_making::make_tag;
    use memory::memory_phase::{Await, Phase};
    use memory::registers::Registers;
    use rig::Rig;
    use samples::numbers::plug_number;
    use samples::plugs::Plug;

    fn status(registers: Registers) -> u8 {
        registers.status()
    }

    fn is_idle(phase: Phase) -> bool {
        matches!(phase, Phase::Idle)
    }

    fn is_command(awaited: Await) -> bool {
        matches!(awaited, Await::Command)
    }

    fn is_selected(phase: RomPhase) -> bool {
        matches!(phase, RomPhase::Selected)
    }

    // What a chip and its memory are made of can be passed by value, and used again.
    #[test]
    fn copied(rt: HostRuntime) {
        let registers = Registers::fresh();
        assert_eq!(rt; status(registers), status(registers));
        let phase = Phase::SendOnes;
        assert_eq!(rt; is_idle(phase), is_idle(phase));
        let awaited = Await::Command;
        assert_eq!(rt; is_command(awaited), is_command(awaited));
        let phase = RomPhase::Selected;
        assert_eq!(rt; is_selected(phase), is_selected(phase));
    }

    // A tag of one type, handed out beside any error.
    fn plug() -> anyhow::Result<Plug> {
        let mut place = None;
        make_tag(&mut place, plug_number(), &[0; 64])?;
        place.context("no tag")
    }

    // A rig over such a tag can be lent where it is made.
    #[test]
    fn lent(rt: HostRuntime) -> anyhow::Result<()> {
        let mut rig = Rig::new(plug()?);
        rig.power_up();
        assert!(rt; rig.reset()?);
        Ok(())
    }
}
