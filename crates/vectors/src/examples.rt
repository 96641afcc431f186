#[cfg(test)]
mod tests {
    use base::crc::{crc8, crc16};
    use kinds::{Kind, PracticePlug, SealedTag};
    use letters::script::play_letters;
    use rig::Rig;
    use samples::fault::SampleFault;
    use samples::numbers::{number_of, plug_number};
    use samples::tags::tag_of;
    use std::test::Fail;

    // The published check values of CRC-8/MAXIM-DOW and CRC-16/ARC, and a worked registration number.
    #[test]
    fn published_sums(rt: HostRuntime) {
        assert_eq!(rt; crc8(b"123456789"), 0xA1);
        assert_eq!(rt; crc16(b"123456789"), 0xBB3D);
        assert_eq!(rt; crc8(&[0x02, 0x1C, 0xB8, 0x01, 0x00, 0x00, 0x00]), 0xA2);
    }

    #[test]
    fn numbers(rt: HostRuntime) {
        assert!(rt; number_of(0xA200_0000_01B8_1C02).is_ok());
    }

    // Page 1 write-protected, page 2 in EPROM mode, nothing locked by 84h.
    #[test]
    fn sealed_rules(rt: HostRuntime) -> Result<(), Fail> {
        let mut image = [0x3C; 136];
        image[0x81] = 0x55;
        image[0x82] = 0xAA;
        image[0x84] = 0x00;
        let Ok(tag) = SealedTag::from_image(&image) else {
            return Err(Fail::new("no tag"));
        };
        assert_eq!(rt; tag.load(0x00, 0xF0), 0xF0);
        assert_eq!(rt; tag.load(0x20, 0xF0), 0x3C);
        assert_eq!(rt; tag.load(0x40, 0xF0), 0x30);
        assert_eq!(rt; tag.load(0x81, 0x00), 0x55);
        assert_eq!(rt; tag.load(0x85, 0x00), 0x3C);
        assert_eq!(rt; tag.load(0x86, 0x00), 0x00);
        assert!(rt; tag.may_copy(0x80));
        assert!(rt; tag.may_copy(0x20));
        assert!(rt; !tag.may_copy(0x88));
        assert_eq!(rt; tag.read(0x88), 0xFF);
        Ok(())
    }

    // Plays letters on a tag of any kind.
    fn play<K: Kind + Drop>(
        image: &[u8],
        letters: &[u8],
        output: &mut [u8],
    ) -> Result<usize, SampleFault> {
        let mut rig = Rig::new(tag_of::<K>(plug_number(), image)?);
        Ok(play_letters(&mut rig, letters, output))
    }

    #[test]
    fn script_example(rt: HostRuntime) -> Result<(), SampleFault> {
        assert!(rt; tag_of::<PracticePlug>(plug_number(), &[0; 63]).is_err());
        let mut output = [0; 14];
        let count = play::<PracticePlug>(&[0; 64], b"R1PR1100110011", &mut output)?;
        assert_eq!(rt; count, 14);
        assert!(rt; output == *b"-1.p1100110000");
        Ok(())
    }
}
