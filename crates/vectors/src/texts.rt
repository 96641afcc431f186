#[cfg(test)]
mod tests {
    use base::registration_number::RegistrationNumberFault;
    use base::{Hex, Refusal};
    use kinds::ImageFault;
    use order::OrderFault;
    use reading::ReadFault;
    use rig::RigFault;
    use rom_search::SearchFault;
    use samples::fault::SampleFault;
    use samples::numbers::gearbox_number;
    use std::test::Fail;
    use wire::{ExchangeError, ExchangeFault};

    #[test]
    fn bytes_in_hex(rt: HostRuntime) -> Result<(), Fail> {
        let texts: [(&[u8], &str); 5] = [
            (&[], ""),
            (&[0x07], "07"),
            (&[0xAB, 0xCD], "AB CD"),
            (&[0xEF, 0x00], "EF 00"),
            (&[0x12, 0x34, 0x56, 0x78, 0x90], "12 34 56 78 90"),
        ];
        for (bytes, text) in texts {
            assert_eq!(rt; Hex(bytes).to_string(rt.alloc())?.as_str(), text);
        }
        Ok(())
    }

    #[test]
    fn numbers_in_hex(rt: HostRuntime) -> Result<(), Fail> {
        assert_eq!(rt;
            gearbox_number().to_string(rt.alloc())?.as_str(),
            "2D 47 36 00 00 00 01 61"
        );
        Ok(())
    }

    #[test]
    fn refusals(rt: HostRuntime) -> Result<(), Fail> {
        let texts = [
            (Refusal::WrongSum, "1, the check byte is wrong"),
            (
                Refusal::WrongLength,
                "2, the image is not of the kind's length",
            ),
            (Refusal::LineBusy, "3, a tag on the line is programming"),
            (Refusal::BadRow, "4, the row is not a multiple of 8"),
            (Refusal::NoPresence, "5, no tag answers the reset"),
            (
                Refusal::Garbled,
                "6, what came back is not what a tag sends",
            ),
            (
                Refusal::DataDiffer,
                "7, the scratchpad differs from the data sent",
            ),
            (
                Refusal::NotHeld,
                "8, the row found differs from the row ordered",
            ),
            (Refusal::NoPlace, "9, no place is left for a number"),
        ];
        for (refusal, text) in texts {
            assert_eq!(rt; refusal.to_string(rt.alloc())?.as_str(), text);
        }
        Ok(())
    }

    #[test]
    fn samples(rt: HostRuntime) -> Result<(), Fail> {
        assert_eq!(rt;
            SampleFault::NoNumber.to_string(rt.alloc())?.as_str(),
            "no number"
        );
        assert_eq!(rt;
            SampleFault::NoTag.to_string(rt.alloc())?.as_str(),
            "no tag"
        );
        Ok(())
    }

    #[test]
    fn makings(rt: HostRuntime) -> Result<(), Fail> {
        assert_eq!(rt;
            RegistrationNumberFault::WrongSum
                .to_string(rt.alloc())?
                .as_str(),
            "1, the check byte is wrong"
        );
        assert_eq!(rt;
            ImageFault::WrongLength.to_string(rt.alloc())?.as_str(),
            "2, the image is not of the kind's length"
        );
        Ok(())
    }

    // A fault that does not know its job.
    #[test]
    fn exchanges(rt: HostRuntime) -> Result<(), Fail> {
        assert_eq!(rt;
            RigFault::LineBusy { steps: 1 }
                .to_string(rt.alloc())?
                .as_str(),
            "3, a tag on the line is programming; after 1 step"
        );
        assert_eq!(rt;
            ExchangeError::NoPresence.to_string(rt.alloc())?.as_str(),
            "5, no tag answers the reset"
        );
        assert_eq!(rt;
            failed(2, 362).to_string(rt.alloc())?.as_str(),
            "6, what came back is not what a tag sends; after 362 steps"
        );
        assert_eq!(rt;
            busy(0).to_string(rt.alloc())?.as_str(),
            "3, a tag on the line is programming; before any step"
        );
        Ok(())
    }

    fn failed(exchange: u8, steps: u32) -> ExchangeFault {
        ExchangeFault::Failed {
            error: ExchangeError::Garbled,
            exchange,
            steps,
        }
    }

    fn busy(steps: u32) -> ExchangeFault {
        ExchangeFault::Rig(RigFault::LineBusy { steps })
    }

    #[test]
    fn readings(rt: HostRuntime) -> Result<(), Fail> {
        let texts = [
            (
                ReadFault::BadRow,
                "4, the row is not a multiple of 8; before any step",
            ),
            (
                ReadFault::Exchange(busy(0)),
                "3, a tag on the line is programming; before any step",
            ),
            (
                ReadFault::Exchange(failed(1, 105)),
                "6, what came back is not what a tag sends; in exchange 1, read scratchpad, after 105 steps",
            ),
            (
                ReadFault::Exchange(failed(2, 106)),
                "6, what came back is not what a tag sends; in exchange 2, read memory, after 106 steps",
            ),
            (
                ReadFault::Exchange(failed(3, 267)),
                "6, what came back is not what a tag sends; in exchange 3, closing reset, after 267 steps",
            ),
        ];
        for (fault, text) in texts {
            assert_eq!(rt; fault.to_string(rt.alloc())?.as_str(), text);
        }
        Ok(())
    }

    #[test]
    fn searches(rt: HostRuntime) -> Result<(), Fail> {
        let texts = [
            (
                SearchFault::NoPlace,
                "9, no place is left for a number; before any step",
            ),
            (
                SearchFault::Full {
                    passes: 1,
                    steps: 201,
                },
                "9, no place is left for a number; in pass 1, after 201 steps",
            ),
            (
                SearchFault::Exchange(failed(2, 302)),
                "6, what came back is not what a tag sends; in pass 2, after 302 steps",
            ),
        ];
        for (fault, text) in texts {
            assert_eq!(rt; fault.to_string(rt.alloc())?.as_str(), text);
        }
        Ok(())
    }

    #[test]
    fn orders(rt: HostRuntime) -> Result<(), Fail> {
        let texts = [
            (
                OrderFault::BadRow,
                "4, the row is not a multiple of 8; before any step",
            ),
            (
                OrderFault::Exchange(failed(1, 177)),
                "6, what came back is not what a tag sends; in exchange 1, write scratchpad, after 177 steps",
            ),
            (
                OrderFault::Differs {
                    index: 7,
                    steps: 362,
                },
                "7, the scratchpad differs from the data sent; in exchange 2, read scratchpad, after 362 steps; first difference at index 7",
            ),
            (
                OrderFault::Exchange(failed(3, 468)),
                "6, what came back is not what a tag sends; in exchange 3, copy scratchpad, after 468 steps",
            ),
            (
                OrderFault::Exchange(failed(4, 477)),
                "6, what came back is not what a tag sends; in exchange 4, read memory, after 477 steps",
            ),
            (
                OrderFault::NotHeld {
                    index: 0,
                    steps: 638,
                },
                "8, the row found differs from the row ordered; in exchange 5, closing reset, after 638 steps; first difference at index 0",
            ),
        ];
        for (fault, text) in texts {
            assert_eq!(rt; fault.to_string(rt.alloc())?.as_str(), text);
        }
        Ok(())
    }
}
