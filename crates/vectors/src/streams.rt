#[cfg(test)]
mod tests {
    use kinds::PracticePlug;
    use letters::stream::answer_all;
    use rig::Rig;
    use samples::numbers::plug_number;
    use samples::plugs::Plug;
    use samples::tags::tag_of;
    use std::io;
    use std::io::{ErrorKind, Read, Write};
    use std::test::Fail;

    const LETTERS: &[u8] = b"R1PR1100110011";

    // Gives at most so many bytes at a read.
    #[derive(Drop)]
    struct Drip<'a> {
        left: &'a [u8],
        most: usize,
    }

    impl Read for Drip<'_> {
        fn read(&mut self, buf: &mut [u8]) -> io::Result<usize> {
            let most = buf.len().min(self.most);
            self.left.read(&mut buf[..most])
        }
    }

    // Fails at every read.
    #[derive(Drop)]
    struct Broken;

    impl Read for Broken {
        fn read(&mut self, _buf: &mut [u8]) -> io::Result<usize> {
            Err(io::Error::from(ErrorKind::BrokenPipe))
        }
    }

    // Takes every byte, and counts how often it is flushed.
    #[derive(Drop)]
    struct Flushed {
        times: usize,
    }

    impl Write for Flushed {
        fn write(&mut self, buf: &[u8]) -> io::Result<usize> {
            Ok(buf.len())
        }

        fn flush(&mut self) -> io::Result<()> {
            self.times = self.times.saturating_add(1);
            Ok(())
        }
    }

    // Answers letters on a plug of 64 zero bytes.
    fn answer<R: Read, W: Write>(mut source: R, sink: &mut W) -> anyhow::Result<()>
    where
        R: Drop,
    {
        let plug: Plug = tag_of::<PracticePlug>(plug_number(), &[0; 64])?;
        answer_all(&mut Rig::new(plug), &mut source, sink)?;
        Ok(())
    }

    // A read that gives less than there is room for is not the end.
    #[test]
    fn short_reads(rt: HostRuntime) -> Result<(), Fail> {
        for most in [1, 3, 13, 14, 15] {
            let mut output = Vec::new(rt.alloc());
            answer(
                Drip {
                    left: LETTERS,
                    most,
                },
                &mut output,
            )?;
            assert_eq!(rt;
                output.as_slice(),
                b"-1.p1100110000\n".as_slice(),
                "{most} at a read"
            );
        }
        Ok(())
    }

    // What has arrived is answered before more is waited for: each letter by itself, and the newline.
    #[test]
    fn answered_at_once(rt: HostRuntime) -> Result<(), Fail> {
        let mut output = Flushed { times: 0 };
        answer(
            Drip {
                left: LETTERS,
                most: 1,
            },
            &mut output,
        )?;
        assert_eq!(rt; output.times, 15);
        Ok(())
    }

    // What was answered before a read or a write failed stays, and the failure is told.
    #[test]
    fn failures(rt: HostRuntime) {
        let mut output = Vec::new(rt.alloc());
        assert!(rt; answer(LETTERS.chain(Broken), &mut output).is_err());
        assert_eq!(rt; output.as_slice(), b"-1.p1100110000".as_slice());
        let mut places = [0; 5];
        assert!(rt; answer(LETTERS, &mut places.as_mut_slice()).is_err());
        assert!(rt; places == *b"-1.p1");
    }
}
