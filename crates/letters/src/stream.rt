ghost use Rattle.std.specs.Prelude.{◌≡◌, IfSome, OnOk, OnErr};
ghost use Rattle.std.specs.Io.KnownBytes.{Appends};
ghost use Rattle.rig.specs.RigModel.{rig_of};
ghost use Rattle.letters.specs.Letters.{script_all};
ghost use Rattle.letters.specs.Stream.{answers_to, AnswersAll, AnswersFront, WritesFront};

use crate::script::play_letters;
use line::Line;
use rig::Rig;
use std::io;
use std::io::{ErrorKind, Read, Write};

// Answers letters until their reader ends, and then writes a newline. What has arrived is answered before more is waited for.
// It gives up after 2^64 - 1 reads.
pub fn answer_all<L: Line, R: Read, W: Write>(
    rig: &mut Rig<L>,
    source: &mut R,
    sink: &mut W,
) -> io::Result<()>
    // Where the letters are known.
    ensures rig { OnOk result (IfSome (R.remaining source.old)
        (λ letters. rig_of L.chips rig.new ≡ (script_all letters (rig_of L.chips rig.old)).0)) }
    ensures written { OnOk result (IfSome (R.remaining source.old)
        (λ letters. Appends (W.contents sink.old) (W.contents sink.new)
        (answers_to letters (rig_of L.chips rig.old)))) }

    // At any reader and writer.
    ensures ok { OnOk result (AnswersAll (R.remaining source.old) (R.remaining source.new)
        (rig_of L.chips rig.old) (rig_of L.chips rig.new)
        (W.contents sink.old) (W.contents sink.new)) }
    ensures err { OnErr result (AnswersFront (R.remaining source.old) (R.remaining source.new)
        (rig_of L.chips rig.old) (rig_of L.chips rig.new)
        (W.contents sink.old) (W.contents sink.new)) }
{
    // `read` fills the front of a buffer and says how much of it.
    let mut input = [0u8; 4096];
    let mut output = [0u8; 4096];
    // Counted, since every loop must be seen to end.
    for _ in 0..u64::MAX {
        let arrived = source.read(&mut input)?;
        if arrived == 0 {
            return write_out(sink, b"\n");
        }
        let answered = play_letters(rig, &input[..arrived], &mut output);
        write_out(sink, &output[..answered])?;
    }
    Err(io::Error::from(ErrorKind::TimedOut))
}

// Writes bytes and flushes. As `write_all` does, but of a failure it says that the first bytes are written.
fn write_out<W: Write>(sink: &mut W, bytes: &[u8]) -> io::Result<()>
    ensures ok { OnOk result (Appends (W.contents sink.old) (W.contents sink.new) bytes.now) }
    ensures err { OnErr result (WritesFront (W.contents sink.old) (W.contents sink.new) bytes.now) }
{
    let mut written = 0;
    for _ in 0..u64::MAX {
        if written == bytes.len() {
            return sink.flush();
        }
        match sink.write(&bytes[written..]) {
            Ok(0) => return Err(io::Error::from(ErrorKind::WriteZero)),
            Ok(n) => written += n,
            Err(e) if e.kind() == ErrorKind::Interrupted => {}
            Err(e) => return Err(e),
        }
    }
    Err(io::Error::from(ErrorKind::TimedOut))
}
