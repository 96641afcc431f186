ghost use Rattle.std.specs.Prelude.{◌≡◌, min, length, take, drop};
ghost use Rattle.rig.specs.RigModel.{rig_of, counting};
ghost use Rattle.history.specs.CallMeaning.{reply_of};
ghost use Rattle.letters.specs.Letters.{requested, printed, script, script_all, count_after, count_all};
ghost use Rattle.letters.specs.LetterMeaning.{event_of};

use history::playing::make_call;
use history::{Answer, Call};
use line::Line;
use rig::Rig;

// What a letter asks, or nothing.
pub fn event(letter: char) -> Option<Call>
    ensures { event_of result ≡ requested letter }
{
    match letter {
        'R' => Some(Call::Reset),
        '0' => Some(Call::Slot(false)),
        '1' => Some(Call::Slot(true)),
        'D' => Some(Call::Dwell),
        'C' => Some(Call::Cut(0)),
        'P' => Some(Call::PowerUp),
        _ => None,
    }
}

// What is printed for an answer; no letter asks for a job, so the answers of jobs have no letter.
pub fn print_of(answer: Answer) -> u8
    ensures { result ≡ printed (reply_of answer) }
{
    match answer {
        Answer::Presence(Ok(true)) => b'p',
        Answer::Presence(Ok(false)) => b'-',
        Answer::Bit(Ok(true)) => b'1',
        Answer::Bit(Ok(false)) => b'0',
        Answer::Done => b'.',
        Answer::Presence(Err(_)) | Answer::Bit(Err(_)) => b'!',
        Answer::Listed { .. } | Answer::Row(_) | Answer::Judged(_) => b'?',
    }
}

// Plays one letter, and gives what is printed for it.
pub fn play_letter<L: Line>(rig: &mut Rig<L>, letter: char) -> u8
    ensures told { (rig_of L.chips rig.new, result) ≡ script letter (rig_of L.chips rig.old) }
    ensures counted { (counting L.chips rig.new).steps ≡ count_after (requested letter) (rig_of L.chips rig.old) (counting L.chips rig.old).steps }
{
    match event(letter) {
        Some(call) => print_of(make_call(rig, call)),
        None => b'?',
    }
}

// Plays letters, as many as there are places for what is printed, and says how many; the places are lent, since nothing is allocated.
pub fn play_letters<L: Line>(rig: &mut Rig<L>, input: &[u8], output: &mut [u8]) -> usize
    ensures count { result ≡ min (length input.now) (length output.old) }
    ensures told { (rig_of L.chips rig.new, take result output.new) ≡ script_all (take result input.now) (rig_of L.chips rig.old) }
    ensures counted { (counting L.chips rig.new).steps ≡ count_all (take result input.now) (rig_of L.chips rig.old) (counting L.chips rig.old).steps }
    ensures later { drop result output.new ≡ drop result output.old }
{
    let count = input.len().min(output.len());
    for (i, letter) in input[..count].iter().enumerate() {
        output[i] = play_letter(rig, char::from(*letter));
    }
    count
}
