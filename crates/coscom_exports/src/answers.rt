// The one number that every exported function answers, in the layout of `exports`. The letter of a header stands where a
// frame's kind does, and its two digits where a frame's addresses do.
ghost use Rattle.answer.specs.Draft.{written_means};
ghost use Rattle.coscom.specs.Answers.{read_means};
ghost use Rattle.coscom_line.specs.Outcome.{told_means};
ghost use Rattle.exports.specs.Packed.{Tells};
ghost use Rattle.exports.specs.Answers.{write_fields, WriteShort};
ghost use Rattle.coscom_exports.specs.Answers.{packet_fields, line_fields, UnitShort, ToldShort};

use answer::Refusal;
use coscom::Outline;
use coscom_line::Told;
use exports::packed;

// No letter, and no digit.
const NONE: u8 = 0;

// Stays beside that of `exports`, which is not public: it asks for a length that fits, and no public function asks.
pub(crate) fn of_written(written: Result<usize, Refusal>) -> u64
    requires { WriteShort (written_means written) }
    ensures { Tells result (write_fields (written_means written)) }
{
    match written {
        Ok(n) => packed::result(NONE, NONE, NONE, n as u32),
        Err(why) => packed::refused(why),
    }
}

pub(crate) fn of_read(read: Result<Outline, Refusal>) -> u64
    requires { UnitShort (read_means read) }
    ensures { Tells result (packet_fields (read_means read)) }
{
    match read {
        Ok(Outline { header, len }) => {
            packed::result(header.letter, header.tens, header.ones, len as u32)
        }
        Err(why) => packed::refused(why),
    }
}

pub(crate) fn of_told(told: Told) -> u64
    requires { ToldShort (told_means told) }
    ensures { Tells result (line_fields (told_means told)) }
{
    match told {
        Some(read) => of_read(read),
        None => packed::result(NONE, NONE, NONE, 0),
    }
}
