// Replies: the status byte, a reply and its items read, a reply written.
// Document 01, "Commands and replies".
#![tactic(auto)]

pub mod status;

ghost use Rattle.std.specs.Prelude.{◌≡◌, ◌<◌, length};
ghost use Rattle.answer.specs.Draft.{draft_answer, draft_out, written_means};
ghost use Rattle.command.specs.Answers.{found_means};
ghost use Rattle.command.specs.Parts.{IsData};
ghost use Rattle.reply.specs.Status.{status_means};
ghost use Rattle.reply.specs.Replies.{head_in, reply_in, reply_means, reply_answer, nth_item, status_draft, with_item};
ghost use Rattle.reply.specs.Replies.{item_draft};

use answer::Refusal;
use command::entries;
use command::entries::{Cursor, Entry};
use status::Status;

// Item bytes below this have a count: every one.
const COUNTED: usize = 0x100;

// Where the first item stands.
const ITEMS: usize = 1;

// The longest contents of a reply that is written.
const REPLY_LIMIT: usize = 117;

// A reply's status and the number of its items.
#[derive(Clone, Copy, Debug, PartialEq, Eq)]
pub struct Reply {
    pub status: Status,
    pub items: usize,
}

// Reads a reply. Refusals 4, 8 and 7.
pub fn read_reply(contents: &[u8]) -> Result<Reply, Refusal>
    ensures { reply_means result ≡ reply_answer (reply_in contents.now) }
{
    let status = head(contents)?;
    let items = entries::count(COUNTED, contents, Cursor { at: ITEMS })?;
    Ok(Reply { status, items })
}

// The n-th item of a reply. Refusals 4, 8, 7 and 15.
pub fn nth_item(contents: &[u8], n: usize) -> Result<Entry, Refusal>
    ensures { found_means result ≡ nth_item contents.now n }
{
    head(contents)?;
    entries::nth(COUNTED, contents, Cursor { at: ITEMS }, n)
}

// The data of the n-th item, as a part of the contents. Where `nth_item` refuses, it is the empty part at the
// beginning.
pub fn nth_item_data(contents: &[u8], n: usize) -> &[u8]
    ensures { IsData contents.entry result (nth_item contents.now n) }
{
    entries::found_part(contents, nth_item(contents, n))
}

// Writes a reply that is a status byte alone. Refusals 8 and 1.
pub fn write_status(byte: u8, out: &mut [u8]) -> Result<usize, Refusal>
    ensures value { written_means result ≡ draft_answer (status_draft byte) (length out.old) }
    ensures out_after { out.new ≡ draft_out (status_draft byte) out.old }
{
    Status::from_byte(byte)?;
    if out.is_empty() {
        return Err(Refusal::NoRoom);
    }
    out[0] = byte;
    Ok(1)
}

// Writes a reply from the contents of a reply so far and an item, which it puts last. Refusals 4, 8, 7, 2 and 1.
// The contract says that `byte` is below 256, because the proof that written items read back needs it.
pub fn write_item(prior: &[u8], byte: u8, body: &[u8], out: &mut [u8]) -> Result<usize, Refusal>
    ensures value { written_means result ≡ draft_answer (item_draft prior.now byte body.now)
        (length out.old) }
    ensures out_after { out.new ≡ draft_out (item_draft prior.now byte body.now)
        out.old }
    ensures byte_fits { byte < 256 }
{
    read_reply(prior)?;
    put_item(prior, byte, body, out)
}

// The status that contents begin with.
fn head(contents: &[u8]) -> Result<Status, Refusal>
    ensures { status_means result ≡ head_in contents.now }
{
    match contents {
        [first, ..] => Status::from_byte(*first),
        [] => Err(Refusal::TooShort),
    }
}

// Writes a sound reply so far and an item after it.
fn put_item(prior: &[u8], byte: u8, body: &[u8], out: &mut [u8]) -> Result<usize, Refusal>
    ensures value { written_means result ≡ draft_answer (with_item prior.now byte body.now)
        (length out.old) }
    ensures out_after { out.new ≡ draft_out (with_item prior.now byte body.now)
        out.old }
{
    let Ok(count) = u8::try_from(body.len()) else {
        return Err(Refusal::BadCount);
    };
    let k = prior.len();
    let end = k + 2 + body.len();
    if REPLY_LIMIT < end {
        return Err(Refusal::TooLong);
    }
    if out.len() < end {
        return Err(Refusal::NoRoom);
    }
    lists::copy(prior, out, 0);
    out[k] = byte;
    out[k + 1] = count;
    lists::copy(body, out, k + 2);
    Ok(end)
}
