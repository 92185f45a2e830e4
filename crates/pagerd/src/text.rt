ghost use Rattle.std.specs.Prelude.{◌≡◌, ◌++◌, IfOk, OnOk};
ghost use Rattle.pagerd.specs.Text.{expected_text, fault_text, illegal_text, why_text};

use itoa::Buffer;
use std::alloc::Global;
use up_model::Reply;
use up_num::Memory;
use up_replies::put_reply;
use up_script::Why;

/// The text of a fault at a line.
pub fn fault_at(alloc: Global, line: u32, reason: &[u8]) -> Result<Vec<u8>, Memory>
    ensures { IfOk result (λ text. text.items ≡ fault_text line reason.now) }
{
    let mut buffer = Buffer::new();
    let mut text = Vec::new(alloc);
    text.extend_from_slice(b"fault ")?;
    text.extend_from_slice(buffer.format(line).as_bytes())?;
    text.extend_from_slice(b" ")?;
    text.extend_from_slice(reason)?;
    text.extend_from_slice(b"\n")?;
    Ok(text)
}

/// The text of the first entry at fault, with the reply that was expected of a proper call.
pub fn illegal_at(
    alloc: Global,
    name: &[u8],
    entry: u64,
    expected: &Option<Reply>,
) -> Result<Vec<u8>, Memory>
    ensures { IfOk result (λ text. text.items ≡ illegal_text name.now entry expected.now) }
{
    let mut buffer = Buffer::new();
    let mut text = Vec::new(alloc);
    text.extend_from_slice(b"illegal ")?;
    text.extend_from_slice(name)?;
    text.extend_from_slice(b" ")?;
    text.extend_from_slice(buffer.format(entry).as_bytes())?;
    put_expected(&mut text, expected)?;
    text.extend_from_slice(b"\n")?;
    Ok(text)
}

fn put_expected(text: &mut Vec<u8>, expected: &Option<Reply>) -> Result<(), Memory>
    ensures { OnOk result (text.new.items ≡ text.old.items ++ expected_text expected.now) }
{
    match expected {
        None => text.extend_from_slice(b" improper"),
        Some(reply) => {
            text.extend_from_slice(b" expected")?;
            put_reply(text, reply)
        }
    }
}

/// The word for a reason.
pub fn why_word(why: Why) -> &'static [u8]
    ensures { result.now ≡ why_text why }
{
    match why {
        Why::Long => b"long",
        Why::Limit => b"limit",
        Why::Cut => b"cut",
        Why::Header => b"header",
        Why::Word => b"word",
        Why::Name => b"name",
        Why::Number => b"number",
        Why::Bytes => b"bytes",
        Why::Role => b"role",
        Why::Left => b"left",
        Why::Missing => b"missing",
        Why::Order => b"order",
    }
}
