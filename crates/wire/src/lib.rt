// Calls and answers as bytes.
//
// A clerk's program and the register share nothing but these bytes. So every string of bytes is one call, or
// ceases to be one at a place that can be told; and every call and every answer has one string of bytes, and
// is read back as it was written. Nothing is copied to be read: a write's page stays in the bytes in which it
// came, and is lent from there.
#![tactic(auto)]

ghost use Rattle.std.specs.Prelude.{◌+◌, ◌≤◌, ◌++◌, length};
ghost use Rattle.wire.specs.Encoded.{Encoded};

pub mod answer;
pub mod call;
#[cfg(test)]
mod tests;

// Writes a number with its fields, and the bytes behind them, at the front of what is lent and tells how many
// they are; writes nothing where they don't fit. The front itself is not handed back: of what is lent on, no
// contract could say what all of it holds afterwards.
fn write(out: &mut [u8], head: &[u8], rest: &[u8]) -> Option<usize>
    ensures { Encoded result (head.now ++ rest.now) out.old out.new }
{
    if out.len() < head.len() || out.len() - head.len() < rest.len() {
        return None;
    }
    let end = head.len() + rest.len();
    out[..head.len()].copy_from_slice(head);
    out[head.len()..end].copy_from_slice(rest);
    Some(end)
}
