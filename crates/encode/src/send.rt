// Sending parts: measured first, then written.
ghost use Rattle.std.specs.Prelude.{◌≡◌, ℕ, ◌<◌, List, [], ◌∷◌, length, IfSome, Option, OnOk};
ghost use Rattle.encode.specs.Sends.{measured, size_if, is_zero, first_zero, offset_of, send_reply, Writable, Wrote, Sent};

use buffer::buffer::Buffer;
use fault::{ByteWord, ServerFault, ServerWord, SessionFault, SessionWord};
use parts::Part;
use rpc::{Handle, write_handle, write_length};
use source::Texts;

// How many bytes a part has on the wire; none where it is a symbol that is not live.
fn part_size<St, Sp, X: Texts>(part: &Part<St, Sp, X::Symbol>, source: &X) -> Option<usize>
    ensures { result ≡ size_if (X.Texts.text source.now) part.now }
{
    match part {
        Part::Byte(_) => Some(1),
        Part::Stream(_) | Part::Span(_) => Some(4),
        Part::Symbol(symbol) => source
            .text_length(*symbol)
            .map(|length| length.saturating_add(8)),
    }
}

// The size of the parts on the wire; Stale at the first symbol that is not live. A struct of the parts and their
// source would be made at each call only to be taken apart.
pub fn measure<St, Sp, X: Texts>(
    parts: &[Part<St, Sp, X::Symbol>],
    source: &X,
) -> Result<usize, ServerFault>
    ensures { result ≡ measured (X.Texts.text source.now) parts.now }
{
    let mut at: usize = 0;
    for part in parts {
        let dead = ServerWord::Stale.at(at.saturating_add(8));
        let size = part_size(part, source).ok_or(dead)?;
        at = at.saturating_add(size);
    }
    Ok(at)
}

fn is_zero<Sy>(part: &Part<Handle, Handle, Sy>) -> bool
    ensures { result ≡ is_zero part.now }
{
    match part {
        Part::Stream(handle) | Part::Span(handle) => handle.number == 0,
        Part::Byte(_) | Part::Symbol(_) => false,
    }
}

// The index of the first handle that is 0.
fn first_zero<Sy>(parts: &[Part<Handle, Handle, Sy>]) -> Option<usize>
    ensures within { IfSome result (λ i. i < length parts.now) }
    ensures place { (text : Sy → Option (List ℕ)) → offset_of text parts.now result ≡ first_zero text parts.now }
{
    parts.iter().position(|part| is_zero(part))
}

fn write_part<X: Texts>(
    part: &Part<Handle, Handle, X::Symbol>,
    source: &X,
    out: &mut Buffer,
) -> Result<(), SessionFault>
    requires { Writable (X.Texts.text source.now) (part.now ∷ []) out.old }
    ensures { Wrote (X.Texts.text source.now) (part.now ∷ []) out.old out.new result }
{
    match part {
        Part::Byte(byte) => out.push(*byte),
        Part::Stream(handle) | Part::Span(handle) => write_handle(out, *handle),
        Part::Symbol(symbol) => {
            let length = source.text_length(*symbol).ok_or(ServerWord::Stale.at(0))?;
            write_length(out, length)?;
            source.append_text(*symbol, out)
        }
    }
}

fn write<X: Texts>(
    parts: &[Part<Handle, Handle, X::Symbol>],
    source: &X,
    out: &mut Buffer,
) -> Result<(), SessionFault>
    requires { Writable (X.Texts.text source.now) parts.now out.old }
    ensures { Wrote (X.Texts.text source.now) parts.now out.old out.new result }
{
    for part in parts {
        write_part(part, source, out)?;
    }
    Ok(())
}

// What a send will answer: the size, or Stale, then Zero, then Tight, each in wire order.
fn check<X: Texts>(
    parts: &[Part<Handle, Handle, X::Symbol>],
    source: &X,
    out: &Buffer,
) -> Result<usize, SessionFault>
    ensures reply { result ≡ send_reply (X.Texts.text source.now) out.now parts.now }
    ensures ready { OnOk result (Writable (X.Texts.text source.now) parts.now out.now) }
{
    let size = measure(parts, source)?;
    if let Some(i) = first_zero(parts) {
        let place = measure(&parts[..i], source)?;
        return Err(ByteWord::Zero.at(place).into());
    }
    if out.free() < size {
        return Err(SessionWord::Tight.at(0));
    }
    Ok(size)
}

// Sends the parts: Stale, then Zero, then Tight, with nothing changed; else they stand behind what
// the buffer held, and the answer is how many bytes they have.
pub fn send<X: Texts>(
    parts: &[Part<Handle, Handle, X::Symbol>],
    source: &X,
    out: &mut Buffer,
) -> Result<usize, SessionFault>
    ensures { Sent (X.Texts.text source.now) parts.now out.old out.new result }
{
    let size = check(parts, source, out)?;
    write(parts, source, out)?;
    Ok(size)
}
