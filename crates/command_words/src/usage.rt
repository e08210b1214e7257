//! The lines that refuse words.
ghost use Rattle.std.specs.Prelude.{◌≡◌, IfOk};
ghost use Rattle.command_words.specs.Usage as lines;

use pv_base::bytes::Bytes;
use pv_base::want::Memory;
use std::alloc::Global;

/// Refuses words of which there is none, or one that is not UTF-8.
pub fn usage_words(alloc: Global) -> Result<Bytes, Memory>
    ensures { IfOk result (λ line. line ≡ lines.usage_words) }
{
    let line = Bytes::from_slice(alloc, b"usage words\n")?;
    Ok(line)
}

/// Refuses a text that is no number within its limits.
pub fn usage_number(alloc: Global, name: &str, text: &str) -> Result<Bytes, Memory>
    ensures { IfOk result (λ line. line ≡ lines.usage_number name.now text.now) }
{
    let mut line = Bytes::from_slice(alloc, b"usage ")?;
    line.append(name.as_bytes())?;
    line.append(b" ")?;
    line.append(text.as_bytes())?;
    line.append(b"\n")?;
    Ok(line)
}
