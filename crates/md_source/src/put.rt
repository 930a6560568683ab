// Bytes and texts, put whole.
ghost use Rattle.std.specs.Prelude.{◌≡◌, ◌⊎◌, ◌+◌, ◌≤◌, length, OnOk, OnErr, IsErrOf};
ghost use Rattle.md_source.specs.Puts.{PutsNothing, PutsWhole, PutsPart};

use crate::{Failed, Sink};

/// Puts all the bytes. Each put is given all that were not taken yet, and the first that fails is the last.
pub fn put_all<K: Sink>(sink: &mut K, bytes: &[u8]) -> Result<(), Failed>
    requires { length bytes.now ≤ K.spare sink.old }
    ensures whole { OnOk result (PutsWhole (K.taken sink.old) (K.taken sink.new)
        (K.failures sink.old) (K.failures sink.new) bytes.now) }
    ensures room { OnOk result (K.spare sink.new + length bytes.now ≡ K.spare sink.old) }
    ensures part { OnErr result (PutsPart (K.taken sink.old) (K.taken sink.new)
        (K.failures sink.old) (K.failures sink.new) bytes.now) }
{
    let mut at = 0;
    while at < bytes.len() {
        match sink.put(&bytes[at..]) {
            Ok(count) => at += count,
            Err(failed) => return Err(failed),
        }
    }
    Ok(())
}

/// Why texts were not put whole.
#[derive(Clone, Copy, Debug, PartialEq, Eq)]
pub enum PutEnd {
    /// A put failed.
    Failed,
    /// There was no room for the texts.
    Memory,
}

/// Reserves room for both texts, and puts the whole text for `err` and then the whole text for `out`. After
/// a put that fails nothing more is put.
pub fn put_texts<E: Sink, K: Sink>(
    err: &mut E,
    err_text: &str,
    out: &mut K,
    out_text: &str,
) -> Result<(), PutEnd>
    ensures whole_err { OnOk result (PutsWhole (E.taken err.old) (E.taken err.new)
        (E.failures err.old) (E.failures err.new) err_text.now) }
    ensures whole_out { OnOk result (PutsWhole (K.taken out.old) (K.taken out.new)
        (K.failures out.old) (K.failures out.new) out_text.now) }

    // A prefix of the text for err stands and nothing of the other, or all of it and a prefix of the other.
    ensures part { IsErrOf result PutEnd.Failed
        → (PutsPart (E.taken err.old) (E.taken err.new) (E.failures err.old) (E.failures err.new) err_text.now
        × PutsNothing (K.taken out.old) (K.taken out.new) (K.failures out.old) (K.failures out.new))
        ⊎ (PutsWhole (E.taken err.old) (E.taken err.new) (E.failures err.old) (E.failures err.new) err_text.now
        × PutsPart (K.taken out.old) (K.taken out.new) (K.failures out.old) (K.failures out.new) out_text.now) }

    ensures memory_err { IsErrOf result PutEnd.Memory → PutsNothing (E.taken err.old) (E.taken err.new)
        (E.failures err.old) (E.failures err.new) }
    ensures memory_out { IsErrOf result PutEnd.Memory → PutsNothing (K.taken out.old) (K.taken out.new)
        (K.failures out.old) (K.failures out.new) }
{
    let err_bytes = err_text.as_bytes();
    let out_bytes = out_text.as_bytes();
    if err.reserve(err_bytes.len()).is_err() {
        return Err(PutEnd::Memory);
    }
    if out.reserve(out_bytes.len()).is_err() {
        return Err(PutEnd::Memory);
    }
    if put_all(err, err_bytes).is_err() {
        return Err(PutEnd::Failed);
    }
    if put_all(out, out_bytes).is_err() {
        return Err(PutEnd::Failed);
    }
    Ok(())
}
