//! Writes all bytes of a slice or of a sink.
ghost use Rattle.std.specs.Prelude.{◌≡◌, ◌+◌, ◌^◌, ◌<◌, length, drop, take, OnOk, OnErr, IfErr};
ghost use Rattle.rice_bits.specs.{Bits.whole_bytes, Bits.bits_in_bytes, OutletRoom.Appends};
ghost use Rattle.rice_stream.specs.DevicesInCalls.{TakesPart};

use rice_bits::{BitSink, Outlet, WriteFault};

/// Writes all of the bytes. Returns `WriteFault` only if the outlet fails; it has then taken fewer than all.
#[inline(always)]
pub fn write_all<O: Outlet>(outlet: &mut O, bytes: &[u8]) -> Result<(), WriteFault>
    requires { O.failed outlet.old + 1 < 2 ^ 64 }
    ensures ok { OnOk result (Appends (O.taken outlet.old) (O.taken outlet.new) bytes.now ×
        (O.failed outlet.new ≡ O.failed outlet.old)) }
    ensures err { OnErr result (TakesPart (O.taken outlet.old) (O.taken outlet.new) bytes.now ×
        (O.failed outlet.new ≡ O.failed outlet.old + 1)) }
{
    match write_counted(outlet, bytes) {
        Ok(()) => Ok(()),
        Err(_) => Err(WriteFault),
    }
}

/// Writes all of the bytes. If the outlet fails, the error is the number of bytes that it took.
#[inline(always)]
pub fn write_counted<O: Outlet>(outlet: &mut O, bytes: &[u8]) -> Result<(), usize>
    requires { O.failed outlet.old + 1 < 2 ^ 64 }
    ensures ok { OnOk result (Appends (O.taken outlet.old) (O.taken outlet.new) bytes.now ×
        (O.failed outlet.new ≡ O.failed outlet.old)) }
    ensures err { IfErr result (λ n. (n < length bytes.now) ×
        Appends (O.taken outlet.old) (O.taken outlet.new) (take n bytes.now) ×
        (O.failed outlet.new ≡ O.failed outlet.old + 1)) }
{
    if bytes.is_empty() {
        return Ok(());
    }
    match outlet.put(bytes) {
        Ok(count) if count == bytes.len() => Ok(()),
        Ok(count) => match write_in_calls(outlet, &bytes[count..]) {
            Ok(()) => Ok(()),
            Err(more) => Err(count + more),
        },
        Err(_) => Err(0),
    }
}

/// Writes all of the bytes, in as many calls as needed. If the outlet fails, the error is the number of bytes that it took.
#[inline(never)]
pub fn write_in_calls<O: Outlet>(outlet: &mut O, bytes: &[u8]) -> Result<(), usize>
    requires { O.failed outlet.old + 1 < 2 ^ 64 }
    ensures ok { OnOk result (Appends (O.taken outlet.old) (O.taken outlet.new) bytes.now ×
        (O.failed outlet.new ≡ O.failed outlet.old)) }
    ensures err { IfErr result (λ n. (n < length bytes.now) ×
        Appends (O.taken outlet.old) (O.taken outlet.new) (take n bytes.now) ×
        (O.failed outlet.new ≡ O.failed outlet.old + 1)) }
{
    let mut done = 0;
    while done < bytes.len() {
        match outlet.put(&bytes[done..]) {
            Ok(count) => done += count,
            Err(_) => return Err(done),
        }
    }
    Ok(())
}

/// Writes the whole bytes of a sink, and removes them from it.
#[inline]
pub fn write_whole<const N: usize, O: Outlet>(
    sink: &mut BitSink<N>,
    outlet: &mut O,
) -> Result<(), WriteFault>
    requires { O.failed outlet.old + 1 < 2 ^ 64 }
    ensures ok { OnOk result (Appends (O.taken outlet.old) (O.taken outlet.new)
        (whole_bytes sink.old) ×
        (O.failed outlet.new ≡ O.failed outlet.old)
        × (sink.new ≡ drop (bits_in_bytes (length sink.old)) sink.old)) }
    ensures err { OnErr result (TakesPart (O.taken outlet.old) (O.taken outlet.new)
        (whole_bytes sink.old) ×
        (O.failed outlet.new ≡ O.failed outlet.old + 1)) }
{
    write_all(outlet, sink.whole())?;
    sink.drop_whole();
    Ok(())
}
