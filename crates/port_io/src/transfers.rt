//! A whole input, read at once up to a limit, and a piece, written whole.

ghost use Rattle.std.specs.Prelude.{◌≡◌, ◌+◌, ◌^◌, ◌<◌, ◌≤◌, [], length, take, drop, Some, IfOk, OnOk, OnErr, IfSome, IsErrOf, vec_len};
ghost use Rattle.std.specs.Io.KnownBytes.{Appends, Consumes, IsAtEnd, Keeps};
ghost use Rattle.port_io.specs.Devices.{AppendsPart, CountsFault, TakesAtMost, TakesMoreThan};
ghost use Rattle.port_io.specs.declared.transfers.ReadFault.TheVariants.{Failed as failed, Memory as memory};

use crate::devices::{Failed, Sink, Source};
use std::alloc::{AllocError, Global};

/// Why an input wasn't read.
#[derive(Clone, Copy, Debug, PartialEq, Eq)]
pub enum ReadFault {
    /// The source failed.
    Failed,
    /// The input is longer than the limit.
    TooLong,
    /// Memory was refused.
    Memory,
}

impl From<Failed> for ReadFault {
    ghost from_gives = { λ _ fault. fault ≡ failed };

    fn from(_failed: Failed) -> ReadFault {
        ReadFault::Failed
    }
}

impl From<AllocError> for ReadFault {
    ghost from_gives = { λ _ fault. fault ≡ memory };

    fn from(_refused: AllocError) -> ReadFault {
        ReadFault::Memory
    }
}

/// How many bytes a read is given room for at least, where the limit allows it.
const PIECE: usize = 64 * 1024;

/// Reads the input to its end. The input may have `limit` bytes, and `limit` is below 2^32. It takes
/// at least one byte a turn and never more than `limit + 1` in all, and so it ends. `Failed` comes
/// only from the source, `TooLong` exactly where more than `limit` bytes were taken. An input that
/// isn't answered has lost what was taken.
pub fn read_all<S: Source>(
    alloc: Global,
    source: &mut S,
    limit: usize,
) -> Result<Vec<u8>, ReadFault>
    requires { limit < 2 ^ 32 }
    ensures whole { IfOk result (λ bytes. IfSome (S.left source.old) (λ input. bytes.items ≡ input)) }
    ensures ended { OnOk result (IfSome (S.left source.old) (λ _. S.left source.new ≡ Some [])) }
    ensures within { IfOk result (λ bytes. length bytes.items ≤ limit) }
    ensures too_long { IsErrOf result ReadFault.TooLong → IfSome (S.left source.old) (λ input. limit < length input) }
    ensures taken { IsErrOf result ReadFault.TooLong → TakesMoreThan limit (S.left source.old) (S.left source.new) }
    ensures failed { IsErrOf result ReadFault.Failed → TakesAtMost limit (S.left source.old) (S.left source.new) }
    ensures memory { IsErrOf result ReadFault.Memory → TakesAtMost limit (S.left source.old) (S.left source.new) }
    ensures counted { IsErrOf result ReadFault.Failed → CountsFault (S.faults source.old) (S.faults source.new) }
    ensures never_falls { S.faults source.old ≤ S.faults source.new }
{
    let mut bytes = Vec::new(alloc);
    let mut filled = 0;
    while filled <= limit {
        let n = read_more(source, &mut bytes, filled, limit)?;
        if n == 0 {
            bytes.truncate(filled);
            return Ok(bytes);
        }
        filled += n;
    }
    Err(ReadFault::TooLong)
}

/// Writes the whole piece, which may be empty, by as many writes as it takes. After `Failed` a front
/// of it was appended.
pub fn write_piece<O: Sink>(sink: &mut O, piece: &[u8]) -> Result<(), Failed>
    ensures whole { OnOk result (Appends (O.written sink.old) (O.written sink.new) piece.now) }
    ensures part { OnErr result (AppendsPart (O.written sink.old) (O.written sink.new) piece.now) }
    ensures counted { OnErr result (CountsFault (O.faults sink.old) (O.faults sink.new)) }
    ensures never_falls { O.faults sink.old ≤ O.faults sink.new }
{
    let mut done = 0;
    while done < piece.len() {
        done += sink.write(&piece[done..])?;
    }
    Ok(())
}

/// One read, behind the first `filled` bytes. Room is made first, so that a refused allocation loses
/// no byte.
fn read_more<S: Source>(
    source: &mut S,
    bytes: &mut Vec<u8>,
    filled: usize,
    limit: usize,
) -> Result<usize, ReadFault>
    requires filled { filled ≤ vec_len bytes.old }
    requires more { filled ≤ limit }
    requires bounded { vec_len bytes.old ≤ limit + 1 }
    requires limit { limit < 2 ^ 32 }
    ensures front { take filled bytes.new.items ≡ take filled bytes.old.items }
    ensures within { IfOk result (λ n. filled + n ≤ vec_len bytes.new) }
    ensures bounded { vec_len bytes.new ≤ limit + 1 }
    ensures taken { IfOk result (λ n. Consumes (S.left source.old) (S.left source.new) (take n (drop filled bytes.new.items))) }
    ensures end { IfOk result (λ n. n ≡ 0 → IsAtEnd (S.left source.new)) }
    ensures kept { OnErr result (Keeps (S.left source.old) (S.left source.new)) }
    ensures counted { IsErrOf result ReadFault.Failed → CountsFault (S.faults source.old) (S.faults source.new) }
    ensures not_long { IsErrOf result ReadFault.TooLong → ⊥ }
    ensures never_falls { S.faults source.old ≤ S.faults source.new }
{
    make_room(bytes, filled, limit)?;
    let n = read_at(source, bytes.as_mut_slice(), filled)?;
    Ok(n)
}

fn read_at<S: Source>(source: &mut S, buf: &mut [u8], at: usize) -> Result<usize, Failed>
    requires { at < length buf.old }
    ensures front { take at buf.new ≡ take at buf.old }
    ensures within { IfOk result (λ n. at + n ≤ length buf.new) }
    ensures taken { IfOk result (λ n. Consumes (S.left source.old) (S.left source.new) (take n (drop at buf.new))) }
    ensures end { IfOk result (λ n. n ≡ 0 → IsAtEnd (S.left source.new)) }
    ensures kept { OnErr result (Keeps (S.left source.old) (S.left source.new)) }
    ensures counted { OnErr result (CountsFault (S.faults source.old) (S.faults source.new)) }
    ensures never_falls { S.faults source.old ≤ S.faults source.new }
{
    source.read(&mut buf[at..])
}

/// Makes the list longer than `filled`. It doubles at least, so that growing costs little in all.
fn make_room(bytes: &mut Vec<u8>, filled: usize, limit: usize) -> Result<(), AllocError>
    requires filled { filled ≤ vec_len bytes.old }
    requires more { filled ≤ limit }
    requires bounded { vec_len bytes.old ≤ limit + 1 }
    requires limit { limit < 2 ^ 32 }
    ensures front { take filled bytes.new.items ≡ take filled bytes.old.items }
    ensures room { OnOk result (filled < vec_len bytes.new) }
    ensures longer { vec_len bytes.old ≤ vec_len bytes.new }
    ensures bounded { vec_len bytes.new ≤ limit + 1 }
{
    if filled < bytes.len() {
        return Ok(());
    }
    let end = (filled + filled.max(PIECE)).min(limit + 1);
    bytes.resize(end, 0)
}

#[cfg(test)]
mod tests {
    use super::*;
    use crate::adapters::{ReadSource, WriteSink};
    use crate::memory::{MemSink, MemSource, SureSource};
    use std::io;
    use std::io::{Error, ErrorKind, Read, Write};
    use std::test::Fail;

    /// A device of std that answers this many calls and then fails.
    #[derive(Drop)]
    struct Breaking {
        calls: usize,
    }

    impl Read for Breaking {
        fn read(&mut self, buf: &mut [u8]) -> io::Result<usize> {
            if self.calls == 0 || buf.is_empty() {
                return Err(Error::from(ErrorKind::BrokenPipe));
            }
            self.calls -= 1;
            buf[0] = b'x';
            Ok(1)
        }
    }

    impl Write for Breaking {
        fn write(&mut self, piece: &[u8]) -> io::Result<usize> {
            if self.calls == 0 {
                return Ok(0);
            }
            self.calls -= 1;
            Ok(piece.len().min(2))
        }

        fn flush(&mut self) -> io::Result<()> {
            Ok(())
        }
    }

    /// The text in pieces of this size, where the reads with these numbers fail.
    fn source_of(alloc: Global, text: &str, piece: usize, fails: &[u64]) -> Result<MemSource, Fail>
        requires { 0 < piece }
    {
        let bytes = text.as_bytes().to_vec(alloc)?;
        Ok(MemSource::new(bytes, piece, fails.to_vec(alloc)?))
    }

    #[test]
    fn an_input_is_read_up_to_its_limit(rt: HostRuntime) -> Result<(), Fail> {
        // The text's length, the bytes a read gives, the read that fails, the limit, the answer.
        let long = ReadFault::TooLong;
        let failed = ReadFault::Failed;
        let cases = [
            (1, None, 3, Ok(())),
            (1, None, 2, Err(long)),
            (2, None, 3, Ok(())),
            (2, None, 2, Err(long)),
            (7, None, 3, Ok(())),
            (7, None, 2, Err(long)),
            (7, None, 0, Err(long)),
            (1, Some(0), 3, Err(failed)),
            (1, Some(2), 3, Err(failed)),
            (1, Some(3), 3, Err(failed)),
            (1, Some(4), 3, Ok(())),
            (2, Some(2), 3, Err(failed)),
            (2, Some(2), 2, Err(long)),
            (7, Some(1), 100_000, Err(failed)),
            (7, Some(2), 100_000, Ok(())),
        ];
        for (piece, fails, limit, answer) in cases {
            let fails = fails.map_or(u64::MAX, |k: u64| k);
            assert!(rt; piece > 0 && limit < 1 << 32);
            let mut source = source_of(rt.alloc(), "abc", piece, &[fails])?;
            match read_all(rt.alloc(), &mut source, limit) {
                Ok(bytes) => {
                    assert_eq!(rt; Ok(()), answer, "{piece} {fails} {limit}");
                    assert_eq!(rt; bytes.as_slice(), b"abc".as_slice());
                }
                Err(fault) => assert_eq!(rt; Err(fault), answer, "{piece} {fails} {limit}"),
            }
        }
        Ok(())
    }

    #[test]
    fn a_long_input_is_read_in_many_pieces(rt: HostRuntime) -> Result<(), Fail> {
        // More than two of the pieces for which room is made.
        let mut input = Vec::new(rt.alloc());
        for k in 0..50_000u32 {
            input.extend_from_slice(&k.to_le_bytes())?;
        }
        for piece in [1000, 65_536, 1 << 20] {
            let bytes = input.as_slice().to_vec(rt.alloc())?;
            let mut source = MemSource::new(bytes, piece, Vec::new(rt.alloc()));
            let read = read_all(rt.alloc(), &mut source, 200_000);
            assert_eq!(rt; read.map_err(|_| "not read")?.as_slice(), input.as_slice());
            let bytes = input.as_slice().to_vec(rt.alloc())?;
            let read = read_all(rt.alloc(), &mut SureSource::new(bytes), 199_999);
            assert_eq!(rt; read.err(), Some(ReadFault::TooLong));
        }
        Ok(())
    }

    #[test]
    fn a_piece_is_written_up_to_a_fault(rt: HostRuntime) -> Result<(), Fail> {
        // The bytes a write takes, the write that fails, the room, what was written of the piece.
        let cases = [
            (1, 9, 7, "abcdefg"),
            (2, 4, 8, "abcdefg"),
            (7, 1, 9, "abcdefg"),
            (1, 0, 7, ""),
            (1, 6, 7, "abcdef"),
            (2, 0, 7, ""),
            (2, 1, 7, "ab"),
            (2, 3, 7, "abcdef"),
            (7, 0, 7, ""),
            (3, 9, 5, "abcde"),
            (3, 9, 0, ""),
        ];
        for (size, fails, room, written) in cases {
            assert!(rt; size > 0);
            let room = Vec::with_capacity(rt.alloc(), room)?;
            let mut sink = MemSink::new(room, size, [fails].to_vec(rt.alloc())?);
            let done = write_piece(&mut sink, b"abcdefg");
            assert_eq!(rt; done.is_ok(), written.len() == 7, "{size} {fails}");
            assert_eq!(rt; sink.written(), written.as_bytes(), "{size} {fails}");
        }
        let mut full = MemSink::new(Vec::new(rt.alloc()), 1, Vec::new(rt.alloc()));
        assert_eq!(rt; write_piece(&mut full, b""), Ok(()));
        Ok(())
    }

    #[test]
    fn std_devices_are_adapted(rt: HostRuntime) -> Result<(), Fail> {
        let mut source = ReadSource::new(b"abc".as_slice());
        let read = read_all(rt.alloc(), &mut source, 3);
        assert_eq!(rt; read.map_err(|_| "not read")?.as_slice(), b"abc".as_slice());
        let mut source = ReadSource::new(Breaking { calls: 2 });
        assert_eq!(rt;
            read_all(rt.alloc(), &mut source, 3).err(),
            Some(ReadFault::Failed)
        );
        let mut source = ReadSource::new(Breaking { calls: 4 });
        assert_eq!(rt;
            read_all(rt.alloc(), &mut source, 3).err(),
            Some(ReadFault::TooLong)
        );
        let mut list = Vec::new(rt.alloc());
        let mut sink = WriteSink::new(&mut list);
        assert_eq!(rt; write_piece(&mut sink, b"abc"), Ok(()));
        assert_eq!(rt; list.as_slice(), b"abc".as_slice());
        assert_eq!(rt;
            write_piece(&mut WriteSink::new(Breaking { calls: 2 }), b"abcd"),
            Ok(())
        );
        assert_eq!(rt;
            write_piece(&mut WriteSink::new(Breaking { calls: 2 }), b"abcde"),
            Err(Failed)
        );
        Ok(())
    }
}
