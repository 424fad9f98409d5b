//! Sources and sinks of bytes that count their faults, in memory and over any reader and writer,
//! with whole reads and whole writes over them.
#![tactic(auto)]

mod ends;
mod memory_sink;
mod memory_source;
mod ports;
mod streams;

pub use ends::{Memory, ReadEnd, WriteEnd, read_all, write_all};
pub use memory_sink::MemSink;
pub use memory_source::MemSource;
pub use ports::{Failed, Sink, Source};
pub use streams::{StdinSource, StdoutSink};

#[cfg(test)]
mod tests {
    use super::*;
    use std::test::Fail;

    #[test]
    fn inputs_are_read_whole(rt: HostRuntime) -> Result<(), Fail> {
        let alloc = rt.alloc();
        let mut whole = MemSource::new(b"tht 1".to_vec(alloc)?, Vec::new(alloc));
        assert_eq!(rt;
            read_all(alloc, &mut whole, 5)?.as_slice(),
            b"tht 1".as_slice()
        );
        let mut dripping = MemSource::drip(b"tht 1".to_vec(alloc)?, Vec::new(alloc), 2);
        assert_eq!(rt;
            read_all(alloc, &mut dripping, 5)?.as_slice(),
            b"tht 1".as_slice()
        );
        let mut long = MemSource::drip(b"tht 1".to_vec(alloc)?, Vec::new(alloc), 2);
        assert!(rt; matches!(read_all(alloc, &mut long, 4), Err(ReadEnd::TooLong)));
        Ok(())
    }

    #[test]
    fn a_read_fails_in_mid_stream_and_goes_on(rt: HostRuntime) -> Result<(), Fail> {
        let alloc = rt.alloc();
        let fails = [2].to_vec(alloc)?;
        let mut source = MemSource::drip(b"tht 1".to_vec(alloc)?, fails, 3);
        assert!(rt; matches!(read_all(alloc, &mut source, 5), Err(ReadEnd::Fault)));
        assert_eq!(rt;
            read_all(alloc, &mut source, 2)?.as_slice(),
            b" 1".as_slice()
        );
        Ok(())
    }

    #[test]
    fn a_failed_pull_moves_nothing(rt: HostRuntime) -> Result<(), Fail> {
        let alloc = rt.alloc();
        let fails = [1, 3].to_vec(alloc)?;
        let mut source = MemSource::drip(b"abc".to_vec(alloc)?, fails, 2);
        let mut into = *b"....";
        assert_eq!(rt; source.pull(&mut into), Err(Failed));
        assert_eq!(rt; into.as_slice(), b"....".as_slice());
        assert_eq!(rt; source.pull(&mut into), Ok(2));
        assert_eq!(rt; source.pull(&mut into), Err(Failed));
        assert_eq!(rt; into.as_slice(), b"ab..".as_slice());
        assert_eq!(rt; source.pull(&mut into), Ok(1));
        assert_eq!(rt; source.pull(&mut into), Ok(0));
        assert_eq!(rt; into.as_slice(), b"cb..".as_slice());
        Ok(())
    }

    #[test]
    fn a_write_fails_in_mid_stream_and_goes_on(rt: HostRuntime) -> Result<(), Fail> {
        let alloc = rt.alloc();
        let fails = [3].to_vec(alloc)?;
        let mut sink = MemSink::drip(alloc, 5, fails, 1)?;
        let end = write_all(&mut sink, b"done");
        assert!(rt; matches!(end, Err(WriteEnd::Fault { sent: 2 })));
        assert_eq!(rt; sink.bytes(), b"do".as_slice());
        write_all(&mut sink, b"ne")?;
        assert_eq!(rt; sink.bytes(), b"done".as_slice());
        Ok(())
    }

    #[test]
    fn a_push_takes_what_still_fits(rt: HostRuntime) -> Result<(), Fail> {
        let alloc = rt.alloc();
        let mut sink = MemSink::new(alloc, 4, Vec::new(alloc))?;
        assert_eq!(rt; sink.push(b"abc"), Ok(3));
        assert_eq!(rt; sink.push(b"def"), Ok(1));
        assert_eq!(rt; sink.push(b""), Ok(0));
        assert_eq!(rt; sink.push(b"ef"), Err(Failed));
        assert_eq!(rt; sink.bytes(), b"abcd".as_slice());
        Ok(())
    }

    #[test]
    fn readers_and_writers_are_ports(rt: HostRuntime) -> Result<(), Fail> {
        let alloc = rt.alloc();
        let mut source = StdinSource::new(b"abc".as_slice());
        let bytes = read_all(alloc, &mut source, 3)?;
        assert_eq!(rt; bytes.as_slice(), b"abc".as_slice());
        let mut written = Vec::new(alloc);
        write_all(&mut StdoutSink::new(&mut written), &bytes)?;
        assert_eq!(rt; written.as_slice(), b"abc".as_slice());
        // A writer that is full takes 0 bytes.
        let mut room = *b"..";
        let end = write_all(&mut StdoutSink::new(room.as_mut_slice()), &bytes);
        assert!(rt; matches!(end, Err(WriteEnd::Fault { sent: 2 })));
        assert_eq!(rt; room.as_slice(), b"ab".as_slice());
        Ok(())
    }
}
