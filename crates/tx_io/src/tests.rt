use crate::{
    Counted, Failed, Files, HostFiles, Ledger, LoadFault, MemoryFiles, MemorySink, MemorySource,
    NullSink, ReaderSource, Sent, Sink, Source, Steps, Tick, Uncounted, WriterSink, send_all,
};
use std::alloc::AllocError;
use std::test::Fail;
use std::{env, fs, process};

/// Sends five bytes and then two to a sink that fails at these places.
fn sent_twice(rt: &HostRuntime, fail_at: &[u64]) -> Result<(Sent, Sent, MemorySink), AllocError> {
    let mut sink = MemorySink::new(rt.alloc(), fail_at.to_vec(rt.alloc())?);
    let first = send_all(&mut sink, b"abcde");
    let second = send_all(&mut sink, b"fg");
    Ok((first, second, sink))
}

fn sent(taken: u64, failed: bool) -> Sent {
    Sent { taken, failed }
}

#[test]
fn sending_stops_at_each_failing_place_once(rt: HostRuntime) -> Result<(), Fail> {
    let cases: [(&[u64], Sent, Sent, &[u8]); 6] = [
        (&[], sent(5, false), sent(2, false), b"abcdefg"),
        (&[0], sent(0, true), sent(2, false), b"fg"),
        (&[3], sent(3, true), sent(2, false), b"abcfg"),
        (&[5], sent(5, false), sent(0, true), b"abcde"),
        (&[2, 3], sent(2, true), sent(1, true), b"abf"),
        (&[9], sent(5, false), sent(2, false), b"abcdefg"),
    ];
    for (fail_at, first, second, taken) in cases {
        let (one, two, sink) = sent_twice(&rt, fail_at)?;
        assert_eq!(rt; one, first, "first, failing at {fail_at:?}");
        assert_eq!(rt; two, second, "second, failing at {fail_at:?}");
        assert_eq!(rt; sink.taken(), taken, "failing at {fail_at:?}");
    }
    Ok(())
}

#[test]
fn no_bytes_make_no_put(rt: HostRuntime) -> Result<(), Fail> {
    let mut sink = MemorySink::new(rt.alloc(), [0].to_vec(rt.alloc())?);
    assert_eq!(rt; send_all(&mut sink, b""), sent(0, false));
    assert_eq!(rt; sink.put(b""), Err(Failed));
    assert_eq!(rt; sink.put(b""), Ok(0));
    Ok(())
}

#[test]
fn files_in_memory_load_by_their_first_entry(rt: HostRuntime) -> Result<(), Fail> {
    let mut entries = Vec::new(rt.alloc());
    let contents: [(&str, &[u8]); 3] = [("a", b"one"), ("b", b""), ("a", b"two")];
    for (name, content) in contents {
        let name = String::from_str(rt.alloc(), name)?;
        entries.push((name, content.to_vec(rt.alloc())?))?;
    }
    let mut files = MemoryFiles::new(entries, [3].to_vec(rt.alloc())?);
    let loads: [(&str, u64, Result<&[u8], LoadFault>); 7] = [
        ("a", 3, Ok(b"one")),
        ("a", 2, Err(LoadFault::TooLong)),
        ("a", 3, Err(LoadFault::Failed)),
        ("a", 9, Ok(b"one")),
        ("b", 0, Ok(b"")),
        ("c", 9, Err(LoadFault::Failed)),
        ("", 9, Err(LoadFault::Failed)),
    ];
    for (name, limit, wanted) in loads {
        let loaded = files.load(rt.alloc(), name, limit);
        let loaded = match &loaded {
            Ok(bytes) => Ok(bytes.as_slice()),
            Err(fault) => Err(*fault),
        };
        assert_eq!(rt; loaded, wanted, "{name} at most {limit}");
    }
    Ok(())
}

#[test]
fn a_writer_takes_what_is_put(rt: HostRuntime) -> Result<(), Fail> {
    let mut written = Vec::new(rt.alloc());
    let mut sink = WriterSink::new(&mut written);
    assert_eq!(rt; send_all(&mut sink, b"one "), sent(4, false));
    assert_eq!(rt; send_all(&mut sink, b"two"), sent(3, false));
    assert_eq!(rt; written.as_slice(), b"one two".as_slice());
    Ok(())
}

#[test]
fn a_writer_without_room_fails(rt: HostRuntime) -> Result<(), Fail> {
    let mut room = [0u8; 3];
    let mut sink = WriterSink::new(room.as_mut_slice());
    assert_eq!(rt; send_all(&mut sink, b"four"), sent(3, true));
    assert_eq!(rt; sink.put(b""), Ok(0));
    Ok(())
}

#[test]
fn a_file_of_the_host_is_loaded_whole(rt: HostRuntime) -> Result<(), Fail> {
    let mut path = env::temp_dir(&rt)?;
    path.push(format!(in rt.alloc(); "tx_io_loads_this_file_{}", process::id(rt.process()))?)?;
    let path = path.as_path().to_str();
    let name = path.ok_or("no text")?;
    fs::write(&rt, name, b"some bytes\xff")?;
    let mut files = HostFiles::new(&rt);
    let whole = files.load(rt.alloc(), name, 11);
    let cut = files.load(rt.alloc(), name, 10);
    fs::remove_file(&rt, name)?;
    let gone = files.load(rt.alloc(), name, 11);
    assert_eq!(rt;
        whole.ok().ok_or("not loaded")?.as_slice(),
        b"some bytes\xff".as_slice()
    );
    assert_eq!(rt; cut.err(), Some(LoadFault::TooLong));
    assert_eq!(rt; gone.err(), Some(LoadFault::Failed));
    Ok(())
}

/// Two tests, an arrangement and three cells.
fn six_ticks<L: Ledger>(steps: &mut Steps<L>) {
    steps.tick(Tick::Test);
    steps.tick(Tick::Cell);
    steps.tick(Tick::Arranged);
    steps.tick(Tick::Cell);
    steps.tick(Tick::Test);
    steps.tick(Tick::Cell);
}

#[test]
fn ticks_are_counted_by_their_sort(rt: HostRuntime) {
    let mut steps = Steps {
        ledger: Counted {
            tests: 0,
            arranged: 5,
            cells: u64::MAX - 1,
        },
    };
    six_ticks(&mut steps);
    let wanted = Counted {
        tests: 2,
        arranged: 6,
        cells: u64::MAX,
    };
    assert_eq!(rt; steps.ledger, wanted);
    let mut untold = Steps { ledger: Uncounted };
    six_ticks(&mut untold);
}

/// What so many reads to these places give, of a source of seven bytes that fails at these places:
/// the bytes, or `!` for a read that fails, and `.` for one that gives none.
fn read_often(
    rt: &HostRuntime,
    places: &mut [u8],
    times: usize,
    fail_at: &[u64],
) -> Result<Vec<u8>, AllocError> {
    let bytes = b"abcdefg".to_vec(rt.alloc())?;
    let mut source = MemorySource::new(bytes, fail_at.to_vec(rt.alloc())?);
    let mut seen = Vec::new(rt.alloc());
    for _ in 0..times {
        if places.is_empty() {
            return Ok(seen);
        }
        let read = source.read(places);
        match read {
            Ok(0) => seen.push(b'.')?,
            Ok(count) => seen.extend_from_slice(&places[..count])?,
            Err(Failed) => seen.push(b'!')?,
        }
        seen.push(b' ')?;
    }
    Ok(seen)
}

#[test]
fn reading_stops_at_each_failing_place_once(rt: HostRuntime) -> Result<(), Fail> {
    let cases: [(&[u64], &[u8]); 6] = [
        (&[], b"abc def g . . "),
        (&[0], b"! abc def g . "),
        (&[3], b"abc ! def g . "),
        (&[2, 2, 4], b"ab ! ! cd ! "),
        (&[7], b"abc def g ! . "),
        (&[8], b"abc def g . . "),
    ];
    for (fail_at, wanted) in cases {
        let seen = read_often(&rt, &mut [0u8; 3], 5, fail_at)?;
        assert_eq!(rt; seen.as_slice(), wanted, "failing at {fail_at:?}");
    }
    Ok(())
}

#[test]
fn one_byte_at_a_time(rt: HostRuntime) -> Result<(), Fail> {
    let cases: [(&[u64], &[u8]); 10] = [
        (&[], b"a b c d e f g . . "),
        (&[0], b"! a b c d e f g . "),
        (&[1], b"a ! b c d e f g . "),
        (&[2], b"a b ! c d e f g . "),
        (&[3], b"a b c ! d e f g . "),
        (&[4], b"a b c d ! e f g . "),
        (&[5], b"a b c d e ! f g . "),
        (&[6], b"a b c d e f ! g . "),
        (&[7], b"a b c d e f g ! . "),
        (&[8], b"a b c d e f g . . "),
    ];
    for (fail_at, wanted) in cases {
        let seen = read_often(&rt, &mut [0u8; 1], 9, fail_at)?;
        assert_eq!(rt; seen.as_slice(), wanted, "failing at {fail_at:?}");
    }
    Ok(())
}

#[test]
fn a_reader_gives_what_it_has(rt: HostRuntime) -> Result<(), Fail> {
    let mut source = ReaderSource::new(b"abcd".as_slice());
    let mut places = [0u8; 3];
    assert_eq!(rt; source.read(&mut places), Ok(3));
    assert_eq!(rt; places, *b"abc");
    assert_eq!(rt; source.read(&mut places), Ok(1));
    assert_eq!(rt; places, *b"dbc");
    assert_eq!(rt; source.read(&mut places), Ok(0));
    Ok(())
}

#[test]
fn nothing_is_kept_of_what_a_null_sink_takes(rt: HostRuntime) {
    let mut sink = NullSink;
    assert_eq!(rt; send_all(&mut sink, b"abcde"), sent(5, false));
    assert_eq!(rt; sink.put(b""), Ok(0));
}
