mod adapters;

use super::*;
use std::cmp::Ordering;
use std::hash::{DefaultHasher, Hash, Hasher};
use std::test::Fail;

#[test]
fn prints_numbers(rt: HostRuntime) -> Result<(), Fail> {
    for (value, width, hexadecimal, decimal) in [
        (0, 0, b"0".as_slice(), b"0".as_slice()),
        (255, 5, b"   ff", b"  255"),
        (u64::MAX, 3, b"ffffffffffffffff", b"18446744073709551615"),
    ] {
        let mut out = Text::new(rt.alloc());
        put_hex(&mut out, value, width)?;
        assert_eq!(rt; out.as_slice(), hexadecimal);
        out.truncate(0);
        put_decimal(&mut out, value, width)?;
        assert_eq!(rt; out.as_slice(), decimal);
    }
    Ok(())
}

#[test]
fn reads_numbers(rt: HostRuntime) {
    for (bytes, number) in [
        (b"0".as_slice(), Ok(0)),
        (b"255", Ok(255)),
        (b"007", Ok(7)),
        (b"18446744073709551615", Ok(u64::MAX)),
        (b"18446744073709551616", Err(BadNumber::TooLarge)),
        (b"", Err(BadNumber::NotDigits)),
        (b"+1", Err(BadNumber::NotDigits)),
    ] {
        assert_eq!(rt; read_decimal(bytes), number);
    }
    for (bytes, number) in [
        (b"0".as_slice(), Ok(0)),
        (b"00fF", Ok(255)),
        (b"ffffffffffffffff", Ok(u64::MAX)),
        (b"10000000000000000", Err(BadNumber::TooLarge)),
        (b"", Err(BadNumber::NotDigits)),
        (b"0x1", Err(BadNumber::NotDigits)),
        (b"fg", Err(BadNumber::NotDigits)),
    ] {
        assert_eq!(rt; read_hex(bytes), number);
    }
}

#[test]
fn fills_by_words(rt: HostRuntime) {
    let mut bytes = [0; 11];
    fill_words(&mut bytes, 0x0807_0605_0403_0201);
    assert_eq!(rt;
        bytes.as_slice(),
        [1, 2, 3, 4, 5, 6, 7, 8, 1, 2, 3].as_slice()
    );
    fill_words(&mut bytes[9..], 0);
    assert_eq!(rt;
        bytes.as_slice(),
        [1, 2, 3, 4, 5, 6, 7, 8, 1, 0, 0].as_slice()
    );
}

#[test]
fn counts_pages(rt: HostRuntime) {
    for (bytes, pages) in [(0, 0), (1, 1), (4096, 1), (4097, 2), (u64::MAX, 1 << 52)] {
        assert_eq!(rt; pages_for(bytes), pages);
    }
    let span = Span {
        base: ARENA_BASE,
        pages: arena_pages(1),
    };
    assert_eq!(rt; (span.end(), arena_pages(2)), (0x50_0000, 4096));
    assert_eq!(rt; (own_root(0), own_root(31)), (0x2000, 0x2_1000));
    assert_eq!(rt; (SHARED_ROOT, ROOT_WORDS, LAST_SLOT), (0x1000, 512, 511));
}

#[test]
fn splits_at_the_first(rt: HostRuntime) {
    for (bytes, parts) in [
        (
            b"a b c".as_slice(),
            Some((b"a".as_slice(), b"b c".as_slice())),
        ),
        (b" ", Some((b"", b""))),
        (b"abc", None),
        (b"", None),
    ] {
        assert_eq!(rt; split_once(bytes, b' '), parts);
    }
}

#[test]
fn gives_the_last_item_back(rt: HostRuntime) -> Result<(), Fail> {
    let mut list = BoundedVec::with_room(rt.alloc(), 2)?;
    list.push(5);
    list.push(6);
    assert_eq!(rt; list.pop(), Some(6));
    list.push(7);
    assert_eq!(rt; list.as_slice(), [5, 7].as_slice());
    assert_eq!(rt;
        (list.pop(), list.pop(), list.pop()),
        (Some(7), Some(5), None)
    );
    Ok(())
}

fn hash_of<T: Hash>(value: &T) -> u64 {
    let mut state = DefaultHasher::new();
    value.hash(&mut state);
    state.finish()
}

#[test]
fn compares_lists(rt: HostRuntime) -> Result<(), Fail> {
    let alloc = rt.alloc();
    for (one, two, order) in [
        ([1, 2], [1, 2], Ordering::Equal),
        ([1, 2], [1, 3], Ordering::Less),
        ([2, 1], [1, 3], Ordering::Greater),
    ] {
        let equal = order == Ordering::Equal;
        let mut roomy: Stack = BoundedVec::with_room(alloc, 3)?;
        roomy.push(one[0]);
        roomy.push(one[1]);
        let close = BoundedVec::from_vec(Vec::from_slice(alloc, &two)?);
        assert_eq!(rt;
            (roomy.len(), roomy.spare(), roomy.is_full()),
            (2, 1, false)
        );
        assert_eq!(rt; (close.len(), close.spare(), close.is_full()), (2, 0, true));
        assert_eq!(rt; (roomy == close, roomy.cmp(&close)), (equal, order));
        assert_eq!(rt; hash_of(&roomy) == hash_of(&close), equal);
        let again = roomy.clone()?;
        assert_eq!(rt; (again == roomy, again.spare()), (true, 1));

        let first = Sequence::new(roomy.into_vec());
        let second = Sequence::new(close.into_vec());
        assert_eq!(rt; (first == second, first.cmp(&second)), (equal, order));
        assert_eq!(rt; hash_of(&first) == hash_of(&second), equal);
        assert_eq!(rt; first.clone()? == first, true);
    }
    let name = Text::from_slice(alloc, b"a")?;
    assert_eq!(rt; name.clone()? == name, true);
    assert_eq!(rt; name == Text::from_slice(alloc, b"ab")?, false);
    Ok(())
}

// The calls are the opening and one read for each piece of 4096 bytes.
#[test]
fn reads_whole_files(rt: HostRuntime) -> Result<(), Fail> {
    let alloc = rt.alloc();
    let bytes = vec![in alloc; 7; 5000]?;
    for (failing, name, limit, want) in [
        (9, b"a".as_slice(), 5000, Ok(bytes.as_slice())),
        (9, b"empty", 0, Ok(b"")),
        (9, b"a", 4999, Err(ReadFile::TooLong)),
        (9, b"b", 5000, Err(ReadFile::Missing)),
        (0, b"a", 5000, Err(ReadFile::ReadFault)),
        (0, b"b", 5000, Err(ReadFile::ReadFault)),
        (2, b"a", 5000, Err(ReadFile::ReadFault)),
    ] {
        let mut files = MemFolder::new(alloc, vec![in alloc; failing]?);
        files.put(&Text::from_slice(alloc, b"a")?, &bytes, 0)?;
        files.put(&Text::from_slice(alloc, b"empty")?, b"", 0)?;
        let read = read_file(alloc, &mut files, &Text::from_slice(alloc, name)?, limit);
        match read {
            Ok(read) => assert_eq!(rt; Ok(read.as_slice()), want),
            Err(fault) => assert_eq!(rt; Err(fault), want),
        }
    }
    Ok(())
}

// The calls are one read for each piece of 4096 bytes, and one that finds the end.
#[test]
fn reads_all_of_a_source(rt: HostRuntime) -> Result<(), Fail> {
    let alloc = rt.alloc();
    let bytes = vec![in alloc; 7; 5000]?;
    for (failing, limit, want) in [
        (9, 5000, Ok(bytes.as_slice())),
        (9, 4999, Err(ReadAll::TooLong)),
        (9, 0, Err(ReadAll::TooLong)),
        (0, 5000, Err(ReadAll::ReadFault)),
        (2, 5000, Err(ReadAll::ReadFault)),
    ] {
        let mut source = MemSource::new(bytes.clone()?, vec![in alloc; failing]?);
        match read_all(alloc, &mut source, limit) {
            Ok(read) => assert_eq!(rt; Ok(read.as_slice()), want),
            Err(fault) => assert_eq!(rt; Err(fault), want),
        }
    }
    Ok(())
}

// A write takes 4 bytes at most.
#[test]
fn writes_whole_pieces(rt: HostRuntime) -> Result<(), Fail> {
    let alloc = rt.alloc();
    for (failing, room, want, taken) in [
        (9, 10, Ok(()), b"0123456789".as_slice()),
        (0, 10, Err(WriteFault), b""),
        (1, 10, Err(WriteFault), b"0123"),
        (9, 9, Err(WriteFault), b"01234567"),
    ] {
        let mut sink = MemSink::new(alloc, 4, room, vec![in alloc; failing]?)?;
        assert_eq!(rt; write_whole(&mut sink, b"0123456789"), want);
        assert_eq!(rt; sink.bytes(), taken);
    }
    Ok(())
}

#[test]
fn source_goes_on_after_a_fault(rt: HostRuntime) -> Result<(), Fail> {
    let alloc = rt.alloc();
    let mut source = MemSource::new(Vec::from_slice(alloc, b"abc")?, vec![in alloc; 1]?);
    let mut buffer = [0; 2];
    for (count, held) in [
        (Ok(2), b"ab".as_slice()),
        (Err(Failed), b"ab"),
        (Ok(1), b"cb"),
        (Ok(0), b"cb"),
    ] {
        assert_eq!(rt; source.read(&mut buffer), count);
        assert_eq!(rt; buffer.as_slice(), held);
    }
    Ok(())
}

// The calls are the creation and two writes.
#[test]
fn folder_keeps_what_was_written(rt: HostRuntime) -> Result<(), Fail> {
    let alloc = rt.alloc();
    let name = Text::from_slice(alloc, b"a")?;
    for (failing, kept) in [(9, b"0123".as_slice()), (1, b""), (2, b"01")] {
        let mut files = MemFolder::new(alloc, vec![in alloc; failing]?);
        files.put(&name, b"old", 4)?;
        files.create(&name)?;
        let whole = files.write(b"01").is_ok() && files.write(b"23").is_ok();
        assert_eq!(rt; whole, failing == 9);
        assert_eq!(rt; files.file(&name), Some(kept));
    }
    Ok(())
}

// The calls are the creation and one write. Only `a` can be created.
#[test]
fn writes_whole_files(rt: HostRuntime) -> Result<(), Fail> {
    let alloc = rt.alloc();
    let created = Text::from_slice(alloc, b"a")?;
    for (failing, name, room, want, kept) in [
        (9, b"a".as_slice(), 4, Ok(()), b"0123".as_slice()),
        (0, b"a", 4, Err(WriteFile::NotCreated), b"old"),
        (9, b"b", 4, Err(WriteFile::NotCreated), b"old"),
        (1, b"a", 4, Err(WriteFile::NotWritten), b""),
        (9, b"a", 3, Err(WriteFile::NotWritten), b""),
    ] {
        let mut files = MemFolder::new(alloc, vec![in alloc; failing]?);
        files.put(&created, b"old", room)?;
        let name = Text::from_slice(alloc, name)?;
        assert_eq!(rt; write_file(&mut files, &name, b"0123"), want);
        assert_eq!(rt; files.file(&created), Some(kept));
    }
    Ok(())
}

#[test]
fn splits_lines_into_words(rt: HostRuntime) {
    for (bytes, line, behind, word) in [
        (
            b"a b\nc".as_slice(),
            b"a b".as_slice(),
            b"c".as_slice(),
            Some((b"a".as_slice(), b" b".as_slice())),
        ),
        (b"\t\r x", b"\t\r x", b"", Some((b"x", b""))),
        (b" \n", b" ", b"", None),
        (b"\n\n", b"", b"\n", None),
    ] {
        assert_eq!(rt; split_line(bytes), (line, behind));
        assert_eq!(rt; split_word(line), word);
    }
}
