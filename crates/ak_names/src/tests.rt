use super::*;
use crate::memo::Memo;
use ak_base::Text;
use std::alloc::{AllocError, Global};

// Whether the text names these names, which are split at `;`.
fn names(alloc: Global, text: &[u8], names: &str) -> Result<bool, AllocError> {
    let Ok(read) = read_names(alloc, text) else {
        return Ok(false);
    };
    let mut count = 0;
    for name in names.split(';') {
        if count >= read.as_slice().len() || read.as_slice()[count].as_str() != name {
            return Ok(false);
        }
        count += 1;
    }
    Ok(count == read.as_slice().len())
}

fn is_bad(alloc: Global, text: &[u8]) -> bool {
    matches!(read_names(alloc, text), Err(NameError::Bad))
}

// The head, and then the numbers below a bound, each behind a mark.
fn numbered(
    alloc: Global,
    head: &str,
    mark: &str,
    end: &str,
    bound: u32,
) -> Result<String, AllocError> {
    let mut text = String::from_str(alloc, head)?;
    for number in 0..bound {
        text.push_str(format!(in alloc; "{mark}{number}{end}")?.as_str())?;
    }
    Ok(text)
}

#[test]
fn named(rt: HostRuntime) -> Result<(), AllocError> {
    let alloc = rt.alloc();
    assert!(rt; names(alloc, b"cpu region=eu  host=a", "cpu host=a region=eu")?);
    assert!(rt; names(alloc, b"  a|b host=x ", "a host=x;b host=x")?);
    assert!(rt; names(alloc, b"cpu", "cpu")?);
    assert!(rt; names(alloc, b"cpu a=b=c", "cpu a=b=c")?);
    assert!(rt; names(alloc, b"cpu a=1 a-b=2", "cpu a=1 a-b=2")?);
    assert!(rt; names(alloc, b"c!|d k=|", "c! k=|;d k=|")?);
    Ok(())
}

#[test]
fn unnamed(rt: HostRuntime) -> Result<(), AllocError> {
    let alloc = rt.alloc();
    for text in [
        b"".as_slice(),
        b"  ".as_slice(),
        b"a||b".as_slice(),
        b"|a".as_slice(),
        b"a=b".as_slice(),
        b"!a".as_slice(),
        b"a|!b".as_slice(),
        b"a|b|a".as_slice(),
        b"a b".as_slice(),
        b"a =b".as_slice(),
        b"a b=".as_slice(),
        b"a b=1 c=2 b=3".as_slice(),
        b"a b=\x1f".as_slice(),
        b"a\x7f".as_slice(),
        b"a\n".as_slice(),
        b"a\xff".as_slice(),
    ] {
        assert!(rt; is_bad(alloc, text));
    }
    Ok(())
}

#[test]
fn bounds(rt: HostRuntime) -> Result<(), AllocError> {
    let alloc = rt.alloc();
    assert!(rt; !is_bad(alloc, numbered(alloc, "m", "|", "", 31)?.as_bytes()));
    assert!(rt; is_bad(alloc, numbered(alloc, "m", "|", "", 32)?.as_bytes()));
    assert!(rt; !is_bad(alloc, numbered(alloc, "m", " ", "=v", 32)?.as_bytes()));
    assert!(rt; is_bad(alloc, numbered(alloc, "m", " ", "=v", 33)?.as_bytes()));
    let mut long = String::from_str(alloc, "m|long t=")?;
    for _ in 0..505 {
        long.push('v')?;
    }
    assert!(rt; !is_bad(alloc, long.as_bytes()));
    long.push('v')?;
    assert!(rt; is_bad(alloc, long.as_bytes()));
    Ok(())
}

#[test]
fn counts(rt: HostRuntime) {
    assert!(rt; metrics(b"") == 1);
    assert!(rt; metrics(b"   ") == 1);
    assert!(rt; metrics(b"a") == 1);
    assert!(rt; metrics(b"  a|b||c d|e") == 4);
    assert!(rt; metrics(b"| ") == 2);
}

#[test]
fn numbers(rt: HostRuntime) -> Result<(), AllocError> {
    let alloc = rt.alloc();
    let mut index = Index::new(alloc)?;
    let mut first = Text::new(alloc);
    first.push(alloc, "cpu host=a")?;
    let mut second = Text::new(alloc);
    second.push(alloc, "cpu host=b")?;
    assert!(rt; index.id(&first) == None);
    assert!(rt; index.add(alloc, &first)? == 0);
    assert!(rt; index.id(&second) == None);
    assert!(rt; index.add(alloc, &second)? == 1);
    assert!(rt; index.id(&first) == Some(0));
    assert!(rt; index.id(&second) == Some(1));
    assert!(rt; index.id_of(b"cpu host=a") == Some(0));
    assert!(rt; index.id_of(b"cpu host=b") == Some(1));
    // a text that names the second, but isn't its name, and one that is no text
    assert!(rt; index.id_of(b"cpu  host=b") == None);
    assert!(rt; index.id_of(b"cpu host=b\xff") == None);
    Ok(())
}

#[test]
fn texts_are_kept(rt: HostRuntime) -> Result<(), AllocError> {
    let alloc = rt.alloc();
    let mut memo = Memo::new(alloc);
    assert!(rt; memo.find(b"cpu|mem host=a").is_none());
    memo.keep(alloc, b"cpu|mem host=a", [7, 3].as_slice())?;
    memo.keep(alloc, b"cpu|mem  host=a", [3].as_slice())?;
    assert!(rt; memo.find(b"cpu|mem host=a") == Some([7, 3].as_slice()));
    assert!(rt; memo.find(b"cpu|mem  host=a") == Some([3].as_slice()));
    assert!(rt; memo.find(b"cpu|mem host=a ").is_none());
    // a text that is kept stays as it is, and one that is no UTF-8 isn't kept
    memo.keep(alloc, b"cpu|mem host=a", [1].as_slice())?;
    assert!(rt; memo.find(b"cpu|mem host=a") == Some([7, 3].as_slice()));
    memo.keep(alloc, b"cpu\xff", [1].as_slice())?;
    assert!(rt; memo.find(b"cpu\xff").is_none());
    Ok(())
}

#[test]
fn few_texts_are_kept(rt: HostRuntime) -> Result<(), AllocError> {
    let alloc = rt.alloc();
    let mut memo = Memo::new(alloc);
    for number in 0..65_536 {
        let text = format!(in alloc; "m{number}")?;
        memo.keep(alloc, text.as_bytes(), [number].as_slice())?;
    }
    memo.keep(alloc, b"m65536", [0].as_slice())?;
    assert!(rt; memo.find(b"m65535") == Some([65_535].as_slice()));
    assert!(rt; memo.find(b"m65536").is_none());
    Ok(())
}

#[test]
fn few_bytes_and_numbers_are_kept(rt: HostRuntime) -> Result<(), AllocError> {
    let alloc = rt.alloc();
    let mut memo = Memo::new(alloc);
    let long = vec![in alloc; b'm'; 4_194_305]?;
    memo.keep(alloc, long.as_slice(), [0].as_slice())?;
    assert!(rt; memo.find(long.as_slice()).is_none());
    memo.keep(alloc, &long.as_slice()[1..], [0].as_slice())?;
    assert!(rt; memo.find(&long.as_slice()[1..]).is_some());
    memo.keep(alloc, b"m", [0].as_slice())?;
    assert!(rt; memo.find(b"m").is_none());
    let mut other = Memo::new(alloc);
    let numbers = vec![in alloc; 5; 262_144]?;
    other.keep(alloc, b"a", [5].as_slice())?;
    other.keep(alloc, b"b", numbers.as_slice())?;
    assert!(rt; other.find(b"b").is_none());
    other.keep(alloc, b"c", &numbers.as_slice()[1..])?;
    assert!(rt; other.find(b"c").is_some());
    other.keep(alloc, b"d", [5].as_slice())?;
    assert!(rt; other.find(b"d").is_none());
    Ok(())
}
