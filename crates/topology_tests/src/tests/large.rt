// Texts at the limits of size, lines and cells.
use super::{Told, reads_as};
use std::alloc::{AllocError, Global};
use std::fmt::Write;
use std::iter::repeat_n;
use std::test::Fail;

// One leaf, and then so many times a leaf and a join of it with all before: 1 + 2 * joins lines, each but the last joined.
fn chain(heap: Global, joins: u8) -> Result<String, AllocError> {
    let mut text = String::from_str(heap, "timed jzz 255 255 255\n")?;
    let mut before = ('z', 'z');
    for k in 0..joins {
        let (a, b) = (char::from(b'a' + k / 26), char::from(b'a' + k % 26));
        let (c, d) = before;
        write!(text, "work lx{a}{b} 0\nseq j{a}{b} j{c}{d} lx{a}{b}\n")?;
        before = (a, b);
    }
    Ok(text)
}

#[test]
fn lines_and_cells(rt: HostRuntime) -> Result<(), Fail> {
    let text = chain(rt.alloc(), 63)?;
    let table: [(usize, Told); 4] = [
        (127, Ok(())),
        (500, Ok(())),
        (126, Err((12, 0))),
        (0, Err((12, 0))),
    ];
    for (cells, told) in table {
        reads_as(&rt, text.as_bytes(), cells, told);
    }
    let mut over = chain(rt.alloc(), 63)?;
    over.push_str("work z 0\n")?;
    reads_as(&rt, over.as_bytes(), 128, Err((3, 0)));
    reads_as(&rt, over.as_bytes(), 0, Err((3, 0)));
    let mut first = Vec::from_slice(rt.alloc(), b"bad\n")?;
    first.extend(repeat_n(b'\n', 127))?;
    reads_as(&rt, first.as_slice(), 128, Err((3, 0)));
    Ok(())
}

// Each fault of a line at line 127.
#[test]
fn last_line(rt: HostRuntime) -> Result<(), Fail> {
    let table: [(&str, u8, u8); 9] = [
        ("works y 0\n", 4, 127),
        ("work y\n", 5, 127),
        ("work Y 0\n", 6, 127),
        ("work z 0\n", 7, 127),
        ("work y 256\n", 8, 127),
        ("seq y z y\n", 9, 127),
        ("seq y z z\n", 10, 127),
        ("seq y z jzz\n", 10, 127),
        ("work y 0\n", 11, 125),
    ];
    for (line, number, place) in table {
        let mut text = chain(rt.alloc(), 62)?;
        text.push_str("work z 0\n")?;
        text.push_str(line)?;
        reads_as(&rt, text.as_bytes(), 127, Err((number, place)));
    }
    // the last line that can be the lowest that none joins
    let mut text = chain(rt.alloc(), 61)?;
    text.push_str("work x 0\nwork z 0\nseq t x jci\n")?;
    reads_as(&rt, text.as_bytes(), 127, Err((11, 125)));
    Ok(())
}

#[test]
fn sizes(rt: HostRuntime) -> Result<(), Fail> {
    let table: [(usize, Told); 4] = [
        (8190, Err((4, 1))),
        (8191, Err((4, 1))),
        (8192, Err((1, 0))),
        (9000, Err((1, 0))),
    ];
    for (n, told) in table {
        let mut text = vec![in rt.alloc(); b'a'; n]?;
        text.push(b'\n')?;
        reads_as(&rt, text.as_slice(), 127, told);
    }
    let lines = vec![in rt.alloc(); b'\n'; 8192]?;
    reads_as(&rt, lines.as_slice(), 127, Err((3, 0)));
    let open = vec![in rt.alloc(); b'a'; 8192]?;
    reads_as(&rt, open.as_slice(), 127, Err((2, 0)));
    Ok(())
}

// Numbers and names of hundreds of bytes.
#[test]
fn long_words(rt: HostRuntime) -> Result<(), Fail> {
    let table: [(&[u8], u8, &[u8], u8); 8] = [
        (b"work a ", b'9', b"\n", 8),
        (b"work a ", b'0', b"\n", 8),
        (b"work a 1", b'0', b"\n", 8),
        (b"work a ", b'2', b"x\n", 8),
        (b"timed a 1 ", b'1', b" 0\n", 8),
        (b"work a", b'b', b" 0\n", 6),
        (b"seq t a", b'b', b" c\n", 9),
        (b"work a 1", b' ', b"\n", 5),
    ];
    for (front, b, back, number) in table {
        let mut text = Vec::from_slice(rt.alloc(), front)?;
        text.extend(repeat_n(b, 700))?;
        text.extend_from_slice(back)?;
        reads_as(&rt, text.as_slice(), 127, Err((number, 1)));
    }
    Ok(())
}
