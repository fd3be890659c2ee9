// Small texts, by table.
use super::{Told, reads_as};

#[test]
fn whole_text(rt: HostRuntime) {
    let table: [(&[u8], usize, Told); 10] = [
        (b"", 127, Err((1, 0))),
        (b"w", 127, Err((2, 0))),
        (b"work a 1", 127, Err((2, 0))),
        (b"work a 1\nwork b 1\nseq t a b", 127, Err((2, 0))),
        (b"work a 1\n\r", 127, Err((2, 0))),
        (b"work a 1\n", 0, Err((12, 0))),
        (b"work a 1\nwork b 1\nseq t a b\n", 2, Err((12, 0))),
        (b"work a 1\nwork b 1\nseq t a b\n", 3, Ok(())),
        (b"bad\nbad\n", 1, Err((12, 0))),
        (b"work a 1", 0, Err((2, 0))),
    ];
    for (text, cells, told) in table {
        reads_as(&rt, text, cells, told);
    }
}

#[test]
fn each_line(rt: HostRuntime) {
    let table: [(&[u8], Told); 27] = [
        // the first line
        (b"tim a 1 1 1\n", Err((4, 1))),
        (b"timed a 1 1\n", Err((5, 1))),
        (b"timed A 1 1 1\n", Err((6, 1))),
        (b"timed a x 1 1\n", Err((8, 1))),
        (b"timed a 1 x 1\n", Err((8, 1))),
        (b"timed a 1 1 x\n", Err((8, 1))),
        (b"work a x\n", Err((8, 1))),
        (b"seq a b c\n", Err((9, 1))),
        (b"dist a b c\n", Err((9, 1))),
        (b"seq a a a\n", Err((9, 1))),
        // the second, where two are first possible
        (b"work a 0\nwork a 0\n", Err((7, 2))),
        (b"work a 0\nseq t a a\n", Err((10, 2))),
        (b"work a 0\nseq t a t\n", Err((9, 2))),
        (b"work a 0\nseq t t a\n", Err((9, 2))),
        (b"work a 0\nseq t a b\nwork b 0\n", Err((9, 2))),
        // in the middle
        (b"work a 0\nwork b 0\nWORK c 0\nseq t a b\n", Err((4, 3))),
        (b"work a 0\nwork b 0\nwork c 0 0\nseq t a b\n", Err((5, 3))),
        (b"work a 0\nwork b 0\nwork 1 0\nseq t a b\n", Err((6, 3))),
        (b"work a 0\nwork b 0\nwork b 0\nseq t a b\n", Err((7, 3))),
        (b"work a 0\nwork b 0\nwork c -1\nseq t a b\n", Err((8, 3))),
        (b"work a 0\nwork b 0\nseq c a ab\nseq t a b\n", Err((9, 3))),
        (b"work a 0\nwork b 0\nseq c b b\nseq t a b\n", Err((10, 3))),
        (
            b"work a 0\nwork b 0\nseq c a b\nwork d 0\ndist t d a\n",
            Err((10, 5)),
        ),
        // a name that begins with another, or that another begins with
        (b"work ab 0\nwork c 0\nseq t a c\n", Err((9, 3))),
        (b"work a 0\nwork c 0\nseq t ab c\n", Err((9, 3))),
        (b"work a 0\nwork ab 0\nseq t ab a\n", Ok(())),
        // words of the format as names
        (b"work seq 0\nwork dist 0\ndist timed seq dist\n", Ok(())),
    ];
    for (text, told) in table {
        reads_as(&rt, text, 127, told);
    }
}

#[test]
fn spaces_and_ends(rt: HostRuntime) {
    let table: [(&[u8], Told); 19] = [
        (b" work a 1\n", Err((4, 1))),
        (b"\n", Err((4, 1))),
        (b" \n", Err((4, 1))),
        (b"work a 1\n\n", Err((4, 2))),
        (b"\nwork a 1\n", Err((4, 1))),
        (b"work\n", Err((5, 1))),
        (b"work a\n", Err((5, 1))),
        (b"work a 1 \n", Err((5, 1))),
        (b"work a  1\n", Err((5, 1))),
        (b"timed a 1 1 1 \n", Err((5, 1))),
        (b"work  1\n", Err((6, 1))),
        (b"work a \n", Err((8, 1))),
        (b"timed a  1 1\n", Err((8, 1))),
        (b"work a 0\nseq t  a\n", Err((9, 2))),
        (b"work a 0\nseq t a \n", Err((9, 2))),
        (b"work a 1\r\n", Err((8, 1))),
        (b"work a\r 1\n", Err((6, 1))),
        (b"work\ta 1\n", Err((4, 1))),
        (b"work a 1\n", Ok(())),
    ];
    for (text, told) in table {
        reads_as(&rt, text, 127, told);
    }
}

#[test]
fn names_and_numbers(rt: HostRuntime) {
    let table: [(&[u8], Told); 24] = [
        (b"work abcdefghijkl 0\n", Ok(())),
        (b"work abcdefghijklm 0\n", Err((6, 1))),
        (b"work a0123456789z 0\n", Ok(())),
        (b"work a0123456789zz 0\n", Err((6, 1))),
        (b"work z9 0\n", Ok(())),
        (b"work 9z 0\n", Err((6, 1))),
        (b"work a_b 0\n", Err((6, 1))),
        (b"work a{ 0\n", Err((6, 1))),
        (b"work a` 0\n", Err((6, 1))),
        (b"work a/ 0\n", Err((6, 1))),
        (b"work a: 0\n", Err((6, 1))),
        (b"timed a 255 255 255\n", Ok(())),
        (b"timed a 256 1 0\n", Err((8, 1))),
        (b"timed a 1 256 0\n", Err((8, 1))),
        (b"timed a 1 1 256\n", Err((8, 1))),
        (b"timed a 0 1 0\n", Err((8, 1))),
        (b"timed a 1 0 0\n", Err((8, 1))),
        (b"timed a 1 1 0\n", Ok(())),
        (b"work a 255\n", Ok(())),
        (b"work a 256\n", Err((8, 1))),
        (b"work a 00\n", Err((8, 1))),
        (b"work a 01\n", Err((8, 1))),
        (b"work a +1\n", Err((8, 1))),
        (b"work a 1a\n", Err((8, 1))),
    ];
    for (text, told) in table {
        reads_as(&rt, text, 127, told);
    }
}

// Of two faults the one that is checked first is told.
#[test]
fn order_of_checks(rt: HostRuntime) {
    let table: [(&[u8], Told); 14] = [
        (b"x A\n", Err((4, 1))),
        (b"work A\n", Err((5, 1))),
        (b"work a 0\nwork A x\n", Err((6, 2))),
        (b"work a 0\nwork a x\n", Err((7, 2))),
        (b"work a 0\nseq a b a\n", Err((7, 2))),
        (b"timed a 0 x 256\n", Err((8, 1))),
        (b"work a 0\nwork b 0\nseq c a b\nseq t a x\n", Err((10, 4))),
        (b"work a 0\nwork b 0\nseq c a b\nseq t x a\n", Err((9, 4))),
        (b"work a x\nx\n", Err((8, 1))),
        (b"work a 0\nx\nwork a x\n", Err((4, 2))),
        (b"work a 0\nwork b 0\nx\n", Err((4, 3))),
        (b"work a 0\nwork b 0\n", Err((11, 1))),
        (b"work a 0\nwork b 0\nwork c 0\nseq t a c\n", Err((11, 2))),
        (b"work a 0\nwork b 0\nwork c 0\nseq t a b\n", Err((11, 3))),
    ];
    for (text, told) in table {
        reads_as(&rt, text, 127, told);
    }
}
