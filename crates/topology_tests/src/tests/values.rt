// What is read of a text that is accepted, and of one line.
use lines::line::{Line, read_line};
use std::test::Fail;
use topology::fault::Fault;
use topology::node::{Node, Part};
use topology::reader::read;
use words::name::Name;

#[test]
fn nodes(rt: HostRuntime) -> Result<(), Fault> {
    let text = b"timed cpu 2 1 0\nwork dma 255\ndist bus dma cpu\nwork io 0\nseq top io bus\n";
    let table: [(&[u8], Part); 5] = [
        (b"cpu", Part::Timed { d: 2, e: 1, k: 0 }),
        (b"dma", Part::Work { p: 255 }),
        (
            b"bus",
            Part::Dist {
                first: 1,
                second: 0,
            },
        ),
        (b"io", Part::Work { p: 0 }),
        (
            b"top",
            Part::Seq {
                first: 3,
                second: 2,
            },
        ),
    ];
    let topology = read(text, 5)?;
    assert_eq!(rt; topology.len(), 5);
    assert_eq!(rt; topology.node(5), None);
    for (i, (name, part)) in table.into_iter().enumerate() {
        let node = Node {
            name: Name::new(name),
            part,
        };
        assert_eq!(rt; topology.node(i), Some(node));
    }
    Ok(())
}

// A line that is read hands on its words as they stand in the text.
#[test]
fn words_of_lines(rt: HostRuntime) {
    let table: [(&[u8], Line<'_>); 4] = [
        (
            b"timed cpu 02 x 300",
            Line::Timed {
                name: b"cpu",
                d: b"02",
                e: b"x",
                k: b"300",
            },
        ),
        (
            b"work dma ",
            Line::Work {
                name: b"dma",
                p: b"",
            },
        ),
        (
            b"dist bus A bus",
            Line::Dist {
                name: b"bus",
                first: b"A",
                second: b"bus",
            },
        ),
        (
            b"seq top  a",
            Line::Seq {
                name: b"top",
                first: b"",
                second: b"a",
            },
        ),
    ];
    for (text, line) in table {
        assert_eq!(rt; read_line(text), Ok(line));
    }
}

#[test]
fn flaws_of_lines(rt: HostRuntime) {
    let table: [(&[u8], u8); 8] = [
        (b"", 4),
        (b"tim a 1", 4),
        (b"works a 1", 4),
        (b"work", 5),
        (b"seq a b", 5),
        (b"work 1 1", 6),
        (b"dist abcdefghijklm a b", 6),
        (b"work a\n 1", 6),
    ];
    for (text, number) in table {
        assert_eq!(rt; read_line(text).err().map(u8::from), Some(number));
    }
}

#[test]
fn faults_in_print(rt: HostRuntime) -> Result<(), Fail> {
    let line = Fault::NeverJoined { line: 7 };
    assert_eq!(rt; line.to_string(rt.alloc())?.as_str(), "fault 11 line 7");
    assert_eq!(rt;
        Fault::TooFewCells.to_string(rt.alloc())?.as_str(),
        "fault 12 line 0"
    );
    Ok(())
}
