// Trees of 127 lines: as deep and as wide as they can be.
use cells::cell::Cell;
use channel::device::QDevice;
use channel::phase::Phase;
use std::alloc::{AllocError, Global};
use std::fmt;
use std::process::Abort;
use std::test::Fail;
use tree::state::Tree;

// The name of one of many lines: a letter, and the number in two letters.
#[derive(Clone, Copy)]
struct Named(char, u8);

impl fmt::Display for Named {
    fn fmt<W: fmt::Write>(&self, f: &mut fmt::Formatter<W>) -> fmt::Result {
        let Named(letter, k) = *self;
        let (high, low) = (char::from(b'a' + k / 26), char::from(b'a' + k % 26));
        write!(f, "{letter}{high}{low}")
    }
}

// A leaf, and 63 times one leaf more and a join of all before with it.
fn chain(heap: Global, join: &str) -> Result<String, AllocError> {
    let mut text = String::from_str(heap, "timed x 1 1 1\n")?;
    for k in 0..63u8 {
        let (leaf, joined) = (Named('l', k), Named('j', k));
        write!(text, "timed {leaf} 1 1 0\n{join} {joined} ")?;
        match k.checked_sub(1) {
            Some(before) => write!(text, "{}", Named('j', before))?,
            None => write!(text, "x")?,
        }
        writeln!(text, " {leaf}")?;
    }
    Ok(text)
}

// 64 leaves, then joins of two lines each, up to one.
fn wide(heap: Global) -> Result<String, AllocError> {
    let mut text = String::new(heap);
    for k in 0..64u8 {
        writeln!(text, "timed {} 3 2 1", Named('l', k))?;
    }
    for k in 0..63u8 {
        let (joined, first, second) = (
            Named('l', 64 + k),
            Named('l', 2 * k),
            Named('l', 2 * k + 1),
        );
        writeln!(text, "dist {joined} {first} {second}")?;
    }
    Ok(text)
}

// Steps while the tree stays in its phase; tells how many it took.
fn until_moved(tree: &mut Tree<'_>, most: u16) -> u16 {
    let from = tree.phase();
    for made in 0..most {
        if tree.phase() != from {
            return made;
        }
        tree.step();
    }
    most
}

// Loads a text of 127 lines whose first leaf denies, wakes the tree in so many steps and lowers it: it is denied
// after so many more.
fn denied_by_the_first(rt: &impl Abort, text: &str, up: u16, down: u16) {
    let mut cells = [Cell::blank(); 127];
    let mut tree = Tree::new(&mut cells);
    assert!(rt; tree.load(text.as_bytes()).is_ok());
    assert_eq!(rt; (tree.len(), tree.is_pile()), (127, true));
    let _ = tree.raise();
    assert_eq!(rt;
        (until_moved(&mut tree, 1000), tree.phase()),
        (up, Phase::Run)
    );
    let _ = tree.lower();
    let (made, phase, denier) = (until_moved(&mut tree, 1000), tree.phase(), tree.denier());
    assert_eq!(rt; (made, phase, denier), (down, Phase::Denied, Some(1)));
}

// The leaf denies at step 1; the join over it is at Denied at step 2, and each one above a step later.
#[test]
fn deep_distributors(rt: HostRuntime) -> Result<(), Fail> {
    let text = chain(rt.alloc(), "dist")?;
    denied_by_the_first(&rt, text.as_str(), 1, 64);
    Ok(())
}

#[test]
fn deep_sequencers(rt: HostRuntime) -> Result<(), Fail> {
    let text = chain(rt.alloc(), "seq")?;
    denied_by_the_first(&rt, text.as_str(), 64, 64);
    Ok(())
}

#[test]
fn wide_tree(rt: HostRuntime) -> Result<(), Fail> {
    let text = wide(rt.alloc())?;
    denied_by_the_first(&rt, text.as_str(), 2, 9);
    Ok(())
}
