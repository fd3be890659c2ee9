// A text and what it should read as.
use std::process::Abort;
use topology::fault::Place;
use topology::reader::read;

mod large;
mod small;
mod values;

// Accepted, or the fault's number and line, by which faults are told.
type Told = Result<(), (u8, u8)>;

// Where the fault of a number is found.
fn place_of(number: u8) -> Place {
    match number {
        1 | 2 | 3 | 12 => Place::Text,
        11 => Place::Tree,
        _ => Place::Line,
    }
}

// Reads a text and compares what is told of it.
fn reads_as(rt: &impl Abort, text: &[u8], cells: usize, told: Told) {
    match read(text, cells) {
        Ok(_) => assert_eq!(rt; told, Ok(())),
        Err(fault) => {
            let number = u8::from(fault);
            assert_eq!(rt; told, Err((number, fault.line())));
            assert_eq!(rt; place_of(number), fault.place());
        }
    }
}
