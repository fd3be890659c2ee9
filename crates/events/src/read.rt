// Reads an event line.
ghost use Rattle.std.specs.Prelude.{◌≡◌};
ghost use Rattle.events.specs.Events.{job_line, read_event};

use crate::count::count;
use crate::event::Event;
use crate::refusal::Refusal;
use words::name::{Name, is_name};
use words::piece::{word, word_count};

// `j NAME N`, with one space between.
fn job_event(line: &[u8]) -> Result<Event, Refusal>
    ensures { result ≡ job_line line.now }
{
    if word_count(line) != 3 || word(line, 0) != b"j".as_slice() {
        return Err(Refusal::NotAsWritten);
    }
    let name = word(line, 1);
    if !is_name(name) {
        return Err(Refusal::NotAsWritten);
    }
    let jobs = count(word(line, 2)).ok_or(Refusal::NotAsWritten)?;
    Ok(Event::Job {
        name: Name::new(name),
        jobs,
    })
}

// The event of a line, which has no byte 10; or that it has no known letter, or is not just as written.
pub fn read_event(line: &[u8]) -> Result<Event, Refusal>
    ensures { result ≡ read_event line.now }
{
    let [first, rest @ ..] = line else {
        return Err(Refusal::NoLetter);
    };
    match (char::from(*first), rest) {
        ('l', []) => Ok(Event::Lower),
        ('r', []) => Ok(Event::Raise),
        ('s', []) => Ok(Event::Step),
        ('z', []) => Ok(Event::Reset),
        ('j', _) => job_event(line),
        ('l' | 'r' | 's' | 'z', _) => Err(Refusal::NotAsWritten),
        _ => Err(Refusal::NoLetter),
    }
}
